//! Which findings filters and a baseline leave out of an answer.
use indexmap::IndexSet;
use rev_baseline::{Baseline, Fault, ReadFault};
use rev_certainty::is_named;
use rev_certificate::Obstacle;
use rev_certificate_words::{Named, conflict_kind};
use rev_conflicts_text::Finding;
use rev_entry_conflicts::{Conflict, Kind};
use rev_filters::{Filters, is_hidden};
use rev_folder::{FilterTexts, filters_in};
use rev_races_text::{Clash, Id, LeftOut, RaceFinding, Sources};
use rev_recording::{ObservedFault, RecordingFault};
use std::alloc::{AllocError, Global};

/// The texts by which findings are left out, and whether a baseline is to be written.
#[derive(Clone, Copy)]
pub struct Choice<'a> {
    /// The texts of filters.
    pub filters: FilterTexts<'a>,
    /// The text of the baseline, where the user names one.
    pub baseline: Option<&'a [u8]>,
    /// Whether a baseline that knows all that is found is to be written.
    pub writes: bool,
}

impl Choice<'_> {
    // Whether there is a text of filters.
    fn has_filters(&self) -> bool {
        self.filters.beside.is_some() || self.filters.named.is_some()
    }
}

/// What is left of findings, races and clashes.
#[derive(Drop)]
pub(crate) struct Left<'a> {
    /// The findings by an observation.
    pub(crate) findings: Vec<Finding<'a>>,
    /// The races by lists and by errors.
    pub(crate) races: Vec<RaceFinding<'a>>,
    /// The clashes of side files.
    pub(crate) clashes: Vec<Clash>,
}

/// Filters and a baseline, and how many findings they left out.
pub struct Leaving {
    filters: Vec<Filters>,
    has_filters: bool,
    baseline: Option<Baseline>,
    hidden: u64,
    known: u64,
    ignored: u64,
}

// Written, since a derived drop is proved again at each exit of each caller.
impl Drop for Leaving {
    fn drop(self) {
        let Leaving {
            filters: _filters,
            has_filters: _has_filters,
            baseline: _baseline,
            hidden: _hidden,
            known: _known,
            ignored: _ignored,
        } = self;
    }
}

// The baseline that a text says. Where `writes` holds, a baseline is to be written that knows all that is found, so this
// one only ignores.
fn baseline_of(alloc: Global, text: &[u8], writes: bool) -> Result<Baseline, RecordingFault> {
    match Baseline::read(alloc, text) {
        Ok(mut baseline) => {
            if writes {
                baseline.forget();
            }
            Ok(baseline)
        }
        Err(ReadFault::Memory) => Err(RecordingFault::Memory),
        Err(ReadFault::Numbered(Fault { kind, line })) => {
            Err(RecordingFault::Observed(ObservedFault {
                file: "--baseline",
                line,
                code: kind.code(),
            }))
        }
    }
}

// Adds the races of which no filter hides the path, and those that the error of a failed command names. Notes the paths
// that are hidden.
fn add_unhidden<'a>(
    alloc: Global,
    filters: &[Filters],
    races: &[RaceFinding<'a>],
    told: &mut Vec<RaceFinding<'a>>,
    paths: &mut IndexSet<&'a [u8]>,
) -> Result<(), AllocError> {
    for race in races {
        let path = race.path.as_bytes();
        if !is_named(race) && is_hidden(alloc, filters, path)? {
            paths.insert(path)?;
        } else {
            told.push(*race)?;
        }
    }
    Ok(())
}

// The stable name of a conflict. In that of a clash neither edge comes first.
fn conflict_id(named: &Named<'_>, conflict: &Conflict) -> Id {
    let kind = conflict_kind(conflict.kind);
    let path = named.path(conflict.entry).0;
    let (maker, user) = (
        named.edge_number(conflict.made_by),
        named.edge_number(conflict.used_by),
    );
    match conflict.kind {
        Kind::Clash => named.sources.pair_id(kind, path, maker, user),
        _ => named.sources.id(kind, path, maker, user),
    }
}

/// The stable name of what stands in the way of a certificate. An observation that was cut or changed has none.
pub(crate) fn obstacle_id(named: &Named<'_>, obstacle: &Obstacle) -> Option<Id> {
    match obstacle {
        Obstacle::Incomplete => None,
        Obstacle::NotEnded { edge } | Obstacle::Early { edge } | Obstacle::Unseen { edge } => {
            Some(named.sources.way_id(*edge))
        }
        Obstacle::Flagged { command, .. } => {
            Some(named.sources.way_id(named.edge_number(*command)))
        }
        Obstacle::Conflict(conflict) => Some(conflict_id(named, conflict)),
    }
}

// The path that an obstacle is about; empty where it is about a command alone.
fn obstacle_path<'a>(named: &Named<'a>, obstacle: &Obstacle) -> &'a [u8] {
    match obstacle {
        Obstacle::Conflict(conflict) => named.path(conflict.entry).0,
        _ => b"",
    }
}

impl Leaving {
    /// What the texts of a choice leave out. Where a baseline is to be written, which then knows all that is found,
    /// only what is ignored is left out.
    ///
    /// # Errors
    /// [`RecordingFault::Observed`] with the first fault of a text; [`RecordingFault::Memory`] only where an allocation
    /// was refused.
    pub fn new(alloc: Global, choice: Choice<'_>) -> Result<Leaving, RecordingFault> {
        let baseline = match choice.baseline {
            Some(text) => Some(baseline_of(alloc, text, choice.writes)?),
            None => None,
        };
        Ok(Leaving {
            filters: filters_in(alloc, choice.filters)?,
            has_filters: choice.has_filters(),
            baseline,
            hidden: 0,
            known: 0,
            ignored: 0,
        })
    }

    // Whether there is a baseline. A stable name costs a digest, so without a baseline no finding is named here.
    fn has_baseline(&self) -> bool {
        self.baseline.is_some()
    }

    // Whether races by lists can be left out: there is a baseline, or a text of filters.
    fn can_leave_races(&self) -> bool {
        self.has_filters || self.has_baseline()
    }

    // Whether the baseline knows a finding.
    fn knows(&self, id: Id) -> bool {
        match &self.baseline {
            Some(baseline) => baseline.knows(id),
            None => false,
        }
    }

    // Whether the baseline ignores findings about a path.
    fn ignores(&self, alloc: Global, path: &[u8]) -> Result<bool, AllocError> {
        match &self.baseline {
            Some(baseline) => baseline.ignores(alloc, path),
            None => Ok(false),
        }
    }

    // Whether a finding about a path is left out; counts it then.
    fn leaves(&mut self, alloc: Global, id: Id, path: &[u8]) -> Result<bool, AllocError> {
        if self.knows(id) {
            self.known = u64::saturating_add(self.known, 1);
            return Ok(true);
        }
        if self.ignores(alloc, path)? {
            self.ignored = u64::saturating_add(self.ignored, 1);
            return Ok(true);
        }
        Ok(false)
    }

    /// The findings by an observation that are left.
    ///
    /// # Errors
    /// [`AllocError`] only where an allocation was refused.
    pub fn findings<'a>(
        &mut self,
        alloc: Global,
        sources: &Sources<'a>,
        findings: Vec<Finding<'a>>,
    ) -> Result<Vec<Finding<'a>>, AllocError> {
        if !self.has_baseline() {
            return Ok(findings);
        }
        let mut told = Vec::new(alloc);
        for finding in &findings {
            if !self.leaves(alloc, finding.id(sources), finding.path.as_bytes())? {
                told.push(*finding)?;
            }
        }
        Ok(told)
    }

    // The races of which no filter hides the path, and those that the error of a failed command names. Counts the paths
    // that are hidden.
    fn unhidden<'a>(
        &mut self,
        alloc: Global,
        races: &[RaceFinding<'a>],
    ) -> Result<Vec<RaceFinding<'a>>, AllocError> {
        let mut told = Vec::new(alloc);
        let mut paths = IndexSet::new(alloc);
        add_unhidden(alloc, &self.filters, races, &mut told, &mut paths)?;
        self.hidden = u64::saturating_add(self.hidden, paths.len() as u64);
        Ok(told)
    }

    // Whether a race that no filter hides is left. Counts it where it is not.
    fn is_told(
        &mut self,
        alloc: Global,
        sources: &Sources<'_>,
        race: &RaceFinding<'_>,
    ) -> Result<bool, AllocError> {
        if is_named(race) || !self.has_baseline() {
            return Ok(true);
        }
        let is_left = self.leaves(alloc, sources.race_id(race), race.path.as_bytes())?;
        Ok(!is_left)
    }

    // Of races that no filter hides those that are left.
    fn told<'a>(
        &mut self,
        alloc: Global,
        sources: &Sources<'a>,
        races: &[RaceFinding<'a>],
    ) -> Result<Vec<RaceFinding<'a>>, AllocError> {
        let mut told = Vec::new(alloc);
        for race in races {
            if self.is_told(alloc, sources, race)? {
                told.push(*race)?;
            }
        }
        Ok(told)
    }

    /// The races that are left. A race that the error of a failed command names is never left out.
    ///
    /// # Errors
    /// [`AllocError`] only where an allocation was refused.
    pub fn races<'a>(
        &mut self,
        alloc: Global,
        sources: &Sources<'a>,
        races: Vec<RaceFinding<'a>>,
    ) -> Result<Vec<RaceFinding<'a>>, AllocError> {
        if !self.can_leave_races() {
            return Ok(races);
        }
        let unhidden = self.unhidden(alloc, &races)?;
        self.told(alloc, sources, &unhidden)
    }

    /// The clashes of side files that are left.
    ///
    /// # Errors
    /// [`AllocError`] only where an allocation was refused.
    pub fn clashes(
        &mut self,
        alloc: Global,
        sources: &Sources<'_>,
        clashes: &[Clash],
    ) -> Result<Vec<Clash>, AllocError> {
        let mut told = Vec::new(alloc);
        for clash in clashes {
            let path = match sources.clash(clash).path {
                Some(path) => path.0,
                None => b"",
            };
            let is_left = self.has_baseline() && self.leaves(alloc, sources.clash_id(clash), path)?;
            if !is_left {
                told.push(*clash)?;
            }
        }
        Ok(told)
    }

    /// What is left of findings, races and clashes.
    ///
    /// # Errors
    /// [`AllocError`] only where an allocation was refused.
    pub(crate) fn left_of<'a>(
        &mut self,
        alloc: Global,
        sources: &Sources<'a>,
        findings: &[Finding<'a>],
        races: &[RaceFinding<'a>],
        clashes: &[Clash],
    ) -> Result<Left<'a>, AllocError> {
        let findings = Vec::from_slice(alloc, findings)?;
        let findings = self.findings(alloc, sources, findings)?;
        let races = Vec::from_slice(alloc, races)?;
        let races = self.races(alloc, sources, races)?;
        let clashes = self.clashes(alloc, sources, clashes)?;
        Ok(Left {
            findings,
            races,
            clashes,
        })
    }

    // Whether what stands in the way of a certificate is left out; counts it then.
    fn leaves_obstacle(
        &mut self,
        alloc: Global,
        named: &Named<'_>,
        obstacle: &Obstacle,
    ) -> Result<bool, AllocError> {
        match obstacle_id(named, obstacle) {
            Some(id) => self.leaves(alloc, id, obstacle_path(named, obstacle)),
            None => Ok(false),
        }
    }

    /// What stands in the way of a certificate and is left.
    ///
    /// # Errors
    /// [`AllocError`] only where an allocation was refused.
    pub fn obstacles(
        &mut self,
        alloc: Global,
        named: &Named<'_>,
        obstacles: Vec<Obstacle>,
    ) -> Result<Vec<Obstacle>, AllocError> {
        if !self.has_baseline() {
            return Ok(obstacles);
        }
        let mut told = Vec::new(alloc);
        for obstacle in &obstacles {
            if !self.leaves_obstacle(alloc, named, obstacle)? {
                told.push(*obstacle)?;
            }
        }
        Ok(told)
    }

    /// How much was left out, beside so many places that filters hide by an observation.
    pub fn left_out(&self, hidden: u64) -> LeftOut {
        LeftOut {
            hidden: u64::saturating_add(self.hidden, hidden),
            known: self.known,
            ignored: self.ignored,
        }
    }
}
