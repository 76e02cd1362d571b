//! How many commands leave the files that findings are about.

use indexmap::IndexMap;
use rev_conflicts::Change;
use rev_conflicts_text::{Finding, Kind};
use rev_observed::{Kind as Use, Observation, PathRange};
use rev_paths::Name;
use std::alloc::{AllocError, Global};

// How many commands are counted: one more leaves a file that several commands leave already.
const MOST: u32 = 2;

/// How many commands leave each of some files, up to [`MOST`].
pub(crate) struct Writers<'o> {
    observation: &'o Observation,
    counts: IndexMap<u64, u32>,
}

impl Drop for Writers<'_> {
    fn drop(self) {
        let Writers {
            observation: _observation,
            counts: _counts,
        } = self;
    }
}

// Whether the maker of a finding could name its path among its outputs.
fn is_of_output(finding: &Finding<'_>) -> bool {
    finding.change == Change::Undeclared && matches!(finding.kind, Kind::Race | Kind::Undeclared)
}

// The numbers of the paths of such findings, in rising order, each once.
fn paths_of(
    alloc: Global,
    observation: &Observation,
    findings: &[Finding<'_>],
) -> Result<Vec<u64>, AllocError> {
    let mut paths = Vec::new(alloc);
    for finding in findings {
        if is_of_output(finding) {
            if let Some(number) = observation.paths().find(finding.path) {
                paths.push(number)?;
            }
        }
    }
    paths.sort_unstable();
    paths.dedup();
    Ok(paths)
}

// Some rising numbers that are counted, and for each place the next one whose number is not counted up.
struct Counting {
    paths: Vec<u64>,
    counts: Vec<u32>,
    next: Vec<usize>,
}

impl Drop for Counting {
    fn drop(self) {
        let Counting {
            paths: _paths,
            counts: _counts,
            next: _next,
        } = self;
    }
}

impl Counting {
    // Nothing is counted yet.
    fn new(alloc: Global, paths: Vec<u64>) -> Result<Counting, AllocError> {
        let counts = vec![in alloc; 0; paths.len()]?;
        let mut next = Vec::new(alloc);
        for place in 0..paths.len() {
            next.push(place)?;
        }
        Ok(Counting {
            paths,
            counts,
            next,
        })
    }

    // The first place from another one on whose number is not counted up. What is gone through is shortened.
    fn open_from(&mut self, place: usize) -> usize {
        let mut place = place;
        for _ in 0..self.next.len() {
            let Some(next) = self.next.get(place).copied() else {
                return place;
            };
            if next == place {
                return place;
            }
            let behind = self.next.get(next).copied().unwrap_or(next);
            if let Some(step) = self.next.get_mut(place) {
                *step = behind;
            }
            place = behind;
        }
        place
    }

    // Counts a place, and passes it by once it is counted up.
    fn count(&mut self, place: usize) {
        let mut is_up = false;
        if let Some(count) = self.counts.get_mut(place) {
            *count = u32::saturating_add(*count, 1);
            is_up = *count >= MOST;
        }
        if is_up {
            if let Some(step) = self.next.get_mut(place) {
                *step = usize::saturating_add(place, 1);
            }
        }
    }

    // Counts the numbers of a range.
    fn count_range(&mut self, range: &PathRange) {
        let first = u64::from(range.first);
        let last = u64::from(range.last);
        let mut place = match self.paths.binary_search(&first) {
            Ok(place) | Err(place) => place,
        };
        for _ in 0..self.paths.len() {
            place = self.open_from(place);
            let Some(path) = self.paths.get(place).copied() else {
                return;
            };
            if path > last {
                return;
            }
            self.count(place);
            place = usize::saturating_add(place, 1);
        }
    }

    // How often each number was counted.
    fn by_path(&self, alloc: Global) -> Result<IndexMap<u64, u32>, AllocError> {
        let mut counts = IndexMap::new(alloc);
        for (path, count) in self.paths.iter().zip(self.counts.iter()) {
            counts.insert(*path, *count)?;
        }
        Ok(counts)
    }
}

impl<'o> Writers<'o> {
    /// How many commands leave the files that makers of findings could name among their outputs. The time is linear in
    /// the ranges of the observation and in the findings, up to logarithms.
    ///
    /// # Errors
    /// [`AllocError`] only where an allocation was refused.
    pub(crate) fn new(
        alloc: Global,
        observation: &'o Observation,
        findings: &[Finding<'_>],
    ) -> Result<Writers<'o>, AllocError> {
        let paths = paths_of(alloc, observation, findings)?;
        let is_empty = paths.is_empty();
        let mut counting = Counting::new(alloc, paths)?;
        if !is_empty {
            for command in observation.commands() {
                for range in command.paths(Use::Writes) {
                    counting.count_range(range);
                }
            }
        }
        Ok(Writers {
            observation,
            counts: counting.by_path(alloc)?,
        })
    }

    /// Whether exactly one command leaves a file.
    pub(crate) fn is_one(&self, path: &Name) -> bool {
        match self.observation.paths().find(path) {
            Some(number) => self.counts.get(&number).copied() == Some(1),
            None => false,
        }
    }
}
