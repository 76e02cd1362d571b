//! A certificate in words, as JSON and as items.
ghost use Rattle.std.specs.Prelude.{◌≡◌, IfOk, false, is_some, string_bytes, true};
ghost use Rattle.rev_certainty.specs.Sayings.{SaysFirst, object_says_certain, says_certain};
ghost use Rattle.rev_verdicts.specs.Asked.{Says};

use crate::counting::{Counts, counts_words};
use crate::forms::{Form, items_text, push_clashes, push_findings, push_races};
use crate::leaving::obstacle_id;
use crate::objects::{CertificateObject, TrustedObject};
use rev_certainty::{Certainty, Trusted, certificate_line, first_lines, is_named, is_refused};
use rev_certificate::{Assumption, Obstacle};
use rev_certificate_words::{
    Named, WayObject, assumption_kind, assumption_object, assumption_words, conflict_kind,
    flag_words, obstacle_kind, obstacle_object, obstacle_words,
};
use rev_conflicts_text::{Finding, Stale, findings_json, findings_words};
use rev_formats::Item;
use rev_races_text::{
    Clash, Counted, Id, Kind, LeftOut, RaceFinding, Replayed, Shown, Sources, Text, push_object,
    race_words,
};
use rev_trusted::{Line, word_of};
use std::alloc::{AllocError, Global};

// How many of a kind the words have, unless they have all.
const FEW: usize = 3;

/// The exit status where it is not certain.
pub(crate) const NOT_CERTAIN: u8 = 4;

/// What a certificate says.
#[derive(Clone, Copy)]
pub(crate) struct Verdict<'a> {
    /// That nothing stands in the way; none where something does.
    pub(crate) certainty: Option<Certainty>,
    /// By what obstacles and assumptions are named.
    pub(crate) named: Named<'a>,
    /// What stands in the way beside findings and races.
    pub(crate) obstacles: &'a [Obstacle],
    /// What is assumed.
    pub(crate) assumptions: &'a [Assumption],
    /// The flags that the user trusts.
    pub(crate) trusted: &'a [Trusted],
    /// The lines of the file that trusts them.
    pub(crate) lines: &'a [Line],
    /// What `races` finds by the observation, and what stands in the way by it.
    pub(crate) findings: &'a [Finding<'a>],
    /// The races by lists and by errors.
    pub(crate) races: &'a [RaceFinding<'a>],
    /// The clashes of depfiles and response files.
    pub(crate) clashes: &'a [Clash],
    /// How much of the recording counts.
    pub(crate) replayed: Replayed,
    /// How many commands ran.
    pub(crate) commands: u64,
    /// How many of them were observed whole.
    pub(crate) whole: u64,
    /// How much is left out.
    pub(crate) left_out: LeftOut,
    /// How many findings make a next build other than a build from nothing.
    pub(crate) stale: Stale,
    /// Whether each assumption but two stands in the way.
    pub(crate) is_strict: bool,
    /// Whether nothing is left out of the words.
    pub(crate) is_all: bool,
}

// Adds how many of a kind the words do not have.
fn push_more(text: &mut String, before: &'static str, count: usize) -> Result<(), AllocError> {
    let more = count.saturating_sub(FEW);
    if more == 0 {
        return Ok(());
    }
    write!(
        text,
        "{before}{more} more of that kind (--all prints them)\n"
    )
}

// The kinds of what stands in the way beside conflicts, in the order in which the words have them.
const WAYS: [&str; 7] = [
    "incomplete",
    "failed",
    "manifest",
    "not observed",
    "not whole",
    "did not run",
    "up to date",
];

// The kinds of what is assumed, in the order in which the words have them.
const ASSUMED: [&str; 9] = [
    "targets",
    "sees the same",
    "folder",
    "stamp",
    "order of a listing",
    "cache",
    "filter",
    "device",
    "names of one file",
];

// Whether an obstacle is that of a command that was up to date or did not run.
fn is_of_none(named: &Named<'_>, obstacle: &Obstacle) -> bool {
    match obstacle {
        Obstacle::NotEnded { edge } => !named.has_begun(*edge),
        _ => false,
    }
}

// The word of a race by a list or by the error of a failed command, where it stands in the way.
fn race_word(race: &RaceFinding<'_>) -> &'static str {
    if is_named(race) {
        return "named race";
    }
    match race.kind {
        Kind::Race => "listed race",
        Kind::Cycle => "listed cycle",
        Kind::Own => "listed own output",
    }
}

impl<'a> Verdict<'a> {
    // How many assumptions a strict certificate refuses.
    fn refused(&self) -> u64 {
        if !self.is_strict {
            return 0;
        }
        let refused = self
            .assumptions
            .iter()
            .filter(|one| is_refused(one))
            .count() as u64;
        refused.saturating_add(self.trusted.len() as u64)
    }

    // Whether nothing stands in the way but commands that did not run.
    fn is_certain_of_what_ran(&self) -> bool {
        self.replayed.is_whole()
            && self.commands > 0
            && self.findings.is_empty()
            && self.races.is_empty()
            && self.clashes.is_empty()
            && self.refused() == 0
            && self
                .obstacles
                .iter()
                .all(|one| is_of_none(&self.named, one))
    }

    // Whether nothing stands in the way that is printed.
    fn is_certain_beside(&self) -> bool {
        self.is_certain_of_what_ran() && self.obstacles.is_empty()
    }

    /// Whether it is certain.
    fn is_certain(&self) -> bool
        ensures { result ≡ is_some self.now.certainty }
    {
        self.certainty.is_some()
    }

    /// The exit status: 0 where it is certain, and where a baseline knows or ignores all that stands in the way.
    pub(crate) fn status(&self, has_baseline: bool) -> u8
        ensures certain { is_some self.now.certainty ≡ true → result ≡ 0 }
        ensures otherwise { is_some self.now.certainty ≡ false → has_baseline ≡ false → result ≡ 4 }
    {
        if self.is_certain() {
            return 0;
        }
        if has_baseline && self.is_certain_beside() {
            return 0;
        }
        NOT_CERTAIN
    }

    // How many of the races an error names.
    fn named_races(&self) -> u64 {
        self.races.iter().filter(|race| is_named(race)).count() as u64
    }

    // How many of what stands in the way there are.
    fn counts(&self) -> Counts {
        let mut counts = Counts {
            conflicts: self
                .left_out
                .findings()
                .saturating_add(self.findings.len() as u64),
            listed: (self.races.len() as u64).saturating_sub(self.named_races()),
            named: self.named_races(),
            side_files: self.clashes.len() as u64,
            incomplete: 0,
            unsure: 0,
            absent: 0,
            refused: self.refused(),
        };
        let mut last = None;
        for obstacle in self.obstacles {
            last = counts.add(&self.named, obstacle, last);
        }
        counts
    }

    // What is certain. Where it is not, how much of the recording counts, and how much stands in the way.
    fn head(&self, alloc: Global) -> Result<String, AllocError>
        ensures { IfOk result (λ text. SaysFirst says_certain (string_bytes text) (is_some self.now.certainty)) }
    {
        let why = counts_words(alloc, &self.counts())?;
        let text = first_lines(alloc, self.certainty, &why, self.replayed)?;
        Ok(text)
    }

    // Adds the conflicts that no finding names.
    fn push_conflicts(&self, alloc: Global, text: &mut String) -> Result<(), AllocError> {
        for obstacle in self.obstacles {
            if matches!(obstacle, Obstacle::Conflict(_)) {
                text.push_str(&obstacle_words(alloc, &self.named, obstacle)?)?;
            }
        }
        Ok(())
    }

    // Adds what stands in the way of one kind.
    fn push_way(
        &self,
        alloc: Global,
        text: &mut String,
        kind: &'static str,
    ) -> Result<(), AllocError> {
        let mut count = 0usize;
        for obstacle in self.obstacles {
            if obstacle_kind(&self.named, obstacle) == kind {
                if self.is_all || count < FEW {
                    text.push_str("in the way: ")?;
                    text.push_str(&obstacle_words(alloc, &self.named, obstacle)?)?;
                }
                count = usize::saturating_add(count, 1);
            }
        }
        if self.is_all {
            return Ok(());
        }
        push_more(text, "in the way: ", count)
    }

    // Adds races by lists, which are numbered behind the findings.
    fn push_listed(&self, alloc: Global, text: &mut String) -> Result<(), AllocError> {
        let mut number = (self.findings.len() as u64).saturating_add(1);
        for race in self.races {
            text.push_str(&race_words(alloc, &self.named.sources, race, number)?)?;
            number = u64::saturating_add(number, 1);
        }
        Ok(())
    }

    // Adds the clashes of depfiles and response files.
    fn push_side_files(&self, text: &mut String) -> Result<(), AllocError> {
        for clash in self.clashes {
            let line = self.named.sources.clash(clash);
            write!(text, "{line}")?;
        }
        Ok(())
    }

    // Adds the assumptions of one kind behind some words.
    fn push_assumed(
        &self,
        alloc: Global,
        text: &mut String,
        kind: &'static str,
        before: &'static str,
    ) -> Result<(), AllocError> {
        let mut count = 0usize;
        for assumption in self.assumptions {
            if assumption_kind(assumption) == kind {
                if self.is_all || count < FEW {
                    let words = assumption_words(alloc, &self.named, assumption)?;
                    write!(text, "{before}{words}\n")?;
                }
                count = usize::saturating_add(count, 1);
            }
        }
        if self.is_all {
            return Ok(());
        }
        push_more(text, before, count)
    }

    // Adds a flag that a line trusts, behind some words.
    fn push_trusted(
        &self,
        alloc: Global,
        text: &mut String,
        line: &Line,
        trusted: &Trusted,
        before: &'static str,
    ) -> Result<(), AllocError> {
        let user = self.named.actor(trusted.command);
        let (number, reason) = (line.number(), Text(line.reason()));
        write!(text, "{before}{user} counts as observed whole: ")?;
        if let Some(flag) = self.named.flag(trusted.command, trusted.flag) {
            let why = flag_words(alloc, flag)?;
            text.push_str(&why)?;
        }
        write!(text, " (--trust, line {number}: {reason})\n")
    }

    // Adds the flags that lines trust, with at most so many of a line, and counts those of each line.
    fn push_flags(
        &self,
        alloc: Global,
        text: &mut String,
        counts: &mut [usize],
        before: &'static str,
    ) -> Result<(), AllocError> {
        for trusted in self.trusted {
            if let (Some(line), Some(count)) = (
                self.lines.get(trusted.line),
                counts.get_mut(trusted.line),
            ) {
                if self.is_all || *count < FEW {
                    self.push_trusted(alloc, text, line, trusted, before)?;
                }
                *count = usize::saturating_add(*count, 1);
            }
        }
        Ok(())
    }

    // Adds what the user trusts, and which lines trust nothing.
    fn push_trust(&self, alloc: Global, text: &mut String) -> Result<(), AllocError> {
        let before = if self.is_strict {
            "in the way: --strict refuses: "
        } else {
            "  assumed: "
        };
        let mut counts = vec![in alloc; 0usize; self.lines.len()]?;
        self.push_flags(alloc, text, &mut counts, before)?;
        for (line, count) in self.lines.iter().zip(counts.iter()) {
            let number = line.number();
            if *count == 0 {
                write!(text, "  --trust: line {number} trusts nothing here\n")?;
            } else if !self.is_all {
                push_more(text, before, *count)?;
            }
        }
        Ok(())
    }

    // Adds what is assumed.
    fn push_assumptions(&self, alloc: Global, text: &mut String) -> Result<(), AllocError> {
        for kind in ASSUMED {
            self.push_assumed(alloc, text, kind, "  assumed: ")?;
        }
        Ok(())
    }

    // Adds the assumptions that a strict certificate refuses.
    fn push_refused(&self, alloc: Global, text: &mut String) -> Result<(), AllocError> {
        if self.refused() == 0 {
            return Ok(());
        }
        for (place, kind) in ASSUMED.iter().enumerate() {
            if place > 1 {
                self.push_assumed(alloc, text, *kind, "in the way: --strict refuses: ")?;
            }
        }
        Ok(())
    }

    // Adds what stands in the way.
    fn push_ways(&self, alloc: Global, text: &mut String) -> Result<(), AllocError> {
        let sources = &self.named.sources;
        let findings = findings_words(alloc, sources, self.findings, true)?;
        text.push_str(&findings)?;
        self.push_conflicts(alloc, text)?;
        self.push_listed(alloc, text)?;
        self.push_side_files(text)?;
        for kind in WAYS {
            self.push_way(alloc, text, kind)?;
        }
        self.push_refused(alloc, text)
    }

    // Adds what is certain of the commands that ran, where the others were up to date or did not run.
    fn push_of_what_ran(&self, alloc: Global, text: &mut String) -> Result<(), AllocError> {
        if !self.is_certain_of_what_ran() || self.left_out.is_by_baseline() {
            return Ok(());
        }
        let commands = Counted {
            count: self.commands,
            one: "command",
            many: "commands",
        };
        write!(
            text,
            "certain of what ran: no order of the {commands} gives any of them other inputs, where the others left what they left here\n"
        )?;
        self.push_assumptions(alloc, text)
    }

    // What is said behind the first lines: what is assumed, or what stands in the way.
    fn rest(&self, alloc: Global) -> Result<String, AllocError> {
        let mut text = String::new(alloc);
        if self.is_certain() {
            self.push_assumptions(alloc, &mut text)?;
            self.push_trust(alloc, &mut text)?;
            write!(text, "{}", self.stale)?;
            return Ok(text);
        }
        self.push_ways(alloc, &mut text)?;
        self.push_of_what_ran(alloc, &mut text)?;
        self.push_trust(alloc, &mut text)?;
        write!(text, "{}", self.left_out)?;
        Ok(text)
    }

    /// The answer in words: what is certain, or what stands in the way.
    ///
    /// # Errors
    /// [`AllocError`] only where an allocation was refused.
    pub(crate) fn words(&self, alloc: Global) -> Result<Vec<u8>, AllocError>
        ensures { IfOk result (λ text. says_certain text.items ≡ is_some self.now.certainty) }
    {
        let mut text = self.head(alloc)?;
        let rest = self.rest(alloc)?;
        text.push_str(&rest)?;
        Ok(text.into_bytes())
    }

    /// What is certain, or how much stands in the way, and how much is left out.
    ///
    /// # Errors
    /// [`AllocError`] only where an allocation was refused.
    pub(crate) fn summary(&self, alloc: Global) -> Result<String, AllocError> {
        let mut text = self.head(alloc)?;
        if self.is_certain() {
            write!(text, "{}", self.stale)?;
        } else {
            write!(text, "{}", self.left_out)?;
        }
        Ok(text)
    }

    // The first object, behind whether it is certain.
    fn object(&self) -> CertificateObject {
        CertificateObject {
            certain_of_what_ran: self.is_certain_of_what_ran() && !self.left_out.is_by_baseline(),
            version: 2,
            strict: self.is_strict,
            commands: self.commands,
            whole: self.whole,
            assumptions: self.assumptions.len() as u64,
            trusted: self.trusted.len() as u64,
            side_files: self.clashes.len() as u64,
            undeclared: self.stale.undeclared,
            unlisted: self.stale.unlisted,
            hidden: self.left_out.hidden,
            known: self.left_out.known,
            ignored: self.left_out.ignored,
        }
    }

    // Adds the objects of what stands in the way.
    fn push_way_objects(&self, alloc: Global, text: &mut Vec<u8>) -> Result<(), AllocError> {
        let sources = &self.named.sources;
        for race in self.races {
            let object = WayObject {
                user: Some(sources.edge(race.user)),
                maker: Some(sources.edge(race.maker)),
                path: Some(Shown(race.path.as_bytes())),
                ..WayObject::of(race_word(race))
            };
            push_object(alloc, text, "in the way", &object)?;
        }
        for obstacle in self.obstacles {
            let object = obstacle_object(&self.named, obstacle);
            push_object(alloc, text, "in the way", &object)?;
        }
        Ok(())
    }

    // Adds the objects of flags that lines trust.
    fn push_trusted_objects(&self, alloc: Global, text: &mut Vec<u8>) -> Result<(), AllocError> {
        for trusted in self.trusted {
            let obstacle = Obstacle::Flagged {
                command: trusted.command,
                flag: trusted.flag,
            };
            let Some(line) = self.lines.get(trusted.line) else {
                return Ok(());
            };
            let of = obstacle_object(&self.named, &obstacle);
            let object = TrustedObject {
                line: line.number(),
                reason: Text(line.reason()),
                user: of.user,
                flag: of.flag,
                call: of.call,
                program: of.program,
                text: of.text,
            };
            push_object(alloc, text, "trusted", &object)?;
        }
        Ok(())
    }

    // The objects behind the first one.
    fn objects(&self, alloc: Global) -> Result<Vec<u8>, AllocError> {
        let mut text = Vec::new(alloc);
        if !self.replayed.is_whole() {
            push_object(alloc, &mut text, "replayed", &self.replayed)?;
        }
        let findings = findings_json(alloc, &self.named.sources, self.findings)?;
        text.extend_from_slice(&findings)?;
        self.push_way_objects(alloc, &mut text)?;
        for assumption in self.assumptions {
            let object = assumption_object(alloc, &self.named, assumption)?;
            push_object(alloc, &mut text, "assumed", &object)?;
        }
        self.push_trusted_objects(alloc, &mut text)?;
        Ok(text)
    }

    /// The answer as JSON, an object a line (docs/JSON.md). The first object says whether it is certain.
    ///
    /// # Errors
    /// [`AllocError`] only where an allocation was refused.
    pub(crate) fn json(&self, alloc: Global) -> Result<Vec<u8>, AllocError>
        ensures { IfOk result (λ text. object_says_certain text.items ≡ is_some self.now.certainty) }
    {
        let members = self.object().members(alloc)?;
        let mut text = certificate_line(alloc, self.certainty, &members)?;
        let rest = self.objects(alloc)?;
        text.extend_from_slice(&rest)?;
        Ok(text)
    }

    /// The answer in a form. A form of items has these.
    ///
    /// # Errors
    /// [`AllocError`] only where an allocation was refused.
    pub(crate) fn text(
        &self,
        alloc: Global,
        form: Form,
        items: &[Item<'_>],
    ) -> Result<Vec<u8>, AllocError>
        ensures { IfOk result (λ text. Says form text.items (is_some self.now.certainty)) }
    {
        match form {
            Form::Words => {
                let text = self.words(alloc)?;
                Ok(text)
            }
            Form::AllWords => {
                let text = self.words(alloc)?;
                Ok(text)
            }
            Form::Json => {
                let text = self.json(alloc)?;
                Ok(text)
            }
            Form::Items(form) => {
                let text = items_text(alloc, form, items, &self.summary(alloc)?)?;
                Ok(text)
            }
        }
    }

    // What stands in the way, as an item.
    fn item_of(&self, alloc: Global, obstacle: &Obstacle) -> Result<Item<'a>, AllocError> {
        let sources = &self.named.sources;
        let of = obstacle_object(&self.named, obstacle);
        let (kind, maker) = match obstacle {
            Obstacle::Conflict(conflict) => {
                let maker = sources.output(self.named.edge_number(conflict.made_by));
                (conflict_kind(conflict.kind), maker)
            }
            _ => ("in the way", b"".as_slice()),
        };
        let user = of.user;
        Ok(Item {
            id: item_id(&self.named, obstacle),
            kind,
            is_error: true,
            path: of.path.map_or(b"", |path| path.0),
            maker,
            user: user
                .and_then(|edge| edge.output)
                .map_or(b"", |output| output.0),
            file: user.and_then(|edge| edge.file).map_or(b"", |file| file.0),
            line: user.and_then(|edge| edge.line).unwrap_or(1),
            text: obstacle_words(alloc, &self.named, obstacle)?,
        })
    }

    /// All that stands in the way, as items.
    ///
    /// # Errors
    /// [`AllocError`] only where an allocation was refused.
    pub(crate) fn items(&self, alloc: Global) -> Result<Vec<Item<'a>>, AllocError> {
        let mut items = Vec::new(alloc);
        let sources = &self.named.sources;
        push_findings(alloc, sources, self.findings, &mut items)?;
        let first = (self.findings.len() as u64).saturating_add(1);
        push_races(alloc, sources, self.races, first, &mut items)?;
        push_clashes(alloc, sources, self.clashes, &mut items)?;
        for obstacle in self.obstacles {
            items.push(self.item_of(alloc, obstacle)?)?;
        }
        Ok(items)
    }
}

// The stable name of an obstacle.
fn item_id(named: &Named<'_>, obstacle: &Obstacle) -> Id {
    match obstacle_id(named, obstacle) {
        Some(id) => id,
        None => Id::of(obstacle_kind(named, obstacle), b"", b"", b""),
    }
}
