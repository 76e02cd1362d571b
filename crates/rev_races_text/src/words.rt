//! The answer about a recording, in words.
use crate::counts::{Counted, NotJudged, Tally};
use crate::edges::{Edge, Sources};
use crate::failed::{FailedLine, Failure, Numbered, PrintedLine};
use crate::names::{Shown, Text};
use crate::race::{EvidenceLine, MakerLine, MendLine, More, NO_MEND, RaceFinding, UserLine};
use crate::report::Report;
use rev_races::Kind;
use rev_suspects::Progress;
use std::alloc::{AllocError, Global};

// How many users of a maker, clashes, failed commands or suspects are told, unless all are.
const FEW: usize = 3;
// How many lines of what a command printed are told, unless all are.
const LINES: usize = 10;

// How many are told.
fn most_of(all: bool, few: usize) -> usize {
    if all { usize::MAX } else { few }
}

// Adds how many are left out of so many.
fn push_more(
    text: &mut String,
    before: &'static str,
    count: usize,
    most: usize,
    after: &'static str,
) -> Result<(), AllocError> {
    let more = count.saturating_sub(most) as u64;
    write!(
        text,
        "{}",
        More {
            before,
            more,
            after
        }
    )
}

// Adds the lines of one user behind a maker's, whose path is `told`: it is in these races, numbered from `number`.
fn push_user<'a>(
    text: &mut String,
    sources: &Sources<'a>,
    told: Shown<'a>,
    races: &[RaceFinding<'a>],
    number: u64,
) -> Result<(), AllocError> {
    let Some(first) = races.first() else {
        return Ok(());
    };
    let user = sources.user(first);
    let path = Shown(first.path.as_bytes());
    let line = UserLine {
        kind: first.kind,
        told,
        path: sources.made(first.maker, first.path),
        more: (races.len() as u64).saturating_sub(1),
        user,
        number,
    };
    write!(text, "{line}")?;
    let evidence = first.evidence;
    write!(text, "{}", EvidenceLine { evidence, path })?;
    match (first.mend, first.kind) {
        (Some(mend), _) => {
            let output = Shown(mend.as_bytes());
            write!(text, "{}", MendLine { user, output })
        }
        (None, Kind::Race) => text.push_str(NO_MEND),
        (None, Kind::Cycle | Kind::Own) => Ok(()),
    }
}

// Adds the line of a maker.
fn push_maker<'a>(
    text: &mut String,
    sources: &Sources<'a>,
    told: &RaceFinding<'a>,
) -> Result<(), AllocError> {
    let line = MakerLine {
        kind: told.kind,
        path: sources.made(told.maker, told.path),
        maker: sources.maker(told),
    };
    write!(text, "{line}")
}

// Adds the races of one maker that are of a kind, with at most so many users. Those of the maker are numbered from
// `number`.
fn push_kind<'a>(
    text: &mut String,
    sources: &Sources<'a>,
    kind: Kind,
    races: &[RaceFinding<'a>],
    number: u64,
    most: usize,
) -> Result<(), AllocError> {
    let mut number = number;
    let mut users = 0usize;
    let mut head = None;
    for user in races.chunk_by(|one, other| one.user == other.user) {
        if let Some(first) = user.first() {
            if first.kind == kind {
                if head.is_none() {
                    push_maker(text, sources, first)?;
                    head = Some(Shown(first.path.as_bytes()));
                }
                if let Some(told) = head {
                    if users < most {
                        push_user(text, sources, told, user, number)?;
                    }
                }
                users = usize::saturating_add(users, 1);
            }
        }
        number = u64::saturating_add(number, user.len() as u64);
    }
    push_more(text, "  and by ", users, most, " more (--all tells them)\n")
}

/// The lines about one race, which has a number.
///
/// # Errors
/// [`AllocError`] only where an allocation was refused.
pub fn race_words<'a>(
    alloc: Global,
    sources: &Sources<'a>,
    told: &RaceFinding<'a>,
    number: u64,
) -> Result<String, AllocError> {
    let mut text = String::new(alloc);
    push_maker(&mut text, sources, told)?;
    let path = Shown(told.path.as_bytes());
    push_user(&mut text, sources, path, &[*told], number)?;
    Ok(text)
}

// Adds the races, which are numbered from `first`, of each maker in a group for each kind.
fn push_races<'a>(
    text: &mut String,
    sources: &Sources<'a>,
    races: &[RaceFinding<'a>],
    first: u64,
    most: usize,
) -> Result<(), AllocError> {
    let mut number = first;
    for maker in races.chunk_by(|one, other| one.maker == other.maker) {
        for kind in [Kind::Race, Kind::Cycle, Kind::Own] {
            push_kind(text, sources, kind, maker, number, most)?;
        }
        number = u64::saturating_add(number, maker.len() as u64);
    }
    Ok(())
}

// Adds what a command printed, with at most so many lines.
fn push_printed<'a>(
    alloc: Global,
    text: &mut String,
    failure: &Failure<'a>,
    most: usize,
) -> Result<(), AllocError> {
    let lines = failure.lines(alloc)?;
    for (place, line) in lines.iter().enumerate() {
        if place < most {
            write!(text, "{}", PrintedLine(*line))?;
        }
    }
    push_more(
        text,
        "  and ",
        lines.len(),
        most,
        " more of its lines (--all tells them)\n",
    )
}

// What stands behind how many suspects are not told.
fn left_words(most: usize, untold: u64) -> &'static str {
    if most == usize::MAX {
        return " more";
    }
    if untold == 0 {
        return " more (--all tells them)";
    }
    " more (--all tells more)"
}

// Adds how many suspects are not told behind those that are told, if some are.
fn push_left(
    text: &mut String,
    progress: Progress,
    told: usize,
    left: u64,
    after: &'static str,
) -> Result<(), AllocError> {
    if told == 0 && left == 0 {
        return Ok(());
    }
    if told == 0 {
        let commands = Counted {
            count: left,
            one: "command",
            many: "commands",
        };
        let head = progress_head(progress);
        return write!(text, "{head}{commands}\n");
    }
    let more = More {
        before: " and ",
        more: left,
        after,
    };
    write!(text, "{more}\n")
}

// Adds the suspects of a failed command that no error names and that were so far, numbered from `number`.
fn push_suspects<'a>(
    text: &mut String,
    sources: &Sources<'a>,
    failure: &Failure<'a>,
    progress: Progress,
    number: u64,
    most: usize,
) -> Result<(), AllocError> {
    let mut number = number;
    let mut told = 0usize;
    let untold = failure.untold_of(progress);
    let mut left = untold;
    for suspect in &failure.others {
        if suspect.progress == progress {
            if told < most {
                let maker = sources.edge(suspect.maker);
                let before = if told == 0 {
                    progress_head(progress)
                } else {
                    ", "
                };
                let numbered = Numbered { maker, number };
                write!(text, "{before}{numbered}")?;
                told = usize::saturating_add(told, 1);
            } else {
                left = u64::saturating_add(left, 1);
            }
        }
        number = u64::saturating_add(number, 1);
    }
    push_left(text, progress, told, left, left_words(most, untold))
}

// What stands before suspects that were so far.
fn progress_head(progress: Progress) -> &'static str {
    match progress {
        Progress::Running => "also running, and not waited for: ",
        Progress::Failed => "also failed before, and not waited for: ",
        Progress::ToRun => "also still to run, and not waited for: ",
    }
}

// Adds a command that failed, with what its error names and its other suspects. Each of the two is numbered from a
// number.
fn push_failure<'a>(
    alloc: Global,
    text: &mut String,
    sources: &Sources<'a>,
    failure: &Failure<'a>,
    named: &[RaceFinding<'a>],
    numbers: (u64, u64),
    all: bool,
) -> Result<(), AllocError> {
    let line = FailedLine {
        edge: sources.edge(failure.edge),
        number: failure.number,
        command: Text(failure.command),
    };
    write!(text, "{line}")?;
    push_printed(alloc, text, failure, most_of(all, LINES))?;
    let (mut number, other) = numbers;
    for told in named {
        let path = Shown(told.path.as_bytes());
        push_maker(text, sources, told)?;
        push_user(text, sources, path, &[*told], number)?;
        number = u64::saturating_add(number, 1);
    }
    if failure.untold.is_none() {
        return write!(
            text,
            "its suspects are not looked for, since so many commands failed\n"
        );
    }
    let few = most_of(all, FEW);
    push_suspects(text, sources, failure, Progress::Running, other, few)?;
    push_suspects(text, sources, failure, Progress::ToRun, other, few)?;
    push_suspects(text, sources, failure, Progress::Failed, other, few)
}

// The edges of some numbers.
fn edges_of<'a>(
    alloc: Global,
    sources: &Sources<'a>,
    numbers: &[u32],
) -> Result<Vec<Edge<'a>>, AllocError> {
    let mut edges = Vec::new(alloc);
    for number in numbers {
        edges.push(sources.edge(*number))?;
    }
    Ok(edges)
}

// Adds the line that counts.
fn push_counts<'a>(
    alloc: Global,
    text: &mut String,
    sources: &Sources<'a>,
    report: &Report<'a>,
    all: bool,
) -> Result<(), AllocError> {
    let plain = edges_of(alloc, sources, &report.unjudged)?;
    let collectors = edges_of(alloc, sources, &report.collectors)?;
    let tally = report.tally();
    let unjudged = NotJudged {
        all,
        plain: &plain,
        collectors: &collectors,
    };
    write!(text, "{tally}{unjudged}\n")
}

// Adds what failed.
fn push_failures<'a>(
    alloc: Global,
    text: &mut String,
    sources: &Sources<'a>,
    report: &Report<'a>,
    all: bool,
) -> Result<(), AllocError> {
    let few = most_of(all, FEW);
    let (listed, named) = report.parts();
    let mut named = named;
    let mut numbers = (
        u64::saturating_add(listed.len() as u64, report.first_race()),
        report.first_other(),
    );
    for (place, failure) in report.failures.iter().enumerate() {
        let count = failure.named.min(named.len());
        let (of, rest) = named.split_at(count);
        if place < few {
            push_failure(alloc, text, sources, failure, of, numbers, all)?;
        }
        named = rest;
        let (number, other) = numbers;
        numbers = (
            u64::saturating_add(number, count as u64),
            u64::saturating_add(other, failure.others.len() as u64),
        );
    }
    push_more(
        text,
        "and ",
        report.failures.len(),
        few,
        " more failed (--all tells them)\n",
    )
}

// Adds the clashes.
fn push_clashes<'a>(
    text: &mut String,
    sources: &Sources<'a>,
    report: &Report<'a>,
    most: usize,
) -> Result<(), AllocError> {
    for (place, clash) in report.clashes.iter().enumerate() {
        if place < most {
            write!(text, "{}", sources.clash(clash))?;
        }
    }
    push_more(
        text,
        "and ",
        report.clashes.len(),
        most,
        " more (--all tells them)\n",
    )
}

// Adds the places that filters hide.
fn push_hidden(text: &mut String, report: &Report<'_>, most: usize) -> Result<(), AllocError> {
    for (place, hidden) in report.hidden.iter().enumerate() {
        if place < most {
            write!(text, "{hidden}")?;
        }
    }
    push_more(
        text,
        "  and ",
        report.hidden.len(),
        most,
        " more (--all tells them)\n",
    )
}

impl<'a> Report<'a> {
    /// The line that counts, and how much is left out.
    ///
    /// # Errors
    /// [`AllocError`] only where an allocation was refused.
    pub fn summary(&self, alloc: Global, sources: &Sources<'a>) -> Result<String, AllocError> {
        let mut text = String::new(alloc);
        write!(text, "{}", self.replayed)?;
        push_counts(alloc, &mut text, sources, self, false)?;
        write!(text, "{}", self.left_out)?;
        Ok(text)
    }

    /// The report in words. First come how much of the recording counts, and what failed. Then come the lines of what
    /// an observation shows (`observed`), and the races of each maker. The line that counts follows, with the commands
    /// that were not judged. Clashes, hints, and how much is left out come last, with the places that filters hide. Of
    /// many users, clashes, failed commands, suspects or hidden places the words have the first, or all (`all`).
    ///
    /// # Errors
    /// [`AllocError`] only where an allocation was refused.
    pub fn words(
        &self,
        alloc: Global,
        sources: &Sources<'a>,
        observed: &str,
        all: bool,
    ) -> Result<Vec<u8>, AllocError> {
        let mut text = String::new(alloc);
        let few = most_of(all, FEW);
        write!(text, "{}", self.replayed)?;
        push_failures(alloc, &mut text, sources, self, all)?;
        text.push_str(observed)?;
        let (listed, _named) = self.parts();
        push_races(&mut text, sources, listed, self.first_race(), few)?;
        push_counts(alloc, &mut text, sources, self, all)?;
        push_clashes(&mut text, sources, self, few)?;
        for hint in &self.hints {
            write!(text, "{hint}")?;
        }
        for change in &self.changes {
            write!(text, "{change}")?;
        }
        write!(text, "{}", self.left_out)?;
        push_hidden(&mut text, self, few)?;
        Ok(text.into_bytes())
    }
}
