//! Lines about a build that failed, and about a recording that counts in part.
ghost use Rattle.std.specs.Prelude.{◌≡◌, Some};
ghost use Rattle.rev_races_text.specs.Failed.{failed_line, left_line, numbered, printed_line, refused_end, refused_line, refused_words, replayed_lines, running_line};
ghost use Rattle.rev_races_text.specs.Status.{is_whole};

use crate::counts::Counted;
use crate::edges::Edge;
use crate::names::{NameIf, Text};
use rev_paths::Name;
use rev_suspects::Progress;
use serde::Serialize;
use std::alloc::{AllocError, Global};
use std::fmt;

/// How much of a recording counts.
#[derive(Clone, Copy, Serialize)]
pub struct Replayed {
    /// How many commands were replayed.
    pub commands: u64,
    /// How many commands more there are, for which the journal had no room.
    pub left: u64,
    /// How many of the commands were refused.
    pub refused: u64,
    /// How many commands of the build had not ended when the recording did.
    pub running: u64,
}

/// A command that failed.
#[derive(Drop)]
pub struct Failure<'a> {
    /// The edge.
    pub edge: u32,
    /// The number of the event by which it failed.
    pub number: u32,
    /// The command.
    pub command: &'a [u8],
    /// What it printed, where the recording has that.
    pub printed: Option<Printed<'a>>,
    /// How many suspects its error names. The report has them among its races.
    pub named: usize,
    /// The first of the other suspects.
    pub others: Vec<Suspect<'a>>,
    /// How many more there are. It is None where nobody looked for suspects.
    pub untold: Option<Remainder>,
}

/// How many suspects the report counts and does not name.
#[derive(Clone, Copy)]
pub struct Remainder {
    /// Those that ran when the failed command began.
    pub running: u64,
    /// Those that had failed by then.
    pub failed: u64,
    /// Those that were still to run.
    pub to_run: u64,
}

/// What a command printed.
#[derive(Clone, Copy)]
pub struct Printed<'a> {
    /// The first bytes of it.
    pub text: &'a [u8],
    /// How many bytes more there were.
    pub left: u64,
}

/// A command that had not settled when a failed command began. Neither of the two waits for the other.
#[derive(Clone, Copy)]
pub struct Suspect<'a> {
    /// Its edge.
    pub maker: u32,
    /// How far it was.
    pub progress: Progress,
    /// Its output that is to be added to the order-only inputs of the failed command. It is None where none can be
    /// written on a build line.
    pub mend: Option<&'a Name>,
}

// The line of a command that failed.
#[derive(Clone, Copy)]
pub(crate) struct FailedLine<'a> {
    pub(crate) edge: Edge<'a>,
    pub(crate) number: u32,
    pub(crate) command: Text<'a>,
}

// One line of what it printed.
#[derive(Clone, Copy)]
pub(crate) struct PrintedLine<'a>(pub(crate) Text<'a>);

// A suspect that no error names, with its number.
#[derive(Clone, Copy)]
pub(crate) struct Numbered<'a> {
    pub(crate) maker: Edge<'a>,
    pub(crate) number: u64,
}

// Commands that the replay refused, of how many.
#[derive(Clone, Copy)]
struct Refused {
    commands: u64,
    refused: u64,
}

// How many were refused.
#[derive(Clone, Copy)]
struct RefusedEnd(u64);

// The same; nothing where none was refused.
#[derive(Clone, Copy)]
struct RefusedIf(Refused);

// Commands for which the journal had no room.
#[derive(Clone, Copy)]
struct LeftOut(u64);

// Commands that had not ended.
#[derive(Clone, Copy)]
struct StillRunning(u64);

impl Replayed {
    /// Whether the build was recorded whole: no command was refused or left out, and each one that began ended.
    pub fn is_whole(&self) -> bool
        ensures { result ≡ is_whole self.now }
    {
        self.left == 0 && self.refused == 0 && self.running == 0
    }
}

impl<'a> Failure<'a> {
    /// The lines that it printed, without an empty one at the end. There are none where the recording does not have
    /// what it printed.
    pub(crate) fn lines(&self, alloc: Global) -> Result<Vec<Text<'a>>, AllocError> {
        let mut lines = Vec::new(alloc);
        if let Some(printed) = self.printed {
            let text = printed.text.strip_suffix(b"\n").unwrap_or(printed.text);
            if !text.is_empty() {
                for line in text.split(|byte| *byte == b'\n') {
                    lines.push(Text(line))?;
                }
            }
        }
        Ok(lines)
    }

    /// How many suspects that were so far the report counts and does not name.
    pub(crate) fn untold_of(&self, progress: Progress) -> u64 {
        match (self.untold, progress) {
            (Some(untold), Progress::Running) => untold.running,
            (Some(untold), Progress::Failed) => untold.failed,
            (Some(untold), Progress::ToRun) => untold.to_run,
            (None, _) => 0,
        }
    }

    /// How many suspects it has. It is None where nobody looked for them.
    pub(crate) fn suspects(&self) -> Option<u64> {
        let untold = self.untold?;
        let told = u64::saturating_add(self.named as u64, self.others.len() as u64);
        let begun = u64::saturating_add(untold.running, untold.failed);
        let rest = u64::saturating_add(begun, untold.to_run);
        Some(u64::saturating_add(told, rest))
    }

    /// How many bytes more it printed than the recording has.
    pub(crate) fn left(&self) -> u64 {
        match self.printed {
            Some(printed) => printed.left,
            None => 0,
        }
    }
}

impl fmt::Display for FailedLine<'_> {
    ghost output = { λ l. Some (failed_line l.edge l.number l.command.0.now) };

    fn fmt<W: fmt::Write>(&self, f: &mut fmt::Formatter<W>) -> fmt::Result {
        let (edge, number, command) = (self.edge, self.number, self.command);
        write!(f, "failed {edge} at {number}: {command}\n")
    }
}

impl fmt::Display for PrintedLine<'_> {
    ghost output = { λ l. Some (printed_line l.0.0.now) };

    fn fmt<W: fmt::Write>(&self, f: &mut fmt::Formatter<W>) -> fmt::Result {
        let line = self.0;
        write!(f, "  {line}\n")
    }
}

impl fmt::Display for Numbered<'_> {
    ghost output = { λ n. Some (numbered n.maker n.number) };

    fn fmt<W: fmt::Write>(&self, f: &mut fmt::Formatter<W>) -> fmt::Result {
        let name = NameIf(self.maker.output);
        let number = self.number;
        write!(f, "{name} [{number}]")
    }
}

impl fmt::Display for RefusedEnd {
    ghost output = { λ r. Some (refused_end r.0) };

    #[tactic(auto, unfolding(crate::specs::Failed::refused_end))]
    fn fmt<W: fmt::Write>(&self, f: &mut fmt::Formatter<W>) -> fmt::Result {
        let refused = self.0;
        write!(f, ", {refused} refused: the answer is of the others\n")
    }
}

impl fmt::Display for Refused {
    ghost output = { λ r. Some (refused_words r.commands r.refused) };

    #[tactic(auto, unfolding(crate::specs::Failed::refused_words))]
    fn fmt<W: fmt::Write>(&self, f: &mut fmt::Formatter<W>) -> fmt::Result {
        let end = RefusedEnd(self.refused);
        let commands = Counted {
            count: self.commands,
            one: "command",
            many: "commands",
        };
        write!(f, "replayed {commands}{end}")
    }
}

impl fmt::Display for RefusedIf {
    ghost output = { λ r. Some (refused_line r.0.commands r.0.refused) };

    fn fmt<W: fmt::Write>(&self, f: &mut fmt::Formatter<W>) -> fmt::Result {
        if self.0.refused == 0 {
            return Ok(());
        }
        let refused = self.0;
        write!(f, "{refused}")
    }
}

impl fmt::Display for LeftOut {
    ghost output = { λ left. Some (left_line left.0) };

    fn fmt<W: fmt::Write>(&self, f: &mut fmt::Formatter<W>) -> fmt::Result {
        if self.0 == 0 {
            return Ok(());
        }
        let left = Counted {
            count: self.0,
            one: "command more was",
            many: "commands more were",
        };
        write!(
            f,
            "{left} left out, since the journal is full: the answer is of those before\n"
        )
    }
}

impl fmt::Display for StillRunning {
    ghost output = { λ running. Some (running_line running.0) };

    fn fmt<W: fmt::Write>(&self, f: &mut fmt::Formatter<W>) -> fmt::Result {
        if self.0 == 0 {
            return Ok(());
        }
        let running = Counted {
            count: self.0,
            one: "command runs",
            many: "commands run",
        };
        write!(
            f,
            "the recording ends while {running}: the answer is of the others\n"
        )
    }
}

impl fmt::Display for Replayed {
    ghost output = { λ r. Some (replayed_lines r) };

    fn fmt<W: fmt::Write>(&self, f: &mut fmt::Formatter<W>) -> fmt::Result {
        let refused = RefusedIf(Refused {
            commands: self.commands,
            refused: self.refused,
        });
        let left = LeftOut(self.left);
        let running = StillRunning(self.running);
        write!(f, "{refused}{left}{running}")
    }
}
