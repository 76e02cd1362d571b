//! How much stands in the way of a certificate.
use rev_certificate::Obstacle;
use rev_certificate_words::Named;
use rev_races_text::Counted;
use std::alloc::{AllocError, Global};

/// How many things of each sort stand in the way.
#[derive(Clone, Copy)]
pub(crate) struct Counts {
    /// Conflicts.
    pub(crate) conflicts: u64,
    /// Races, cycles and own outputs by lists.
    pub(crate) listed: u64,
    /// Races by the errors of failed commands.
    pub(crate) named: u64,
    /// Depfiles and response files of two commands.
    pub(crate) side_files: u64,
    /// Whether the observation was cut or changed, as a number.
    pub(crate) incomplete: u64,
    /// Commands that were not observed to a good end.
    pub(crate) unsure: u64,
    /// Commands that did not run.
    pub(crate) absent: u64,
    /// Assumptions that a strict certificate refuses.
    pub(crate) refused: u64,
}

impl Counts {
    /// Counts an obstacle. A command with several flags is counted once: `last` is the number of the command whose flag
    /// was counted last, and the next such number comes back.
    pub(crate) fn add(
        &mut self,
        named: &Named<'_>,
        obstacle: &Obstacle,
        last: Option<u32>,
    ) -> Option<u32> {
        match *obstacle {
            Obstacle::Incomplete => self.incomplete = 1,
            Obstacle::NotEnded { edge } => {
                if named.has_begun(edge) {
                    self.unsure = u64::saturating_add(self.unsure, 1);
                } else {
                    self.absent = u64::saturating_add(self.absent, 1);
                }
            }
            Obstacle::Early { .. } | Obstacle::Unseen { .. } => {
                self.unsure = u64::saturating_add(self.unsure, 1);
            }
            Obstacle::Flagged { command, .. } => {
                if last != Some(command) {
                    self.unsure = u64::saturating_add(self.unsure, 1);
                }
                return Some(command);
            }
            Obstacle::Conflict(_) => self.conflicts = u64::saturating_add(self.conflicts, 1),
        }
        last
    }
}

// Adds so many things behind what was added before.
fn push_count(
    text: &mut String,
    is_first: bool,
    count: u64,
    one: &'static str,
    many: &'static str,
) -> Result<bool, AllocError> {
    if count == 0 {
        return Ok(is_first);
    }
    let counted = Counted { count, one, many };
    text.push_str(if is_first { "" } else { ", " })?;
    write!(text, "{counted}")?;
    Ok(false)
}

// The words for one thing of each sort and for several, with their counts.
fn sorts_of(counts: &Counts) -> [(u64, &'static str, &'static str); 8] {
    [
        (counts.conflicts, "conflict", "conflicts"),
        (counts.listed, "race by a list", "races by lists"),
        (
            counts.named,
            "race by the error of a failed command",
            "races by the errors of failed commands",
        ),
        (
            counts.side_files,
            "depfile or response file of two commands",
            "depfiles or response files of two commands",
        ),
        (
            counts.incomplete,
            "observation that was cut or changed",
            "observations",
        ),
        (
            counts.unsure,
            "command that was not observed to a good end",
            "commands that were not observed to a good end",
        ),
        (
            counts.absent,
            "command that did not run",
            "commands that did not run",
        ),
        (
            counts.refused,
            "assumption that --strict refuses",
            "assumptions that --strict refuses",
        ),
    ]
}

/// What stands in the way, counted.
///
/// # Errors
/// [`AllocError`] only where an allocation was refused.
pub(crate) fn counts_words(alloc: Global, counts: &Counts) -> Result<String, AllocError> {
    let mut text = String::new(alloc);
    let mut is_first = true;
    for (count, one, many) in sorts_of(counts) {
        is_first = push_count(&mut text, is_first, count, one, many)?;
    }
    if is_first {
        text.push_str("the recording does not count whole, or no command ran")?;
    }
    Ok(text)
}
