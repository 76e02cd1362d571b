//! What is reported of a recording that was replayed.
use crate::found::{Findings, findings_in, told_changes, told_clashes};
use crate::hinted::hints_in;
use crate::seen::{Sight, hidden_in, listed_left, not_whole, whole_marks};
use indexmap::IndexMap;
use rev_desk::Desk;
use rev_judged::{Unjudged, not_judged};
use rev_paths::Name;
use rev_printed::Entry;
use rev_races_text::{LeftOut, Replayed, Report, Run, Sources};
use rev_recording::refused_count;
use std::alloc::{AllocError, Global};

/// What a report is made of, beside the desk of a recording that was replayed.
#[derive(Clone, Copy)]
pub struct Basis<'a> {
    /// What answers say of edges beside their numbers.
    pub sources: Sources<'a>,
    /// The names of the files that the manifest was read from.
    pub files: &'a [Name],
    /// What the commands printed that failed.
    pub entries: &'a [Entry],
    /// The other names of outputs.
    pub names: &'a IndexMap<Name, Name>,
    /// What the commands were seen to do, where the recording has that.
    pub sight: Option<&'a Sight>,
    /// How many commands the trace has.
    pub commands: u64,
}

// How many commands had not ended when the recording did.
fn running_count(runs: &[Option<Run>]) -> u64 {
    runs.iter()
        .filter(|run| run.is_some_and(|run| run.ended.is_none()))
        .count() as u64
}

/// How much of a recording counts, whose trace has so many commands.
pub(crate) fn replayed_of(desk: &Desk, runs: &[Option<Run>], all: u64) -> Replayed {
    let commands = desk.journal().len() as u64;
    Replayed {
        commands,
        left: all.saturating_sub(commands),
        refused: refused_count(desk),
        running: running_count(runs),
    }
}

// A report of what was found.
fn report_with<'a>(
    alloc: Global,
    desk: &'a Desk,
    basis: &Basis<'a>,
    found: Findings<'a>,
    judged: Unjudged,
) -> Result<Report<'a>, AllocError> {
    let Unjudged { plain, collectors } = judged;
    let Findings { races, failures } = found;
    let races = listed_left(alloc, desk.history().graph(), basis.sight, races)?;
    let plain = not_whole(alloc, basis.sight, &plain)?;
    let collectors = not_whole(alloc, basis.sight, &collectors)?;
    Ok(Report {
        before: 0,
        seen: None,
        replayed: replayed_of(desk, basis.sources.runs, basis.commands),
        failures,
        races,
        clashes: told_clashes(alloc, basis.sources.builds)?,
        ran: basis
            .sources
            .runs
            .iter()
            .filter(|run| run.is_some())
            .count() as u64,
        unjudged: plain,
        collectors,
        hints: Vec::new(alloc),
        changes: Vec::new(alloc),
        left_out: LeftOut::NOTHING,
        hidden: hidden_in(alloc, basis.sight)?,
    })
}

/// What is reported of the desk of a recording that was replayed, without hints and without what an observation shows.
///
/// # Errors
/// [`AllocError`] only where an allocation was refused.
pub fn report_of<'a>(
    alloc: Global,
    desk: &'a Desk,
    basis: &Basis<'a>,
) -> Result<Report<'a>, AllocError> {
    let history = desk.history();
    let builds = basis.sources.builds;
    let found = findings_in(
        alloc,
        history,
        builds,
        basis.files,
        basis.entries,
        basis.sight,
    )?;
    let judged = not_judged(alloc, history)?;
    report_with(alloc, desk, basis, found, judged)
}

/// Adds the hints to a report. A hint gives way where the commands that it is about were observed whole: the observation
/// names who wrote the file.
///
/// # Errors
/// [`AllocError`] only where an allocation was refused.
pub fn add_hints<'a>(
    alloc: Global,
    desk: &'a Desk,
    basis: &Basis<'a>,
    report: &mut Report<'a>,
) -> Result<(), AllocError> {
    let history = desk.history();
    let whole = whole_marks(basis.sight);
    report.hints = hints_in(
        alloc,
        history,
        basis.files,
        basis.names,
        &basis.sources,
        whole,
    )?;
    report.changes = told_changes(alloc, history, &basis.sources, basis.names, whole)?;
    Ok(())
}
