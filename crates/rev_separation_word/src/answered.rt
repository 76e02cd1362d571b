//! Tallies as lines of JSON.
use crate::asked::{Asked, Builds};
use rev_fields::push_number;
use rev_separation::{Build, Fate, Run, Tally, counted};
use std::alloc::{AllocError, Global};

// Adds a list of the numbers of one command.
fn push_tally(text: &mut Vec<u8>, of_others: Tally, of_stopped: Tally) -> Result<(), AllocError> {
    text.extend_from_slice(b"[")?;
    push_number(text, of_others.both.saturating_add(of_stopped.both) as u64)?;
    text.extend_from_slice(b",")?;
    push_number(
        text,
        of_others.not_ended.saturating_add(of_stopped.not_ended) as u64,
    )?;
    text.extend_from_slice(b",")?;
    push_number(
        text,
        of_others.not_begun.saturating_add(of_stopped.not_begun) as u64,
    )?;
    text.extend_from_slice(b",")?;
    push_number(text, of_stopped.alone as u64)?;
    text.extend_from_slice(b"]")
}

// Adds the lists of all commands.
fn push_tallies(
    text: &mut Vec<u8>,
    of_others: &[Tally],
    of_stopped: &[Tally],
) -> Result<(), AllocError> {
    text.extend_from_slice(b"[")?;
    for command in 0..of_others.len().min(of_stopped.len()) {
        if command > 0 {
            text.extend_from_slice(b",")?;
        }
        push_tally(text, of_others[command], of_stopped[command])?;
    }
    text.extend_from_slice(b"]")
}

// Adds the line of one anchor and one moment.
fn push_line(
    alloc: Global,
    text: &mut Vec<u8>,
    builds: &Builds,
    anchor: usize,
    moment: u32,
) -> Result<(), AllocError> {
    let others = counted(
        alloc,
        &builds.others.builds,
        builds.commands,
        anchor,
        moment,
    )?;
    let stopped = counted(
        alloc,
        &builds.stopped.builds,
        builds.commands,
        anchor,
        moment,
    )?;
    text.extend_from_slice(b"{\"anchor\":")?;
    push_number(text, anchor as u64)?;
    text.extend_from_slice(b",\"moment\":")?;
    push_number(text, u64::from(moment))?;
    text.extend_from_slice(b",\"failing\":")?;
    push_tallies(text, &others.failing, &stopped.failing)?;
    text.extend_from_slice(b",\"passing\":")?;
    push_tallies(text, &others.passing, &stopped.passing)?;
    text.extend_from_slice(b"}\n")
}

// What became of a command with some runs, where some commands failed: one that did not end neither failed nor passed.
fn fate_of(runs: &[Option<Run>], failed: &[usize], command: usize) -> Fate {
    if command >= runs.len() {
        return Fate::Neither;
    }
    let run = runs[command];
    let Some(run) = run else {
        return Fate::Neither;
    };
    if run.ended.is_none() {
        return Fate::Neither;
    }
    if failed.contains(&command) {
        Fate::Failed
    } else {
        Fate::Passed
    }
}

// Notes in each build what became of the anchor.
fn note_fates(builds: &mut [Build], failed: &[Vec<usize>], anchor: usize) {
    for place in 0..builds.len().min(failed.len()) {
        let fate = fate_of(&builds[place].runs, &failed[place], anchor);
        builds[place].fate = fate;
    }
}

/// The answer: a line of JSON for each anchor and each moment. Of builds from nothing that Ninja stopped, the last
/// number of a command is how often the anchor ran and it had not begun.
///
/// # Errors
/// [`AllocError`] only where an allocation was refused.
pub fn answer_of(alloc: Global, asked: Asked) -> Result<Vec<u8>, AllocError> {
    let Asked {
        anchors,
        moments,
        mut builds,
    } = asked;
    let mut text = Vec::new(alloc);
    for anchor in &anchors {
        note_fates(&mut builds.others.builds, &builds.others.failed, *anchor);
        note_fates(&mut builds.stopped.builds, &builds.stopped.failed, *anchor);
        for moment in &moments {
            push_line(alloc, &mut text, &builds, *anchor, *moment)?;
        }
    }
    Ok(text)
}
