//! The text lines of builds, read.
use crate::fault::SeparationFault;
use crate::packed::runs_of;
use rev_separation::{Build, Fate};
use std::alloc::Global;

// The most commands of a manifest.
const MOST_COMMANDS: usize = 1_048_576;

// Builds, and the commands that failed in each.
#[derive(Drop)]
pub(crate) struct Recorded {
    pub(crate) builds: Vec<Build>,
    pub(crate) failed: Vec<Vec<usize>>,
}

// The builds of a manifest with so many commands: those from nothing that Ninja stopped, and all others.
#[derive(Drop)]
pub(crate) struct Builds {
    pub(crate) commands: usize,
    pub(crate) stopped: Recorded,
    pub(crate) others: Recorded,
}

/// Builds, and what is asked of them.
#[derive(Drop)]
pub struct Asked {
    pub(crate) anchors: Vec<usize>,
    pub(crate) moments: Vec<u32>,
    pub(crate) builds: Builds,
}

fn no_builds(alloc: Global) -> Recorded {
    Recorded {
        builds: Vec::new(alloc),
        failed: Vec::new(alloc),
    }
}

// The number of commands that the first line names, if it is one.
fn commands_in(line: &str) -> Option<usize> {
    let mut words = line.split_whitespace();
    if words.next()? != "builds" || words.next()? != "1" {
        return None;
    }
    let commands = words.next()?.parse::<u32>().ok()? as usize;
    if words.next().is_none() && commands <= MOST_COMMANDS {
        Some(commands)
    } else {
        None
    }
}

// Takes the words of a line. It says whether they are of a known form.
fn take(alloc: Global, asked: &mut Asked, line: &str) -> Result<bool, SeparationFault> {
    let mut words = line.split_whitespace();
    let Some(first) = words.next() else {
        return Ok(false);
    };
    if first == "stopped" {
        return take_build(
            alloc,
            asked.builds.commands,
            &mut asked.builds.stopped,
            line,
        );
    }
    if first == "build" {
        return take_build(alloc, asked.builds.commands, &mut asked.builds.others, line);
    }
    let is_anchors = first == "anchors";
    if !is_anchors && first != "moments" {
        return Ok(false);
    }
    for word in words {
        let Ok(number) = word.parse::<u32>() else {
            return Ok(false);
        };
        if is_anchors {
            asked.anchors.push(number as usize)?;
        } else {
            asked.moments.push(number)?;
        }
    }
    Ok(true)
}

// Takes the words `RUNS FAILED..` of a build, which stand behind its kind.
fn take_build(
    alloc: Global,
    commands: usize,
    recorded: &mut Recorded,
    line: &str,
) -> Result<bool, SeparationFault> {
    let mut words = line.split_whitespace();
    let _kind = words.next();
    let Some(text) = words.next() else {
        return Ok(false);
    };
    let Some(runs) = runs_of(alloc, text.as_bytes(), commands)? else {
        return Ok(false);
    };
    let mut failed = Vec::new(alloc);
    for word in words {
        match word.parse::<u32>() {
            Ok(command) => failed.push(command as usize)?,
            Err(_) => return Ok(false),
        }
    }
    recorded.builds.push(Build {
        runs,
        fate: Fate::Neither,
    })?;
    recorded.failed.push(failed)?;
    Ok(true)
}

/// What text lines ask. The first one is `builds 1 COMMANDS`. Each other line is `anchors COMMAND..`, `moments
/// MILLISECONDS..`, `build RUNS FAILED..` or `stopped RUNS FAILED..`, by numbers of commands.
///
/// # Errors
/// The first line that has another form, or [`SeparationFault::Memory`] where an allocation was refused.
pub fn asked_of(alloc: Global, text: &str) -> Result<Asked, SeparationFault> {
    let mut asked = Asked {
        anchors: Vec::new(alloc),
        moments: Vec::new(alloc),
        builds: Builds {
            commands: 0,
            stopped: no_builds(alloc),
            others: no_builds(alloc),
        },
    };
    let mut count: usize = 0;
    for line in text.lines() {
        count = count.saturating_add(1);
        if count > 1 {
            if !take(alloc, &mut asked, line)? {
                return Err(SeparationFault::Line(count));
            }
        } else {
            match commands_in(line) {
                Some(commands) => asked.builds.commands = commands,
                None => return Err(SeparationFault::Line(count)),
            }
        }
    }
    if count > 0 {
        Ok(asked)
    } else {
        Err(SeparationFault::Line(1))
    }
}
