//! The runs of a build as a summary packs them: differences of numbers of commands and of begins, and durations, as
//! numbers of seven bits a byte in base64.
use base64::DecodeAllocError;
use base64::engine::general_purpose::STANDARD;
use rev_separation::Run;
use std::alloc::{AllocError, Global};

// A packed number: 2n stands for n, and 2n + 1 for -n - 1.
fn signed(number: u64) -> i64 {
    let half = (number / 2) as i64;
    if number % 2 == 0 {
        half
    } else {
        (-1_i64).wrapping_sub(half)
    }
}

// The numbers of some bytes; None where the last one is cut off, or one is too long.
fn numbers_in(alloc: Global, bytes: &[u8]) -> Result<Option<Vec<i64>>, AllocError> {
    let mut numbers = Vec::new(alloc);
    let mut number: u64 = 0;
    let mut shift: u32 = 0;
    for byte in bytes {
        if shift > 56 {
            return Ok(None);
        }
        number |= u64::from(*byte & 127) << shift;
        if *byte < 128 {
            numbers.push(signed(number))?;
            number = 0;
            shift = 0;
        } else {
            shift += 7;
        }
    }
    if shift > 0 {
        return Ok(None);
    }
    Ok(Some(numbers))
}

// The run that begins at a moment and takes so many milliseconds; -1 stands for one that was stopped.
fn run_at(began: i64, length: i64) -> Option<Run> {
    let began = u32::try_from(began).ok()?;
    if length == -1 {
        return Some(Run { began, ended: None });
    }
    let length = u32::try_from(length).ok()?;
    let ended = began.checked_add(length)?;
    Some(Run {
        began,
        ended: Some(ended),
    })
}

// Notes the run of a command that has none yet. It says whether that could be.
fn note(runs: &mut [Option<Run>], command: i64, run: Option<Run>) -> bool {
    let (Ok(place), Some(run)) = (usize::try_from(command), run) else {
        return false;
    };
    if place < runs.len() && runs[place].is_none() {
        runs[place] = Some(run);
        return true;
    }
    false
}

// The runs of so many commands by their numbers; None where these are of other commands.
fn runs_by(
    alloc: Global,
    numbers: &[i64],
    commands: usize,
) -> Result<Option<Vec<Option<Run>>>, AllocError> {
    let mut runs: Vec<Option<Run>> = vec![in alloc; None; commands]?;
    let mut command: i64 = 0;
    let mut began: i64 = 0;
    for part in numbers.chunks(3) {
        let [step, wait, length] = part else {
            return Ok(None);
        };
        let (Some(next), Some(moment)) = (command.checked_add(*step), began.checked_add(*wait))
        else {
            return Ok(None);
        };
        command = next;
        began = moment;
        if !note(&mut runs, command, run_at(began, *length)) {
            return Ok(None);
        }
    }
    Ok(Some(runs))
}

/// The runs of so many commands by their text; `None` where the text is not of this form, or of other commands.
///
/// # Errors
/// [`AllocError`] only where an allocation was refused.
pub(crate) fn runs_of(
    alloc: Global,
    text: &[u8],
    commands: usize,
) -> Result<Option<Vec<Option<Run>>>, AllocError> {
    let bytes = match STANDARD.decode(alloc, text) {
        Ok(bytes) => bytes,
        Err(DecodeAllocError::OutOfMemory) => return Err(AllocError),
        Err(_) => return Ok(None),
    };
    let Some(numbers) = numbers_in(alloc, &bytes)? else {
        return Ok(None);
    };
    runs_by(alloc, &numbers, commands)
}
