//! The ticks of the axis.
use crate::places::Places;
use std::alloc::{AllocError, Global};

// The most steps of the axis.
const MOST: u32 = 10;

/// A tick: where it stands, and its words.
#[derive(Drop)]
pub(crate) struct Mark {
    /// The distance from the left edge, in units.
    pub(crate) left: u32,
    /// The words.
    pub(crate) words: Vec<u8>,
}

// The least of 1, 2, 5, 10, 20, .. of which at most so many make a number.
fn step_of(latest: u32) -> u32 {
    let mut power: u32 = 1;
    for _ in 0..9 {
        for times in [1u32, 2, 5] {
            let step = power.saturating_mul(times);
            if u64::from(latest) <= u64::from(step) * u64::from(MOST) {
                return step;
            }
        }
        power = power.saturating_mul(10);
    }
    power
}

// The words of a moment: a time in seconds where the steps are whole ones, else in milliseconds; the number of an event
// where there are no times.
fn words_of(alloc: Global, moment: u32, step: u32, is_timed: bool) -> Result<Vec<u8>, AllocError> {
    let text = if !is_timed {
        format!(in alloc; "event {moment}")?
    } else if step >= 1000 {
        let seconds = moment / 1000;
        format!(in alloc; "{seconds} s")?
    } else {
        format!(in alloc; "{moment} ms")?
    };
    Ok(text.into_bytes())
}

/// The ticks of a picture.
///
/// # Errors
/// [`AllocError`] only where an allocation was refused.
pub(crate) fn marks(
    alloc: Global,
    places: &Places,
    is_timed: bool,
) -> Result<Vec<Mark>, AllocError> {
    let step = step_of(places.latest);
    let mut marks = Vec::new(alloc);
    for passed in 0..MOST.saturating_add(1) {
        let moment = step.saturating_mul(passed);
        if moment <= places.latest {
            marks.push(Mark {
                left: places.left_of(moment),
                words: words_of(alloc, moment, step, is_timed)?,
            })?;
        }
    }
    Ok(marks)
}
