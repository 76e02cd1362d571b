//! When the events of a recording happened.
use rev_commands::Which;
use rev_desk::Desk;
use rev_fields::number;
use std::alloc::{AllocError, Global};

// The first line of the file.
const HEAD: &[u8] = b"rebug-times 1";

// The lane and the place of a label.
fn label_of(text: &[u8]) -> Option<(u32, u32)> {
    let colon = text.iter().position(|byte| *byte == b':')?;
    let (lane, place) = (text.get(..colon)?, text.get(colon.saturating_add(1)..)?);
    match (number(lane), number(place)) {
        (Ok(lane), Ok(place)) => Some((lane, place)),
        _ => None,
    }
}

/// When an event happened, by its label.
#[derive(Clone, Copy)]
pub struct LabelTime {
    lane: u32,
    place: u32,
    time: u32,
}

// The label of a line, and its time.
fn label_time_of(line: &[u8]) -> Option<LabelTime> {
    let space = line.iter().position(|byte| *byte == b' ')?;
    let (label, time) = (line.get(..space)?, line.get(space.saturating_add(1)..)?);
    let (lane, place) = label_of(label)?;
    match number(time) {
        Ok(time) => Some(LabelTime { lane, place, time }),
        Err(_) => None,
    }
}

/// The lines of the file `times`; none where its first line is another.
///
/// # Errors
/// [`AllocError`] only where an allocation was refused.
pub fn label_times(alloc: Global, bytes: &[u8]) -> Result<Vec<LabelTime>, AllocError> {
    let mut labels = Vec::new(alloc);
    for (place, line) in bytes.split(|byte| *byte == b'\n').enumerate() {
        if place == 0 {
            if line != HEAD {
                return Ok(labels);
            }
        } else if let Some(label) = label_time_of(line) {
            labels.push(label)?;
        }
    }
    Ok(labels)
}

// The times of events, by their numbers, as labels have them; nothing where no event has such a label.
fn times_of(
    alloc: Global,
    desk: &Desk,
    labels: &[LabelTime],
) -> Result<Vec<Option<u32>>, AllocError> {
    let last = desk.history().last() as usize;
    let mut times = vec![in alloc; None; last.saturating_add(1)]?;
    let mut is_known = false;
    for label in labels {
        let named = desk.named(Which::Label {
            lane: label.lane,
            place: label.place,
        });
        if let Some(event) = named
            && let Some(known) = times.get_mut(event as usize)
        {
            *known = Some(label.time);
            is_known = true;
        }
    }
    if is_known {
        return Ok(times);
    }
    Ok(Vec::new(alloc))
}

/// The times that the bytes of the file `times` give, by the numbers of events; nothing where they give none.
///
/// # Errors
/// [`AllocError`] only where an allocation was refused.
pub fn times_in(alloc: Global, desk: &Desk, bytes: &[u8]) -> Result<Vec<Option<u32>>, AllocError> {
    let labels = label_times(alloc, bytes)?;
    times_of(alloc, desk, &labels)
}

/// The times of the events that a desk has accepted so far.
#[derive(Drop)]
pub struct KnownTimes {
    // The greatest number of such an event.
    last: u32,
    times: Vec<Option<u32>>,
}

impl KnownTimes {
    /// The times of a desk's events, as labels have them.
    ///
    /// # Errors
    /// [`AllocError`] only where an allocation was refused.
    pub fn new(alloc: Global, desk: &Desk, labels: &[LabelTime]) -> Result<KnownTimes, AllocError> {
        Ok(KnownTimes {
            last: desk.history().last(),
            times: times_of(alloc, desk, labels)?,
        })
    }

    /// Times by the numbers of events.
    pub fn times(&self) -> &[Option<u32>] {
        &self.times
    }

    /// Looks labels up again where the desk has accepted an event since. Where it has not, each label stands for the
    /// event that it stood for.
    ///
    /// # Errors
    /// [`AllocError`] only where an allocation was refused: the times are then as they were.
    pub fn renew(
        &mut self,
        alloc: Global,
        desk: &Desk,
        labels: &[LabelTime],
    ) -> Result<(), AllocError> {
        if self.last == desk.history().last() {
            return Ok(());
        }
        self.times = times_of(alloc, desk, labels)?;
        self.last = desk.history().last();
        Ok(())
    }
}
