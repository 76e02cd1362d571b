//! Where events stand in a picture.
use crate::folders::folded;
use rev_history::History;
use rev_lanes::{Span, lanes_of};
use rev_runs::Run;
use rev_shown::first_output;
use std::alloc::{AllocError, Global};

// How far the first event is from the left edge, behind the names of lanes, and behind those of folders.
const BESIDE_LANES: u32 = 64;

const BESIDE_FOLDERS: u32 = 250;
// How much room stands to the right of the last event, for names.
const RIGHT: u32 = 140;
// The least and the greatest number of units from the first event to the last one.
const NARROW: u32 = 720;

const WIDE: u32 = 3600;
// The most lanes that are drawn: of a build with more of them each folder is a row.
const MOST_LANES: usize = 60;
/// The most rows: those, and one for the events that begin and end no command.
pub(crate) const MOST_ROWS: usize = 61;

/// The places of a history's events, by the number of the event.
#[derive(Drop)]
pub(crate) struct Places {
    /// The distance of each event from the left edge, in units.
    lefts: Vec<u32>,
    /// The row of each event.
    rows: Vec<u32>,
    /// The names of the rows.
    pub(crate) names: Vec<Vec<u8>>,
    /// Whether a row has the commands of a folder in place of commands that ran one behind the other.
    pub(crate) is_folded: bool,
    /// How far the first event is from the left edge, in units.
    pub(crate) margin: u32,
    /// The number of units from the first event to the last one.
    pub(crate) units: u32,
    /// The time of the last event in milliseconds, or its number where the recording has no times.
    pub(crate) latest: u32,
}

/// A count as a number of 32 bits. A count above the greatest such number gives that number.
pub(crate) fn narrow(count: usize) -> u32 {
    match u32::try_from(count) {
        Ok(number) => number,
        Err(_) => u32::MAX,
    }
}

// What stands at the place of a number, or 0.
fn at(numbers: &[u32], number: u32) -> u32 {
    match numbers.get(number as usize) {
        Some(found) => *found,
        None => 0,
    }
}

impl Places {
    /// The distance of an event from the left edge, in units.
    pub(crate) fn left(&self, number: u32) -> u32 {
        at(&self.lefts, number)
    }

    /// The row of an event.
    pub(crate) fn row(&self, number: u32) -> u32 {
        at(&self.rows, number)
    }

    /// The number of rows.
    pub(crate) fn count(&self) -> u32 {
        narrow(self.names.len())
    }

    /// The distance of a time from the left edge, in units; of a number where the recording has no times.
    pub(crate) fn left_of(&self, moment: u32) -> u32 {
        self.margin
            .saturating_add(scaled(moment, self.latest, self.units))
    }

    /// The width of the picture, in units.
    pub(crate) fn width(&self) -> u32 {
        self.margin.saturating_add(self.units).saturating_add(RIGHT)
    }
}

// How many units behind the margin a moment is, of so many in all.
fn scaled(moment: u32, latest: u32, units: u32) -> u32 {
    let all = u64::from(latest);
    if all == 0 {
        return 0;
    }
    let place = u64::from(moment) * u64::from(units) / all;
    if place > u64::from(units) {
        return units;
    }
    place as u32
}

// The moment of each number up to one past the last: its time where times are known, and then one that has none, or an
// earlier one, has that of the one before it; else the number itself.
fn moments(alloc: Global, last: u32, times: &[Option<u32>]) -> Result<Vec<u32>, AllocError> {
    let mut moments = Vec::new(alloc);
    let mut before = 0;
    for number in 0..u64::from(last) + 1 {
        let moment = if times.is_empty() {
            number as u32
        } else {
            match times.get(number as usize) {
                Some(Some(time)) if *time > before => *time,
                _ => before,
            }
        };
        before = moment;
        moments.push(moment)?;
    }
    moments.push(if times.is_empty() {
        before.saturating_add(1)
    } else {
        before
    })?;
    Ok(moments)
}

// The spans of runs by the moments of their events.
fn spans(alloc: Global, moments: &[u32], last: u32, runs: &[Run]) -> Result<Vec<Span>, AllocError> {
    let mut spans = Vec::new(alloc);
    for run in runs {
        let ended = run.ended.unwrap_or(last.saturating_add(1));
        spans.push(Span {
            from: at(moments, run.began),
            to: at(moments, ended),
        })?;
    }
    Ok(spans)
}

// Sets the row of an event.
fn set_row(rows: &mut [u32], number: u32, row: u32) {
    if (number as usize) < rows.len() {
        rows[number as usize] = row;
    }
}

// The row of each number: 0, and for what begins or ends a run one more than the place of the run's row.
fn rows_of(alloc: Global, last: u32, runs: &[Run], of: &[usize]) -> Result<Vec<u32>, AllocError> {
    let mut rows = vec![in alloc; 0; (last as usize).saturating_add(1)]?;
    for (place, run) in runs.iter().enumerate() {
        let row = narrow(of.get(place).copied().unwrap_or(0)).saturating_add(1);
        set_row(&mut rows, run.began, row);
        if let Some(ended) = run.ended {
            set_row(&mut rows, ended, row);
        }
    }
    Ok(rows)
}

// The names of lanes, behind that of the first row.
fn lane_names(alloc: Global, count: usize) -> Result<Vec<Vec<u8>>, AllocError> {
    let mut names = Vec::new(alloc);
    names.push(Vec::from_slice(alloc, b"events")?)?;
    for passed in 0..count {
        let number = passed.saturating_add(1);
        names.push(format!(in alloc; "lane {number}")?.into_bytes())?;
    }
    Ok(names)
}

// The first outputs of the edges of runs.
fn outputs<'a>(
    alloc: Global,
    history: &'a History,
    runs: &[Run],
) -> Result<Vec<&'a [u8]>, AllocError> {
    let mut outputs: Vec<&'a [u8]> = Vec::new(alloc);
    for run in runs {
        outputs.push(match first_output(history.graph(), run.edge) {
            Some(name) => name.as_bytes(),
            None => b"",
        })?;
    }
    Ok(outputs)
}

// How many units the events of a history take.
fn units_of(last: u32) -> u32 {
    let units = last.saturating_add(1).saturating_mul(24);
    if units < NARROW {
        NARROW
    } else if units > WIDE {
        WIDE
    } else {
        units
    }
}

/// The places of the events of a history with these runs. The runs stand in lanes, of which there are as many as ran side
/// by side; where there are too many, in rows by folder. Without times the events stand side by side in their order.
pub(crate) fn places_of(
    alloc: Global,
    history: &History,
    runs: &[Run],
    times: &[Option<u32>],
) -> Result<Places, AllocError> {
    let last = history.last();
    let moments = moments(alloc, last, times)?;
    let lanes = lanes_of(alloc, &spans(alloc, &moments, last, runs)?)?;
    let is_folded = lanes.count > MOST_LANES;
    let (of, names) = if is_folded {
        folded(alloc, &outputs(alloc, history, runs)?, MOST_LANES)?
    } else {
        (lanes.of, lane_names(alloc, lanes.count)?)
    };
    let rows = rows_of(alloc, last, runs, &of)?;
    let mut places = Places {
        lefts: Vec::new(alloc),
        rows,
        names,
        is_folded,
        margin: if is_folded {
            BESIDE_FOLDERS
        } else {
            BESIDE_LANES
        },
        units: units_of(last),
        latest: moments.last().copied().unwrap_or(0),
    };
    for moment in &moments {
        let left = places.left_of(*moment);
        places.lefts.push(left)?;
    }
    Ok(places)
}
