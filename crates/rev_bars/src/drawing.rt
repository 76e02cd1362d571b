//! The drawing of a history.
use crate::axis::{Mark, marks};
use crate::labels::label_bars;
use crate::linked::links;
use crate::observed::add_conflicts;
use crate::places::{MOST_ROWS, Places, narrow, places_of};
use crate::racing::racing_marks;
use rev_conflicts::Conflict;
use rev_events::Event;
use rev_fields::push_number;
use rev_held::Link;
use rev_history::History;
use rev_observed::Observation;
use rev_picture::{Bar, Line, LineKind, Outcome, Row, Tick, Time, push_picture};
use rev_races::{Race, Story, path_of};
use rev_runs::{Run, is_kept, runs};
use rev_shown::{first_output, push_cell, push_event_words, push_shown};
use std::alloc::{AllocError, Global};

// The least number of units of a bar.
const LEAST: u32 = 4;
/// The most lines of each kind that are drawn: dependences, races, and conflicts.
pub(crate) const MOST: usize = 100;

/// What a picture is made from.
#[derive(Clone, Copy)]
pub struct Drawing<'a> {
    /// The history.
    pub history: &'a History,
    /// The races of the history.
    pub races: &'a [Race],
    /// For each race, what happened in the history with its two edges.
    pub stories: &'a [Story],
    /// What the commands were observed to do. `None` where the recording has no observation.
    pub observation: Option<&'a Observation>,
    /// The conflicts of the observed commands.
    pub conflicts: &'a [Conflict],
    /// Words that tell how much of the recording counts: a line for each reason why a part does not.
    pub replayed: &'a [u8],
    /// When each event happened, in milliseconds, by the number of the event. Empty where the recording has no times.
    pub times: &'a [Option<u32>],
    /// The event whose dependences are drawn. `None` where no event was chosen.
    pub event: Option<u32>,
}

// How a command ended, by the number of the event that ended it.
fn outcome_of(history: &History, ended: Option<u32>) -> Outcome {
    let Some(ended) = ended else {
        return Outcome::Well;
    };
    match history.event(ended) {
        Some(Event::Fail { .. }) => Outcome::Failed,
        Some(Event::Abort { .. }) => Outcome::Stopped,
        _ => Outcome::Well,
    }
}

// What is told before the name of a command that did not end well.
fn words_of_end(outcome: Outcome) -> &'static [u8] {
    match outcome {
        Outcome::Well => b"",
        Outcome::Failed => b"failed: ",
        Outcome::Stopped => b"stopped: ",
    }
}

// The time of an event, where one is known.
fn time_at(times: &[Option<u32>], number: u32) -> Option<u32> {
    match times.get(number as usize) {
        Some(time) => *time,
        None => None,
    }
}

// When a run began and how long it took, where both is known.
fn time_of(times: &[Option<u32>], run: &Run) -> Option<Time> {
    let from = time_at(times, run.began)?;
    let to = time_at(times, run.ended?)?;
    Some(Time {
        from,
        took: to.saturating_sub(from),
    })
}

// Which edges are in a race: by lists, and as it was observed.
#[derive(Drop)]
struct Marks {
    listed: Vec<bool>,
    observed: Vec<bool>,
}

// The bar of a run.
fn bar_of<'a>(drawing: &Drawing<'a>, places: &Places, marks: &Marks, run: &Run) -> Bar<'a> {
    let history = drawing.history;
    let name: &'a [u8] = match first_output(history.graph(), run.edge) {
        Some(name) => name.as_bytes(),
        None => b"",
    };
    let outcome = outcome_of(history, run.ended);
    let left = places.left(run.began);
    let right = match run.ended {
        Some(ended) => places.left(ended),
        None => places.left(history.last().saturating_add(1)),
    };
    let width = right.saturating_sub(left);
    Bar {
        row: places.row(run.began),
        left,
        width: if width < LEAST { LEAST } else { width },
        words: words_of_end(outcome),
        name,
        label: None,
        began: run.began,
        ended: run.ended,
        time: time_of(drawing.times, run),
        outcome,
        undone: !run.kept,
        racing: marks.listed.get(run.edge as usize) == Some(&true),
        observed: marks.observed.get(run.edge as usize) == Some(&true),
    }
}

// The words and the name of an event that begins and ends no command.
fn mark_of(event: &Event) -> Option<(&'static [u8], &[u8])> {
    match event {
        Event::Plan(_) => Some((b"plan", b"")),
        Event::Clean { out } => Some((b"clean ", out.as_bytes())),
        Event::Pass { out } => Some((b"pass ", out.as_bytes())),
        Event::Touch { path, .. } => Some((b"touch ", path.as_bytes())),
        Event::Interrupt => Some((b"interrupt", b"")),
        Event::Resize { .. } => Some((b"resize", b"")),
        _ => None,
    }
}

// Adds the bars of the events that begin and end no command.
fn add_marks<'a>(
    history: &'a History,
    places: &Places,
    bars: &mut Vec<Bar<'a>>,
) -> Result<(), AllocError> {
    for number in 1..history.last().saturating_add(1) {
        if let Some(event) = history.event(number) {
            if let Some((words, name)) = mark_of(event) {
                bars.push(Bar {
                    row: 0,
                    left: places.left(number),
                    width: LEAST,
                    words,
                    name,
                    label: None,
                    began: number,
                    ended: Some(number),
                    time: None,
                    outcome: Outcome::Well,
                    undone: !is_kept(history, number),
                    racing: false,
                    observed: false,
                })?;
            }
        }
    }
    Ok(())
}

/// A line that is drawn: what it is, two events, and its words.
#[derive(Drop)]
pub(crate) struct Drawn {
    pub(crate) kind: LineKind,
    pub(crate) one: u32,
    pub(crate) other: u32,
    pub(crate) words: Vec<u8>,
}

/// Appends the number of an event and the event in words.
pub(crate) fn push_numbered(
    text: &mut Vec<u8>,
    history: &History,
    number: u32,
) -> Result<(), AllocError> {
    push_number(text, u64::from(number))?;
    if let Some(event) = history.event(number) {
        text.extend_from_slice(b" ")?;
        push_event_words(text, event)?;
    }
    Ok(())
}

// The words of a dependence, as `12 start main.o (job 5) rests on 3 start table.h (job 1) through the mark of table.h`.
fn link_words(alloc: Global, history: &History, link: &Link) -> Result<Vec<u8>, AllocError> {
    let mut words = Vec::new(alloc);
    push_numbered(&mut words, history, link.other)?;
    words.extend_from_slice(b" rests on ")?;
    push_numbered(&mut words, history, link.one)?;
    match &link.cell {
        Some(cell) => {
            words.extend_from_slice(b" through ")?;
            push_cell(&mut words, history.graph(), cell)?;
        }
        None => words.extend_from_slice(b", since a plan looks at everything")?,
    }
    Ok(words)
}

// Adds the first of some dependences.
fn add_links(
    alloc: Global,
    history: &History,
    links: &[Link],
    all: &mut Vec<Drawn>,
) -> Result<(), AllocError> {
    for link in links.iter().take(MOST) {
        all.push(Drawn {
            kind: LineKind::Dependence,
            one: link.one,
            other: link.other,
            words: link_words(alloc, history, link)?,
        })?;
    }
    Ok(())
}

// Whether a race is of the same two edges as the one before it.
fn is_same_pair(race: &Race, before: Option<&Race>) -> bool {
    match before {
        Some(before) => before.maker == race.maker && before.user == race.user,
        None => false,
    }
}

// The words of a race, as `race of 6 finish version.h and 12 start main.o (job 5): version.h`.
fn race_words(
    alloc: Global,
    history: &History,
    race: &Race,
    one: u32,
    other: u32,
) -> Result<Vec<u8>, AllocError> {
    let mut words = Vec::new(alloc);
    words.extend_from_slice(b"race of ")?;
    push_numbered(&mut words, history, one)?;
    words.extend_from_slice(b" and ")?;
    push_numbered(&mut words, history, other)?;
    if let Some(path) = path_of(history, race) {
        words.extend_from_slice(b": ")?;
        push_shown(&mut words, path.as_bytes())?;
    }
    Ok(words)
}

// Adds the line of a race of which both commands ran.
fn add_race(
    alloc: Global,
    history: &History,
    race: &Race,
    story: &Story,
    all: &mut Vec<Drawn>,
) -> Result<(), AllocError> {
    let (Some(maker), Some(user)) = (story.maker, story.user) else {
        return Ok(());
    };
    let one = maker.ended.unwrap_or(maker.began);
    let other = user.began;
    let words = race_words(alloc, history, race, one, other)?;
    all.push(Drawn {
        kind: LineKind::Listed,
        one,
        other,
        words,
    })?;
    Ok(())
}

// Adds the lines of the first races, of each two edges the first path.
fn add_races(alloc: Global, drawing: &Drawing<'_>, all: &mut Vec<Drawn>) -> Result<(), AllocError> {
    let mut before = None;
    for (place, race) in drawing.races.iter().enumerate() {
        let is_again = is_same_pair(race, before);
        before = Some(race);
        if !is_again && all.len() < MOST {
            if let Some(story) = drawing.stories.get(place) {
                add_race(alloc, drawing.history, race, story, all)?;
            }
        }
    }
    Ok(())
}

// The lines with their places: the words of each in a line of its own, below the rows.
fn lines_of<'a>(
    alloc: Global,
    places: &Places,
    all: &'a [Drawn],
) -> Result<Vec<Line<'a>>, AllocError> {
    let top = top_of_lines(places.count());
    let mut lines = Vec::new(alloc);
    for (place, drawn) in all.iter().enumerate() {
        lines.push(Line {
            kind: drawn.kind,
            one: drawn.one,
            one_left: places.left(drawn.one),
            one_row: places.row(drawn.one),
            other: drawn.other,
            other_left: places.left(drawn.other),
            other_row: places.row(drawn.other),
            words: &drawn.words,
            words_top: top.saturating_add(narrow(place).saturating_mul(12)),
        })?;
    }
    Ok(lines)
}

// Adds a number and words.
fn push_counted(text: &mut Vec<u8>, number: u64, words: &[u8]) -> Result<(), AllocError> {
    push_number(text, number)?;
    text.extend_from_slice(words)
}

// The words above all. `races` says how many races are drawn.
fn caption(
    alloc: Global,
    drawing: &Drawing<'_>,
    places: &Places,
    runs: usize,
    races: usize,
    links: usize,
) -> Result<Vec<u8>, AllocError> {
    let mut text = Vec::new(alloc);
    push_counted(&mut text, runs as u64, b" commands, ")?;
    push_counted(
        &mut text,
        drawing.history.kept().len() as u64,
        b" kept events, ",
    )?;
    text.extend_from_slice(if drawing.times.is_empty() {
        b"in their order"
    } else {
        b"by time"
    })?;
    if places.is_folded {
        text.extend_from_slice(b", a row for each folder")?;
    } else {
        text.extend_from_slice(b", at most ")?;
        let lanes = places.names.len().saturating_sub(1);
        push_counted(&mut text, lanes as u64, b" side by side")?;
    }
    if races >= MOST {
        text.extend_from_slice(b"; the first 100 races are drawn")?;
    }
    if let Some(event) = drawing.event {
        text.extend_from_slice(b"; lines: what event ")?;
        push_number(&mut text, u64::from(event))?;
        text.extend_from_slice(b" rests on, and what rests on it")?;
    }
    if links > MOST {
        text.extend_from_slice(b" (the first 100 of ")?;
        push_counted(&mut text, links as u64, b")")?;
    }
    push_replayed(&mut text, drawing.replayed)?;
    Ok(text)
}

// Adds how much of the recording counts, where that is not all of it.
fn push_replayed(text: &mut Vec<u8>, replayed: &[u8]) -> Result<(), AllocError> {
    for line in replayed.split(|byte| *byte == b'\n') {
        if !line.is_empty() {
            text.extend_from_slice(b"; ")?;
            text.extend_from_slice(line)?;
        }
    }
    Ok(())
}

// All bars, with their labels where rows are lanes.
fn bars_of<'a>(
    alloc: Global,
    drawing: &Drawing<'a>,
    places: &Places,
    runs: &[Run],
) -> Result<Vec<Bar<'a>>, AllocError> {
    let edges = drawing.history.graph().edges();
    let marks = Marks {
        listed: racing_marks(alloc, drawing.races, &[], edges)?,
        observed: racing_marks(alloc, &[], drawing.conflicts, edges)?,
    };
    let mut bars = Vec::new(alloc);
    add_marks(drawing.history, places, &mut bars)?;
    for run in runs {
        bars.push(bar_of(drawing, places, &marks, run))?;
    }
    if !places.is_folded {
        label_bars(alloc, &mut bars, places.count(), places.width())?;
    }
    Ok(bars)
}

// How far below the top edge the first words of a line stand, below so many rows.
fn top_of_lines(rows: u32) -> u32 {
    rows.saturating_mul(20).saturating_add(76)
}

// How many units a picture of so many rows and lines is high.
fn height_of(rows: u32, lines: usize) -> u32 {
    top_of_lines(rows).saturating_add(narrow(lines).saturating_mul(12))
}

// The rows by their names.
fn rows_of<'a>(alloc: Global, names: &'a [Vec<u8>]) -> Result<Vec<Row<'a>>, AllocError> {
    let mut rows = Vec::new(alloc);
    for name in names {
        rows.push(Row { name })?;
    }
    Ok(rows)
}

// The ticks by their marks.
fn ticks_of<'a>(alloc: Global, marks: &'a [Mark]) -> Result<Vec<Tick<'a>>, AllocError> {
    let mut ticks = Vec::new(alloc);
    for mark in marks {
        ticks.push(Tick {
            left: mark.left,
            words: &mark.words,
        })?;
    }
    Ok(ticks)
}

// Adds the whole picture.
fn push_whole(
    alloc: Global,
    text: &mut Vec<u8>,
    drawing: &Drawing<'_>,
    places: &Places,
    bars: &[Bar<'_>],
    all: &[Drawn],
    caption: &[u8],
) -> Result<(), AllocError> {
    let lines = lines_of(alloc, places, all)?;
    let marks = marks(alloc, places, !drawing.times.is_empty())?;
    let ticks = ticks_of(alloc, &marks)?;
    let mut rows = rows_of(alloc, &places.names)?;
    rows.truncate(MOST_ROWS);
    let height = height_of(places.count(), lines.len());
    push_picture(
        text,
        places.width(),
        height,
        caption,
        &rows,
        &ticks,
        bars,
        &lines,
    )
}

/// Appends the picture of a history as one SVG element.
///
/// # Errors
/// [`AllocError`] only where an allocation was refused.
pub fn push_drawing(
    alloc: Global,
    text: &mut Vec<u8>,
    drawing: &Drawing<'_>,
) -> Result<(), AllocError> {
    let history = drawing.history;
    let runs = runs(alloc, history)?;
    let places = places_of(alloc, history, &runs, drawing.times)?;
    let bars = bars_of(alloc, drawing, &places, &runs)?;
    let links = match drawing.event {
        Some(event) => links(alloc, history, event)?,
        None => Vec::new(alloc),
    };
    let mut all = Vec::new(alloc);
    add_races(alloc, drawing, &mut all)?;
    add_conflicts(alloc, drawing, &runs, &mut all)?;
    let races = all.len();
    add_links(alloc, history, &links, &mut all)?;
    let caption = caption(alloc, drawing, &places, runs.len(), races, links.len())?;
    push_whole(alloc, text, drawing, &places, &bars, &all, &caption)
}
