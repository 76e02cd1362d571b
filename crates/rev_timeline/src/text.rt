//! The text of a timeline.
use crate::objects::{
    Arrow, Bar, BarArgs, EventArgs, Fact, Labelled, Moment, NameArgs, PROCESS, RaceArgs, RowName,
    SortArgs, ending_colour, ending_label, ending_word, push_object,
};
use crate::ran::Ran;
use crate::reasons::PlanReasons;
use crate::rows::{Rows, rows_of};
use crate::rules::Lines;
use rev_cells::Cells;
use rev_conflicts::{Conflict, ConflictKind, Place};
use rev_events::Event;
use rev_history::History;
use rev_observed::Observation;
use rev_queries::{Timed, time_at};
use rev_races::{Race, path_of};
use rev_races_text::{Shown, Sources, Text};
use rev_runs::is_kept;
use std::alloc::{AllocError, Global};

/// A plan, and the state after it.
#[derive(Clone, Copy)]
pub struct Planned<'a> {
    /// The number of its event.
    pub number: u32,
    /// The state after it.
    pub cells: &'a Cells,
}

/// What a timeline is made from.
#[derive(Clone, Copy)]
pub struct Timeline<'a> {
    /// What the timeline is called, as the folder of the recording.
    pub name: &'a [u8],
    /// The history.
    pub history: &'a History,
    /// The edges of the history's manifest, with their files.
    pub sources: Sources<'a>,
    /// When each event happened, in milliseconds, by the number of the event.
    pub times: &'a [Option<u32>],
    /// The races by what the commands list.
    pub races: &'a [Race],
    /// What the commands were observed to do. `None` where the recording has no observation.
    pub observation: Option<&'a Observation>,
    /// The conflicts of the observed commands.
    pub conflicts: &'a [Conflict],
    /// The chain of commands that the end of the build waited for, from the run that ended last.
    pub critical: &'a [Timed],
    /// The last plan, of whose runs the reasons are told.
    pub planned: Option<Planned<'a>>,
}

// The rows of a timeline, and where to find a run in them.
#[derive(Drop)]
struct Placed {
    rows: Rows,
    // For each edge one more than the place of its last run, or 0.
    lasts: Vec<usize>,
    // For each event that began a run one more than the place of the run, or 0.
    begun: Vec<usize>,
    // For each event that began a run, whether the end of the build waited for the run.
    critical: Vec<bool>,
}

impl Placed {
    // The run at a place, counted from 1, and its lane.
    fn at(&self, place: Option<&usize>) -> Option<(Ran, u64)> {
        let place = place?.checked_sub(1)?;
        let ran = self.rows.ran.get(place)?;
        let lane = self.rows.lanes.of.get(place)?;
        Some((*ran, (*lane as u64).saturating_add(1)))
    }

    // The lane of the run at a place, counted from 1.
    fn lane_at(&self, place: usize) -> u64 {
        let lane = self.rows.lanes.of.get(place).copied().unwrap_or(0);
        (lane as u64).saturating_add(1)
    }

    // Whether the end of the build waited for a run.
    fn is_critical(&self, ran: &Ran) -> bool {
        self.critical.get(ran.run.began as usize) == Some(&true)
    }

    // The last run of an edge.
    fn last_of(&self, edge: u32) -> Option<(Ran, u64)> {
        self.at(self.lasts.get(edge as usize))
    }

    // The run that an event began.
    fn begun_by(&self, number: u32) -> Option<(Ran, u64)> {
        self.at(self.begun.get(number as usize))
    }
}

// A time in microseconds.
fn micros(time: u32) -> u64 {
    u64::from(time) * 1000
}

// Sets what stands at a place, if there is one.
fn set<T: Copy>(all: &mut [T], place: u32, value: T) {
    if (place as usize) < all.len() {
        all[place as usize] = value;
    }
}

// The rows of a timeline, and where to find a run in them.
fn placed_rows(alloc: Global, timeline: &Timeline<'_>) -> Result<Placed, AllocError> {
    let history = timeline.history;
    let rows = rows_of(alloc, history, timeline.times)?;
    let numbers = (history.last() as usize).saturating_add(1);
    let mut lasts = vec![in alloc; 0; history.graph().edges() as usize]?;
    let mut begun = vec![in alloc; 0; numbers]?;
    for (place, ran) in rows.ran.iter().enumerate() {
        set(&mut lasts, ran.run.edge, place.saturating_add(1));
        set(&mut begun, ran.run.began, place.saturating_add(1));
    }
    let mut critical = vec![in alloc; false; numbers]?;
    for link in timeline.critical {
        set(&mut critical, link.began, true);
    }
    Ok(Placed {
        rows,
        lasts,
        begun,
        critical,
    })
}

// Adds the name of the process, and the names and the order of the rows.
fn add_rows(alloc: Global, text: &mut Vec<u8>, name: &[u8], lanes: u64) -> Result<(), AllocError> {
    let process = Fact {
        name: "process_name",
        ph: "M",
        pid: PROCESS,
        tid: 0,
        args: NameArgs {
            name: RowName::Recording(Shown(name)),
        },
    };
    push_object(alloc, text, true, &process)?;
    for row in 0..lanes.saturating_add(1) {
        let title = Fact {
            name: "thread_name",
            ph: "M",
            pid: PROCESS,
            tid: row,
            args: NameArgs {
                name: if row == 0 {
                    RowName::Events
                } else {
                    RowName::Lane(row)
                },
            },
        };
        push_object(alloc, text, false, &title)?;
        let order = Fact {
            name: "thread_sort_index",
            ph: "M",
            pid: PROCESS,
            tid: row,
            args: SortArgs { sort_index: row },
        };
        push_object(alloc, text, false, &order)?;
    }
    Ok(())
}

// The first output of an edge; nothing where there is no such edge.
fn name_of<'a>(sources: &Sources<'a>, edge: u32) -> Shown<'a> {
    sources.edge(edge).output.unwrap_or(Shown(b""))
}

// Adds the bar of a run.
fn add_bar(
    alloc: Global,
    text: &mut Vec<u8>,
    sources: &Sources<'_>,
    lines: &Lines,
    ran: &Ran,
    lane: u64,
    critical: bool,
    reasons: Option<&[&'static str]>,
) -> Result<(), AllocError> {
    let edge = sources.edge(ran.run.edge);
    let (rule, command): (&[u8], &[u8]) = match sources.builds.get(ran.run.edge as usize) {
        Some(build) => (lines.rule_of(sources.files, build), build.command()),
        None => (b"", b""),
    };
    let bar = Bar {
        name: Labelled {
            words: ending_label(ran.ending),
            name: name_of(sources, ran.run.edge),
        },
        cat: Shown(rule),
        ph: "X",
        ts: micros(ran.span.from),
        dur: micros(ran.span.to.saturating_sub(ran.span.from)),
        pid: PROCESS,
        tid: lane,
        cname: ending_colour(ran.ending),
        args: BarArgs {
            status: ending_word(ran.ending),
            began: ran.run.began,
            ended: ran.run.ended,
            job: ran.run.job,
            critical,
            reasons,
            file: edge.file,
            line: edge.line,
            command: Text(command),
        },
    };
    push_object(alloc, text, false, &bar)
}

// Adds the bars of the runs, those that began after the plan with their reasons. `words` is room for these.
fn add_each_bar(
    alloc: Global,
    text: &mut Vec<u8>,
    sources: &Sources<'_>,
    lines: &Lines,
    placed: &Placed,
    plan: u32,
    reasons: &mut PlanReasons<'_>,
    words: &mut Vec<&'static str>,
) -> Result<(), AllocError> {
    for (place, ran) in placed.rows.ran.iter().enumerate() {
        let lane = placed.lane_at(place);
        let is_critical = placed.is_critical(ran);
        words.clear();
        let is_planned = plan < ran.run.began;
        if is_planned {
            reasons.push_words(ran.run.edge, words)?;
        }
        let whys: Option<&[&'static str]> = if is_planned {
            Some(words.as_slice())
        } else {
            None
        };
        add_bar(alloc, text, sources, lines, ran, lane, is_critical, whys)?;
    }
    Ok(())
}

// Adds the bars of the runs, with reasons those of the last plan.
fn add_bars(
    alloc: Global,
    text: &mut Vec<u8>,
    timeline: &Timeline<'_>,
    placed: &Placed,
) -> Result<(), AllocError> {
    let sources = &timeline.sources;
    let graph = timeline.history.graph();
    let lines = Lines::new(alloc, sources.files)?;
    let (plan, cells) = match timeline.planned {
        Some(planned) => (planned.number, planned.cells),
        None => (u32::MAX, timeline.history.cells()),
    };
    let mut reasons = PlanReasons::new(alloc, graph, cells);
    let mut words = Vec::new(alloc);
    add_each_bar(
        alloc,
        text,
        sources,
        &lines,
        placed,
        plan,
        &mut reasons,
        &mut words,
    )
}

// The words and the name of an event that begins and ends no command. A `pass` and a `clean` take no time and are many,
// so they have none.
fn moment_of(event: &Event) -> Option<(&'static str, &[u8])> {
    match event {
        Event::Plan(_) => Some(("plan", b"")),
        Event::Touch { path, .. } => Some(("touch ", path.as_bytes())),
        Event::Interrupt => Some(("interrupt", b"")),
        Event::Resize { .. } => Some(("resize", b"")),
        _ => None,
    }
}

// Adds the kept events that begin and end no command.
fn add_moments(
    alloc: Global,
    text: &mut Vec<u8>,
    history: &History,
    times: &[Option<u32>],
) -> Result<(), AllocError> {
    for number in 1..history.last().saturating_add(1) {
        let (Some(event), Some(time)) = (history.event(number), time_at(times, number)) else {
            continue;
        };
        let Some((words, name)) = moment_of(event) else {
            continue;
        };
        if is_kept(history, number) {
            let moment = Moment {
                name: Labelled {
                    words,
                    name: Shown(name),
                },
                cat: "event",
                ph: "i",
                s: "t",
                ts: micros(time),
                pid: PROCESS,
                tid: 0,
                args: EventArgs { event: number },
            };
            push_object(alloc, text, false, &moment)?;
        }
    }
    Ok(())
}

// Adds a race of two edges at the beginning of its user's last run, where that has its times.
fn add_race(
    alloc: Global,
    text: &mut Vec<u8>,
    sources: &Sources<'_>,
    placed: &Placed,
    words: &'static str,
    path: &[u8],
    maker: u32,
    user: u32,
) -> Result<(), AllocError> {
    let Some((ran, lane)) = placed.last_of(user) else {
        return Ok(());
    };
    let moment = Moment {
        name: Labelled {
            words,
            name: Shown(path),
        },
        cat: "race",
        ph: "i",
        s: "t",
        ts: micros(ran.span.from),
        pid: PROCESS,
        tid: lane,
        args: RaceArgs {
            path: Shown(path),
            maker: sources.edge(maker).output,
            user: sources.edge(user).output,
        },
    };
    push_object(alloc, text, false, &moment)
}

// Adds the races by what commands list.
fn add_races(
    alloc: Global,
    text: &mut Vec<u8>,
    timeline: &Timeline<'_>,
    placed: &Placed,
) -> Result<(), AllocError> {
    for race in timeline.races {
        if let Some(path) = path_of(timeline.history, race) {
            let (maker, user) = (race.maker, race.user);
            add_race(
                alloc,
                text,
                &timeline.sources,
                placed,
                "race: ",
                path.as_bytes(),
                maker,
                user,
            )?;
        }
    }
    Ok(())
}

// What stands before the path of a conflict.
fn conflict_words(kind: ConflictKind) -> &'static str {
    match kind {
        ConflictKind::Clash => "observed clash: ",
        ConflictKind::Race { .. } => "observed race: ",
        ConflictKind::Cycle { .. } => "observed cycle: ",
        ConflictKind::Unstable { .. } => "observed unstable file: ",
    }
}

// The path of a conflict, which of a folder's entries is that of the folder.
fn conflict_path(observation: &Observation, place: Place) -> &[u8] {
    let (Place::File(path) | Place::Entries(path)) = place;
    let paths = observation.paths();
    if path >= paths.len() {
        return b"";
    }
    paths.path(path).as_bytes()
}

// Adds the conflicts that were observed.
fn add_conflicts(
    alloc: Global,
    text: &mut Vec<u8>,
    timeline: &Timeline<'_>,
    placed: &Placed,
) -> Result<(), AllocError> {
    let Some(observation) = timeline.observation else {
        return Ok(());
    };
    for conflict in timeline.conflicts {
        add_race(
            alloc,
            text,
            &timeline.sources,
            placed,
            conflict_words(conflict.kind),
            conflict_path(observation, conflict.place),
            conflict.maker,
            conflict.user,
        )?;
    }
    Ok(())
}

// An end of an arrow of the critical chain.
fn arrow(ph: &'static str, id: u32, ts: u64, tid: u64) -> Arrow {
    Arrow {
        name: "critical",
        cat: "critical",
        ph,
        bp: "e",
        id,
        ts,
        pid: PROCESS,
        tid,
    }
}

// Adds the arrow from the end of a run to the beginning of the run that waited for it. The arrow begins a microsecond
// before that end where the run took any time, since a viewer looks for the bar around it.
fn add_arrow(
    alloc: Global,
    text: &mut Vec<u8>,
    placed: &Placed,
    before: u32,
    after: u32,
) -> Result<(), AllocError> {
    let (Some((from, from_lane)), Some((to, to_lane))) = (
        placed.begun_by(before),
        placed.begun_by(after),
    ) else {
        return Ok(());
    };
    let end = micros(from.span.to).saturating_sub(1);
    let beginning = micros(from.span.from);
    let leaves = if end < beginning { beginning } else { end };
    push_object(alloc, text, false, &arrow("s", after, leaves, from_lane))?;
    let arrives = micros(to.span.from);
    push_object(alloc, text, false, &arrow("f", after, arrives, to_lane))
}

// Adds the arrows of the critical chain.
fn add_chain(
    alloc: Global,
    text: &mut Vec<u8>,
    chain: &[Timed],
    placed: &Placed,
) -> Result<(), AllocError> {
    let mut after: Option<u32> = None;
    for link in chain {
        if let Some(after) = after {
            add_arrow(alloc, text, placed, link.began, after)?;
        }
        after = Some(link.began);
    }
    Ok(())
}

/// The timeline of a history as a JSON object in Chrome's trace format, an object of it a line: a bar for each run of
/// [`rows_of`] in its lane; a moment for each kept event that has a time and begins and ends no command; one for each race
/// and observed conflict, at the beginning of its user's last run; arrows along the critical chain. Times are in
/// microseconds, as the format wants them, from the beginning of the recording.
///
/// # Errors
/// [`AllocError`] only where an allocation was refused.
pub fn timeline_text(alloc: Global, timeline: &Timeline<'_>) -> Result<Vec<u8>, AllocError> {
    let placed = placed_rows(alloc, timeline)?;
    let mut text = Vec::new(alloc);
    text.extend_from_slice(b"{\"displayTimeUnit\":\"ms\",\"traceEvents\":[")?;
    let lanes = placed.rows.lanes.count as u64;
    add_rows(alloc, &mut text, timeline.name, lanes)?;
    add_bars(alloc, &mut text, timeline, &placed)?;
    add_moments(alloc, &mut text, timeline.history, timeline.times)?;
    add_races(alloc, &mut text, timeline, &placed)?;
    add_conflicts(alloc, &mut text, timeline, &placed)?;
    add_chain(alloc, &mut text, timeline.critical, &placed)?;
    text.extend_from_slice(b"\n]}\n")?;
    Ok(text)
}
