//! Edges, files and times as JSON.
use crate::by_dyndep::{Side, added_to, file_by, file_of, parted, put_by};
use crate::description::description_of;
use crate::facts::{also_read, flags_of};
use crate::found::{kinds_of, marked_input, rebuilt_marks};
use crate::meant::unknown_paths;
use crate::object::Object;
use crate::seen::kind_word;
use crate::statements::{build_of, file_name, is_phony, listed, rule_of};
use crate::target::put_target;
use crate::times::took;
use crate::told::{Context, history_of};
use crate::values::{View, because_value, names_value, put_edge, put_meant, run_value, text_value};
use crate::waiting::{Crowd, Held, held_of, link_behind};
use rev_manifest::Build;
use rev_paths::Name;
use rev_prompt::{Chain, Deed, EdgeFound, Found, Kind, Place, Reading, Rebuilt, Timed};
use rev_shown::push_shown;
use serde_json::Value;
use std::alloc::{AllocError, Global};

// Bytes as people read a name.
fn shown_value(alloc: Global, bytes: Option<&[u8]>) -> Result<Value, AllocError> {
    let Some(bytes) = bytes else {
        return Ok(Value::Null);
    };
    let mut text = Vec::new(alloc);
    push_shown(&mut text, bytes)?;
    text_value(alloc, &text)
}

// Names.
fn paths_value(alloc: Global, names: &[Name]) -> Result<Value, AllocError> {
    let mut values = Vec::new(alloc);
    for name in names {
        values.push(shown_value(alloc, Some(name.as_bytes()))?)?;
    }
    Ok(Value::from(values))
}

// Adds names.
fn put_paths(
    object: &mut Object,
    alloc: Global,
    name: &str,
    names: &[Name],
) -> Result<(), AllocError> {
    let value = paths_value(alloc, names)?;
    object.put(alloc, name, value)
}

// Adds an edge by its first output and the place of its build statement.
fn put_placed(
    object: &mut Object,
    alloc: Global,
    told: Context<'_>,
    edge: u32,
) -> Result<(), AllocError> {
    put_edge(object, alloc, "output", history_of(told).graph(), edge)?;
    let Some(build) = build_of(told, edge) else {
        return Ok(());
    };
    let file = shown_value(alloc, file_name(told, build))?;
    object.put(alloc, "file", file)?;
    object.put_number(alloc, "line", build.line())?;
    put_target(object, alloc, told, edge)
}

// An edge by its first output and the place of its build statement.
fn placed(alloc: Global, told: Context<'_>, edge: u32) -> Result<Object, AllocError> {
    let mut object = Object::new(alloc);
    put_placed(&mut object, alloc, told, edge)?;
    Ok(object)
}

// Edges.
fn edges_value(alloc: Global, told: Context<'_>, edges: &[u32]) -> Result<Value, AllocError> {
    let mut values = Vec::new(alloc);
    for edge in edges {
        values.push(placed(alloc, told, *edge)?.value())?;
    }
    Ok(Value::from(values))
}

// The flags of an edge that are set.
fn flags_value(alloc: Global, build: &Build) -> Result<Value, AllocError> {
    let mut values = Vec::new(alloc);
    let flags = flags_of(build);
    for (is_set, word) in &flags {
        if *is_set {
            values.push(text_value(alloc, word.as_bytes())?)?;
        }
    }
    Ok(Value::from(values))
}

// Adds the paths of a build line.
fn put_line(object: &mut Object, alloc: Global, build: &Build) -> Result<(), AllocError> {
    put_paths(object, alloc, "explicit", build.explicit())?;
    put_paths(object, alloc, "implicit", build.implicit())?;
    put_paths(object, alloc, "order_only", build.order_only())?;
    put_paths(object, alloc, "validations", build.validations())?;
    put_paths(object, alloc, "outputs", build.explicit_outs())?;
    put_paths(object, alloc, "implicit_outputs", build.implicit_outs())
}

// Adds what a dyndep file adds to an edge: the file, the inputs and the outputs; nothing where none does.
fn put_added(
    object: &mut Object,
    alloc: Global,
    told: Context<'_>,
    build: &Build,
    edge: u32,
) -> Result<(), AllocError> {
    let Some(added) = added_to(told, edge) else {
        return Ok(());
    };
    let mut one = Object::new(alloc);
    put_by(&mut one, alloc, "file", Some(added.file()))?;
    let inputs = parted(alloc, added, Side::Input, build.implicit(), true)?;
    put_paths(&mut one, alloc, "inputs", &inputs)?;
    let outputs = parted(alloc, added, Side::Output, build.implicit_outs(), true)?;
    put_paths(&mut one, alloc, "outputs", &outputs)?;
    object.put(alloc, "dyndep", one.value())
}

// Adds the pool of an edge, with its depth; null where it has none.
fn put_pool(
    object: &mut Object,
    alloc: Global,
    told: Context<'_>,
    build: &Build,
) -> Result<(), AllocError> {
    let pool = match build.pool() {
        Some(pool) => told.session.pools.get(pool as usize),
        None => None,
    };
    let (name, depth) = match pool {
        Some((name, depth)) => (Some(name.as_slice()), Some(*depth)),
        None => (None, None),
    };
    let name = shown_value(alloc, name)?;
    object.put(alloc, "pool", name)?;
    object.put(alloc, "depth", Value::from(depth))
}

// Adds the rule, the command and what goes with it.
fn put_command(
    object: &mut Object,
    alloc: Global,
    told: Context<'_>,
    build: &Build,
) -> Result<(), AllocError> {
    let rule = shown_value(alloc, rule_of(told, build))?;
    object.put(alloc, "rule", rule)?;
    let command = text_value(alloc, build.command())?;
    object.put(alloc, "command", command)?;
    let description = description_of(alloc, told, build)?;
    let description = text_value(alloc, &description)?;
    object.put(alloc, "description", description)?;
    let depfile = shown_value(alloc, Some(build.depfile()))?;
    object.put(alloc, "depfile", depfile)?;
    let rspfile = shown_value(alloc, Some(build.rspfile()))?;
    object.put(alloc, "response_file", rspfile)?;
    let flags = flags_value(alloc, build)?;
    object.put(alloc, "flags", flags)?;
    put_pool(object, alloc, told, build)
}

// Adds what is read of an edge's list, and what its command was seen to read besides.
fn put_read(
    object: &mut Object,
    alloc: Global,
    told: Context<'_>,
    build: &Build,
    edge: u32,
) -> Result<(), AllocError> {
    put_paths(object, alloc, "listed", listed(told, edge))?;
    let besides = match also_read(alloc, told, build, edge)? {
        Some(names) => paths_value(alloc, &names)?,
        None => Value::Null,
    };
    object.put(alloc, "read_besides", besides)
}

// An edge.
fn edge(alloc: Global, told: Context<'_>, found: &EdgeFound) -> Result<Object, AllocError> {
    let mut object = Object::of_kind(alloc, "edge")?;
    put_placed(&mut object, alloc, told, found.edge)?;
    if let Some(build) = build_of(told, found.edge) {
        put_command(&mut object, alloc, told, build)?;
        put_line(&mut object, alloc, build)?;
        put_added(&mut object, alloc, told, build, found.edge)?;
        put_read(&mut object, alloc, told, build, found.edge)?;
    }
    let users = edges_value(alloc, told, &found.users)?;
    object.put(alloc, "users", users)?;
    let run = run_value(alloc, View::of(told), found.run)?;
    object.put(alloc, "run", run)?;
    let milliseconds = match found.run {
        Some(run) => took(told, run),
        None => None,
    };
    object.put(alloc, "took", Value::from(milliseconds))?;
    Ok(object)
}

// The word of a place on a build line.
fn place_word(place: Place) -> &'static str {
    match place {
        Place::Explicit => "explicit",
        Place::Implicit => "implicit",
        Place::OrderOnly => "order-only",
        Place::Validation => "validation",
    }
}

// A text, where there is one.
fn word_or_null(alloc: Global, word: Option<&str>) -> Result<Value, AllocError> {
    match word {
        Some(word) => text_value(alloc, word.as_bytes()),
        None => Ok(Value::Null),
    }
}

// What an edge has to do with a path.
fn reading_value(
    alloc: Global,
    told: Context<'_>,
    path: &Name,
    reading: &Reading,
    kind: Option<Kind>,
) -> Result<Value, AllocError> {
    let mut object = placed(alloc, told, reading.edge)?;
    let place = word_or_null(alloc, reading.place.map(place_word))?;
    object.put(alloc, "place", place)?;
    object.put_flag(alloc, "listed", reading.listed)?;
    let seen = word_or_null(alloc, kind.map(kind_word))?;
    object.put(alloc, "seen", seen)?;
    if reading.place == Some(Place::Implicit) {
        let file = file_of(alloc, told, reading.edge, Side::Input, path)?;
        put_by(&mut object, alloc, "dyndep", file)?;
    }
    Ok(object.value())
}

// An edge whose command was seen to do something.
fn deed_value(alloc: Global, told: Context<'_>, deed: &Deed) -> Result<Value, AllocError> {
    let mut object = placed(alloc, told, deed.edge)?;
    object.put(alloc, "place", Value::Null)?;
    object.put_flag(alloc, "listed", false)?;
    object.put_text(alloc, "seen", kind_word(deed.kind))?;
    Ok(object.value())
}

// Which edges have a path as what they read: those by what is written, and then those that were only seen to.
fn readings_value(
    alloc: Global,
    told: Context<'_>,
    path: &Name,
    readings: &[Reading],
    deeds: &[Deed],
) -> Result<Value, AllocError> {
    let mut kinds = kinds_of(alloc, history_of(told).graph(), deeds)?;
    let mut values = Vec::new(alloc);
    for reading in readings {
        let kind = kinds.get(reading.edge as usize).copied().unwrap_or(None);
        values.push(reading_value(alloc, told, path, reading, kind)?)?;
        if let Some(slot) = kinds.get_mut(reading.edge as usize) {
            *slot = None;
        }
    }
    for deed in deeds {
        if kinds
            .get(deed.edge as usize)
            .copied()
            .unwrap_or(None)
            .is_some()
        {
            values.push(deed_value(alloc, told, deed)?)?;
        }
    }
    Ok(Value::from(values))
}

// The deeds that there are.
fn deeds_in(deeds: Option<&Vec<Deed>>) -> &[Deed] {
    match deeds {
        Some(deeds) => deeds,
        None => &[],
    }
}

// An object about a path.
fn path_object(
    alloc: Global,
    kind: &str,
    path: &Name,
    is_observed: bool,
) -> Result<Object, AllocError> {
    let mut object = Object::of_kind(alloc, kind)?;
    let path = shown_value(alloc, Some(path.as_bytes()))?;
    object.put(alloc, "path", path)?;
    object.put_flag(alloc, "observed", is_observed)?;
    Ok(object)
}

// Which edges have a path as what they read.
fn reads(
    alloc: Global,
    told: Context<'_>,
    path: &Name,
    readings: &[Reading],
    deeds: Option<&Vec<Deed>>,
) -> Result<Object, AllocError> {
    let mut object = path_object(alloc, "readers", path, deeds.is_some())?;
    let edges = readings_value(alloc, told, path, readings, deeds_in(deeds))?;
    object.put(alloc, "edges", edges)?;
    let is_found = !readings.is_empty() || !deeds_in(deeds).is_empty();
    put_meant(&mut object, alloc, told, path, is_found)?;
    Ok(object)
}

// The edge that has a path as an output, and the dyndep file by which it has it.
fn maker_value(
    alloc: Global,
    told: Context<'_>,
    path: &Name,
    edge: u32,
) -> Result<Value, AllocError> {
    let mut object = placed(alloc, told, edge)?;
    let file = file_of(alloc, told, edge, Side::Output, path)?;
    put_by(&mut object, alloc, "dyndep", file)?;
    Ok(object.value())
}

// Which edge has a path as an output, and who was seen to change it.
fn makes(
    alloc: Global,
    told: Context<'_>,
    path: &Name,
    producer: Option<u32>,
    deeds: Option<&Vec<Deed>>,
) -> Result<Object, AllocError> {
    let mut object = path_object(alloc, "makers", path, deeds.is_some())?;
    let maker = match producer {
        Some(edge) => maker_value(alloc, told, path, edge)?,
        None => Value::Null,
    };
    object.put(alloc, "maker", maker)?;
    let mut values = Vec::new(alloc);
    for deed in deeds_in(deeds) {
        values.push(deed_value(alloc, told, deed)?)?;
    }
    object.put(alloc, "edges", Value::from(values))?;
    let is_found = producer.is_some() || !deeds_in(deeds).is_empty();
    put_meant(&mut object, alloc, told, path, is_found)?;
    Ok(object)
}

// Edges, and which of them are phony.
fn edges(alloc: Global, told: Context<'_>, edges: &[u32]) -> Result<Object, AllocError> {
    let mut object = Object::of_kind(alloc, "edges")?;
    let mut values = Vec::new(alloc);
    for edge in edges {
        let mut one = placed(alloc, told, *edge)?;
        one.put_flag(alloc, "phony", is_phony(told, *edge))?;
        values.push(one.value())?;
    }
    object.put(alloc, "edges", Value::from(values))?;
    Ok(object)
}

// A name, where there is one, as people read it.
fn name_or_null(alloc: Global, name: Option<&Name>) -> Result<Value, AllocError> {
    match name {
        Some(name) => shown_value(alloc, Some(name.as_bytes())),
        None => Ok(Value::Null),
    }
}

// Adds the input that is to be made before an edge, or none, and the dyndep file by which the edge has it.
fn put_behind(
    object: &mut Object,
    alloc: Global,
    told: Context<'_>,
    edge: u32,
    input: Option<&Name>,
) -> Result<(), AllocError> {
    let behind = name_or_null(alloc, input)?;
    object.put(alloc, "behind", behind)?;
    match input {
        Some(input) => put_by(
            object,
            alloc,
            "dyndep",
            file_by(told, edge, Side::Input, input),
        ),
        None => Ok(()),
    }
}

// An edge that would be to do: its first reason, or else the input that is to be made before it.
fn rebuilt_value(
    alloc: Global,
    told: Context<'_>,
    marks: &[bool],
    rebuilt: &Rebuilt,
) -> Result<Value, AllocError> {
    let mut object = placed(alloc, told, rebuilt.edge)?;
    object.put_flag(alloc, "phony", is_phony(told, rebuilt.edge))?;
    let (because, behind) = match &rebuilt.because {
        Some(because) => (because_value(alloc, told, rebuilt.edge, because)?, None),
        None => (Value::Null, marked_input(told, marks, rebuilt.edge)),
    };
    object.put(alloc, "reason", because)?;
    put_behind(&mut object, alloc, told, rebuilt.edge, behind)?;
    Ok(object.value())
}

// The paths that no edge names, with what may have been meant.
fn unknown_value(alloc: Global, told: Context<'_>) -> Result<Value, AllocError> {
    let mut values = Vec::new(alloc);
    let unknown = unknown_paths(alloc, told)?;
    for (path, near) in &unknown {
        let mut object = Object::new(alloc);
        let path = name_or_null(alloc, Some(*path))?;
        object.put(alloc, "path", path)?;
        let near = names_value(alloc, near)?;
        object.put(alloc, "meant", near)?;
        values.push(object.value())?;
    }
    Ok(Value::from(values))
}

// What would be to do if files were touched.
fn rebuilds(alloc: Global, told: Context<'_>, all: &[Rebuilt]) -> Result<Object, AllocError> {
    let mut object = Object::of_kind(alloc, "rebuilds")?;
    let marks = rebuilt_marks(alloc, history_of(told).graph(), all)?;
    let mut values = Vec::new(alloc);
    for rebuilt in all {
        values.push(rebuilt_value(alloc, told, &marks, rebuilt)?)?;
    }
    object.put(alloc, "edges", Value::from(values))?;
    let unknown = unknown_value(alloc, told)?;
    object.put(alloc, "unknown", unknown)?;
    Ok(object)
}

// A run with its times.
fn timed_object(alloc: Global, told: Context<'_>, timed: &Timed) -> Result<Object, AllocError> {
    let mut object = placed(alloc, told, timed.edge)?;
    object.put_number(alloc, "began", u64::from(timed.began))?;
    object.put_number(alloc, "ended", u64::from(timed.ended))?;
    object.put_number(alloc, "from", u64::from(timed.from))?;
    object.put_number(alloc, "to", u64::from(timed.to))?;
    object.put_number(alloc, "took", u64::from(timed.took()))?;
    Ok(object)
}

// The runs that took most time.
fn slowest(alloc: Global, told: Context<'_>, runs: &[Timed]) -> Result<Object, AllocError> {
    let mut object = Object::of_kind(alloc, "slowest")?;
    let mut values = Vec::new(alloc);
    for timed in runs {
        values.push(timed_object(alloc, told, timed)?.value())?;
    }
    object.put(alloc, "runs", Value::from(values))?;
    object.put_flag(alloc, "whole", true)?;
    Ok(object)
}

// The word of what held a command.
fn held_word(held: Held) -> &'static str {
    match held {
        Held::ByJobs(_) => "jobs",
        Held::ByPool => "pool",
    }
}

// Adds what held a command.
fn put_held(object: &mut Object, alloc: Global, held: Option<Held>) -> Result<(), AllocError> {
    match held {
        Some(held) => object.put_text(alloc, "held", held_word(held)),
        None => object.put(alloc, "held", Value::Null),
    }
}

// The chain of commands that the end of a build waited for.
fn critical(alloc: Global, told: Context<'_>, chain: &Chain) -> Result<Object, AllocError> {
    let mut object = Object::of_kind(alloc, "critical")?;
    let crowd = Crowd::new(alloc, told)?;
    let mut values = Vec::new(alloc);
    for (place, timed) in chain.links.iter().enumerate() {
        let mut link = timed_object(alloc, told, timed)?;
        let held = held_of(told, &crowd, timed, link_behind(chain, place));
        put_held(&mut link, alloc, held)?;
        values.push(link.value())?;
    }
    object.put(alloc, "runs", Value::from(values))?;
    object.put_flag(alloc, "whole", chain.next.is_none())?;
    Ok(object)
}

/// What a question about edges, files and times is answered. All of it stands there.
///
/// # Errors
/// [`AllocError`] only where an allocation was refused.
pub(crate) fn found_object(
    alloc: Global,
    told: Context<'_>,
    found: &Found,
) -> Result<Object, AllocError> {
    match found {
        Found::Edge(of) => edge(alloc, told, of),
        Found::Edges(of) => edges(alloc, told, of),
        Found::Reads(path, readings, deeds) => reads(alloc, told, path, readings, deeds.as_ref()),
        Found::Makes(path, producer, deeds) => makes(alloc, told, path, *producer, deeds.as_ref()),
        Found::Rebuilds(of) => rebuilds(alloc, told, of),
        Found::Slowest(runs) => slowest(alloc, told, runs),
        Found::Critical(chain) => critical(alloc, told, chain),
        Found::NoTimes => Object::of_kind(alloc, "no times"),
    }
}
