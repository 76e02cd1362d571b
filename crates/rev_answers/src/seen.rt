//! What commands were seen to do, as JSON.
use crate::by_dyndep::{Side, file_of, put_by};
use crate::object::Object;
use crate::told::{Context, path_of};
use crate::values::{View, put_edge, put_event, put_meant, put_name, run_value};
use rev_paths::Name;
use rev_prompt::{Deed, Kind, Naming, Need, Readers, Site, User, Writers};
use serde_json::Value;
use std::alloc::{AllocError, Global};

/// The word of a kind, as the file `observed` has it.
pub(crate) fn kind_word(kind: Kind) -> &'static str {
    match kind {
        Kind::Reads => "reads",
        Kind::Stats => "stats",
        Kind::Misses => "misses",
        Kind::Lists => "lists",
        Kind::Writes => "writes",
        Kind::Edits => "edits",
        Kind::Deletes => "deletes",
        Kind::Temps => "temps",
        Kind::Folders => "folders",
    }
}

// An event, and a look at a path that has to do with it.
fn look_value(
    alloc: Global,
    told: Context<'_>,
    number: u32,
    path: u64,
    look: Kind,
) -> Result<Value, AllocError> {
    let mut object = Object::new(alloc);
    put_event(&mut object, alloc, "event", View::of(told), Some(number))?;
    put_name(&mut object, alloc, "path", path_of(told, path))?;
    object.put_text(alloc, "how", kind_word(look))?;
    Ok(object.value())
}

/// Who was seen to look at what an event left.
pub(crate) fn users_value(
    alloc: Global,
    told: Context<'_>,
    users: &[User],
) -> Result<Value, AllocError> {
    let mut values = Vec::new(alloc);
    for user in users {
        values.push(look_value(alloc, told, user.number, user.path, user.look)?)?;
    }
    Ok(Value::from(values))
}

/// What an event rests on by what its command was seen to look at; null where nothing was observed.
pub(crate) fn looks_value(
    alloc: Global,
    told: Context<'_>,
    looks: Option<&Vec<Need>>,
) -> Result<Value, AllocError> {
    let Some(looks) = looks else {
        return Ok(Value::Null);
    };
    let mut values = Vec::new(alloc);
    for need in looks {
        values.push(look_value(alloc, told, need.number, need.path, need.look)?)?;
    }
    Ok(Value::from(values))
}

// An edge, and what it has to do with a path.
fn edge_object(alloc: Global, view: View<'_>, edge: u32, how: &str) -> Result<Object, AllocError> {
    let mut object = Object::new(alloc);
    put_edge(&mut object, alloc, "output", view.graph(), edge)?;
    object.put_text(alloc, "how", how)?;
    Ok(object)
}

// What a command does with a path, and its last run.
fn deed_value(alloc: Global, view: View<'_>, deed: &Deed) -> Result<Value, AllocError> {
    let mut object = edge_object(alloc, view, deed.edge, kind_word(deed.kind))?;
    let run = run_value(alloc, view, deed.run)?;
    object.put(alloc, "run", run)?;
    Ok(object.value())
}

// What commands do with a path.
fn deed_values(alloc: Global, view: View<'_>, deeds: &[Deed]) -> Result<Vec<Value>, AllocError> {
    let mut values = Vec::new(alloc);
    for deed in deeds {
        values.push(deed_value(alloc, view, deed)?)?;
    }
    Ok(values)
}

// An edge that has to do with a path by what is written, without a run; and the dyndep file by which the edge has the
// path.
fn written_value(
    alloc: Global,
    view: View<'_>,
    edge: u32,
    how: &str,
    file: Option<&Name>,
) -> Result<Value, AllocError> {
    let mut object = edge_object(alloc, view, edge, how)?;
    object.put(alloc, "run", Value::Null)?;
    put_by(&mut object, alloc, "dyndep", file)?;
    Ok(object.value())
}

// The edges that name a path as what they read.
fn naming_values(
    alloc: Global,
    told: Context<'_>,
    path: &Name,
    namings: &[Naming],
) -> Result<Vec<Value>, AllocError> {
    let mut values = Vec::new(alloc);
    for naming in namings {
        let (how, file) = match naming.site {
            Site::Line => (
                "input",
                file_of(alloc, told, naming.edge, Side::Input, path)?,
            ),
            Site::Listed => ("list", None),
        };
        values.push(written_value(alloc, View::of(told), naming.edge, how, file)?)?;
    }
    Ok(values)
}

// The edge that has a path as an output, if one has.
fn declared_values(
    alloc: Global,
    told: Context<'_>,
    path: &Name,
    edge: Option<u32>,
) -> Result<Vec<Value>, AllocError> {
    let mut values = Vec::new(alloc);
    if let Some(edge) = edge {
        let file = file_of(alloc, told, edge, Side::Output, path)?;
        values.push(written_value(alloc, View::of(told), edge, "output", file)?)?;
    }
    Ok(values)
}

// Edges that have to do with a path, on what that rests, and what may have been meant where there is none.
fn path_object(
    alloc: Global,
    told: Context<'_>,
    kind: &str,
    path: &Name,
    by: &str,
    commands: Vec<Value>,
) -> Result<Object, AllocError> {
    let mut object = Object::of_kind(alloc, kind)?;
    put_name(&mut object, alloc, "path", Some(path))?;
    object.put_text(alloc, "by", by)?;
    put_meant(&mut object, alloc, told, path, !commands.is_empty())?;
    object.put(alloc, "commands", Value::from(commands))?;
    Ok(object)
}

/// Which commands read a path.
pub(crate) fn readers(
    alloc: Global,
    told: Context<'_>,
    path: &Name,
    readers: &Readers,
) -> Result<Object, AllocError> {
    match readers {
        Readers::Observed(deeds) => {
            let commands = deed_values(alloc, View::of(told), deeds)?;
            path_object(alloc, told, "reads", path, "observation", commands)
        }
        Readers::Named(namings) => {
            let commands = naming_values(alloc, told, path, namings)?;
            path_object(alloc, told, "reads", path, "lines", commands)
        }
    }
}

/// Which commands write a path.
pub(crate) fn writers(
    alloc: Global,
    told: Context<'_>,
    path: &Name,
    writers: &Writers,
) -> Result<Object, AllocError> {
    match writers {
        Writers::Observed(deeds) => {
            let commands = deed_values(alloc, View::of(told), deeds)?;
            path_object(alloc, told, "writes", path, "observation", commands)
        }
        Writers::Declared(edge) => {
            let commands = declared_values(alloc, told, path, *edge)?;
            path_object(alloc, told, "writes", path, "lines", commands)
        }
    }
}
