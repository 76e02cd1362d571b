//! Hints: paths that a list has, and that were other names of outputs.
use indexmap::IndexMap;
use rev_fields::{LineFault, path, read_fields};
use rev_graph::Graph;
use rev_hints::{listed_path, name_hints};
use rev_history::History;
use rev_paths::Name;
use rev_races_text::{Hint, Shown, Sources};
use std::alloc::{AllocError, Global};

// The first line of a file of names.
const HEAD: &[u8] = b"rebug-names 1";

// A name, where there is one.
fn name_of(alloc: Global, text: Option<&Vec<u8>>) -> Result<Option<Name>, AllocError> {
    let Some(text) = text else {
        return Ok(None);
    };
    match path(alloc, text) {
        Ok(name) => Ok(Some(name)),
        Err(LineFault::Memory) => Err(AllocError),
        Err(_) => Ok(None),
    }
}

// Adds what a line says: a path, and the own name of the file to which it leads. A line that says something else is left out.
fn add_line(
    alloc: Global,
    line: &[u8],
    names: &mut IndexMap<Name, Name>,
) -> Result<(), AllocError> {
    let texts = match read_fields(alloc, line) {
        Ok(texts) => texts,
        Err(LineFault::Memory) => return Err(AllocError),
        Err(_) => return Ok(()),
    };
    let name = name_of(alloc, texts.first())?;
    let own = name_of(alloc, texts.get(1))?;
    if let (Some(name), Some(own)) = (name, own) {
        names.insert(name, own)?;
    }
    Ok(())
}

/// What a file of names says; nothing where it has another first line.
pub fn names_in(alloc: Global, text: &[u8]) -> Result<IndexMap<Name, Name>, AllocError> {
    let mut names = IndexMap::new(alloc);
    let mut lines = text.split(|byte| *byte == b'\n');
    if lines.next() == Some(HEAD) {
        for line in lines {
            add_line(alloc, line, &mut names)?;
        }
    }
    Ok(names)
}

/// Of other names of files those of outputs, as [`name_hints`] takes them: no edge makes the name, and an edge makes the own
/// name of the file.
///
/// # Errors
/// [`AllocError`] only where an allocation was refused.
pub fn output_names(
    alloc: Global,
    graph: &Graph,
    names: &IndexMap<Name, Name>,
) -> Result<IndexMap<Name, Name>, AllocError> {
    let mut outputs = IndexMap::new(alloc);
    for (name, own) in names.iter() {
        if graph.producer(name).is_none() && graph.producer(own).is_some() {
            outputs.insert(name.copy()?, own.copy()?)?;
        }
    }
    Ok(outputs)
}

/// Whether the commands of an edge and of some others were all observed whole.
pub fn are_whole(whole: &[bool], edge: u32, others: &[u32]) -> bool {
    is_marked(whole, edge) && others.iter().all(|other| is_marked(whole, *other))
}

// Whether an edge has a mark.
fn is_marked(marks: &[bool], edge: u32) -> bool {
    match marks.get(edge as usize) {
        Some(mark) => *mark,
        None => false,
    }
}

/// The hints by other names of a history, whose manifest was read from these files, as [`name_hints`] gives them. `whole`
/// has the edges whose commands were observed whole.
///
/// # Errors
/// [`AllocError`] only where an allocation was refused.
pub fn hints_in<'a>(
    alloc: Global,
    history: &'a History,
    files: &[Name],
    names: &'a IndexMap<Name, Name>,
    sources: &Sources<'a>,
    whole: &[bool],
) -> Result<Vec<Hint<'a>>, AllocError> {
    let mut hints = Vec::new(alloc);
    if names.is_empty() {
        return Ok(hints);
    }
    let found = name_hints(alloc, history, files, names, whole)?;
    for hint in &found {
        if let Some(path) = listed_path(history, hint.user, hint.place)
            && let Some(output) = names.get(path)
        {
            hints.push(Hint {
                maker: sources.edge(hint.maker),
                output: Shown(output.as_bytes()),
                path: Shown(path.as_bytes()),
                user: sources.edge(hint.user),
            })?;
        }
    }
    Ok(hints)
}
