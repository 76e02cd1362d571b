//! Outputs that are named by a pattern, or by a phony name.
use crate::question::{is_kind, is_number};
use rev_desk::Desk;
use rev_graph::Graph;
use rev_paths::{Name, PathFault};
use rev_queries::edges_like;
use rev_shown::first_output;
use rev_waits::{makers, phony_steps};
use std::alloc::{AllocError, Global};

/// Outputs that one question is asked about, one by one.
pub struct Several {
    /// The outputs, as texts that are typed.
    pub outputs: Vec<Vec<u8>>,
    /// Whether a phony name stands for them, and no pattern.
    pub is_phony: bool,
    /// Which text of the line stands for them; the word that begins it is 0.
    pub place: usize,
}

// Written, since a derived drop is proved again at each exit of each caller.
impl Drop for Several {
    fn drop(self) {
        let Several {
            outputs: _outputs,
            is_phony: _is_phony,
            place: _place,
        } = self;
    }
}

// Whether a word asks about a run of an output's command.
fn asks_of_run(word: &[u8]) -> bool {
    word == b"who".as_slice() || word == b"why".as_slice() || word == b"with".as_slice()
}

// Whether a word asks about an output, and changes nothing.
fn asks_of_output(word: &[u8]) -> bool {
    asks_of_run(word) || word == b"edge".as_slice() || word == b"marks".as_slice()
}

// Whether a word asks about an event, and changes nothing.
fn asks_of_event(word: &[u8]) -> bool {
    word == b"needs".as_slice()
        || word == b"dependents".as_slice()
        || word == b"what".as_slice()
        || word == b"edge".as_slice()
}

// The place of the text that names an output, of texts that name an event, the first two of which have these places.
fn output_place(texts: &[Vec<u8>], first: usize, second: usize) -> Option<usize> {
    match texts {
        [kind, _out, ..] if is_kind(kind) => Some(second),
        [_out, ..] => Some(first),
        [] => None,
    }
}

// The place of the text that names an output in a line that only asks.
fn place_in(texts: &[Vec<u8>]) -> Option<usize> {
    match texts {
        [word, _out] if asks_of_output(word) => Some(1),
        [word, rest @ ..] if asks_of_event(word) => output_place(rest, 1, 2),
        [would, cone, rest @ ..]
            if would.as_slice() == b"would".as_slice() && cone.as_slice() == b"cone".as_slice() => {
            output_place(rest, 2, 3)
        }
        _ => None,
    }
}

// An output as a text that is typed, which no word takes for the number of an event or for a kind of events.
fn typed(alloc: Global, output: &[u8]) -> Result<Vec<u8>, AllocError> {
    let mut text = Vec::new(alloc);
    if is_number(output) || is_kind(output) {
        text.extend_from_slice(b"./")?;
    }
    text.extend_from_slice(output)?;
    Ok(text)
}

// The path that a text is; none where it is none.
fn path_of(alloc: Global, text: &[u8]) -> Result<Option<Name>, AllocError> {
    match Name::new(alloc, text) {
        Ok(name) => Ok(Some(name)),
        Err(PathFault::Memory) => Err(AllocError),
        Err(_) => Ok(None),
    }
}

// The first outputs of edges.
fn first_outputs(alloc: Global, graph: &Graph, edges: &[u32]) -> Result<Vec<Vec<u8>>, AllocError> {
    let mut outputs = Vec::new(alloc);
    for edge in edges {
        if let Some(name) = first_output(graph, *edge) {
            outputs.push(typed(alloc, name.as_bytes())?)?;
        }
    }
    Ok(outputs)
}

// The outputs that a phony name stands for: the first one of each edge with a command that makes it. None where it
// stands for no command.
fn behind_phony(
    alloc: Global,
    graph: &Graph,
    name: &Name,
    place: usize,
) -> Result<Option<Several>, AllocError> {
    let steps = phony_steps(alloc, graph)?;
    let edges = makers(alloc, graph, &steps, name)?;
    if edges.is_empty() {
        return Ok(None);
    }
    Ok(Some(Several {
        outputs: first_outputs(alloc, graph, &edges)?,
        is_phony: true,
        place,
    }))
}

// The outputs that a word is asked about where it names an output: those behind a phony name, where it asks about a run.
fn behind_output(
    alloc: Global,
    graph: &Graph,
    word: &[u8],
    name: &Name,
    producer: u32,
    place: usize,
) -> Result<Option<Several>, AllocError> {
    if asks_of_run(word) && producer < graph.edges() && graph.is_phony(producer) {
        return behind_phony(alloc, graph, name, place);
    }
    Ok(None)
}

// The outputs that match a pattern: the first one of each edge that has one. None where a text is no pattern.
fn matching(
    alloc: Global,
    graph: &Graph,
    pattern: &[u8],
    place: usize,
) -> Result<Option<Several>, AllocError> {
    if !pattern.contains(&b'*') {
        return Ok(None);
    }
    let edges = edges_like(alloc, graph, pattern)?;
    Ok(Some(Several {
        outputs: first_outputs(alloc, graph, &edges)?,
        is_phony: false,
        place,
    }))
}

/// The outputs that a text of a line stands for, where the line only asks and that text is a pattern or a phony name. The
/// line takes an output or an event at one: `needs finish *.o all`. A pattern stands for the first output of each edge
/// that has one which matches. A phony name stands for the first output of each edge with a command that makes it, where
/// the word asks about a run of a command. `None` where the texts stand for themselves.
///
/// # Errors
/// [`AllocError`] only where an allocation was refused.
pub fn outputs_meant(
    alloc: Global,
    desk: &Desk,
    texts: &[Vec<u8>],
) -> Result<Option<Several>, AllocError> {
    let Some(place) = place_in(texts) else {
        return Ok(None);
    };
    let (Some(word), Some(text)) = (texts.first(), texts.get(place)) else {
        return Ok(None);
    };
    let graph = desk.history().graph();
    let Some(name) = path_of(alloc, text)? else {
        return matching(alloc, graph, text, place);
    };
    match graph.producer(&name) {
        Some(producer) => behind_output(alloc, graph, word, &name, producer, place),
        None => matching(alloc, graph, text, place),
    }
}
