//! What is answered about orders.
use crate::answer::push_answer;
use crate::asked::Wanted;
use crate::fault::WordFault;
use crate::listing::{Listed, list_orders};
use rev_document::{Document, Writer};
use rev_document_json::json_of;
use rev_document_words::{Look, words_of};
use rev_graph::Graph;
use std::alloc::{AllocError, Global};

// How many edges times how many commands there are at most. What waits for what takes a bit for each edge and command.
const MOST_PAIRS: u64 = 4_294_967_296;

// The document of the answer.
fn document_of(alloc: Global, graph: &Graph, listed: &Listed) -> Result<Document, AllocError> {
    let mut writer = Writer::new(alloc);
    push_answer(alloc, &mut writer, graph, listed)?;
    writer.finish()
}

// The words or the JSON of the answer.
fn text_of(
    alloc: Global,
    graph: &Graph,
    listed: &Listed,
    json: bool,
) -> Result<Vec<u8>, AllocError> {
    let document = document_of(alloc, graph, listed)?;
    if json {
        return json_of(alloc, &document);
    }
    let look = Look {
        is_coloured: false,
        is_all: false,
    };
    words_of(alloc, &document, look)
}

/// The answer to what is asked of a recorded build: words, or an object of JSON in a line each. `ran` has the edges of
/// the commands that ran, as they began.
///
/// # Errors
/// [`WordFault::TooMany`] where edges times commands are more than 4,294,967,296; [`WordFault::Cycle`] where edges wait
/// for each other; [`WordFault::Memory`] only where an allocation was refused.
pub fn answer_of(
    alloc: Global,
    graph: &Graph,
    ran: &[u32],
    wanted: Wanted,
) -> Result<Vec<u8>, WordFault> {
    let (edges, commands) = (u64::from(graph.edges()), ran.len() as u64);
    if edges.saturating_mul(commands) > MOST_PAIRS {
        return Err(WordFault::TooMany(commands, edges));
    }
    let Some(listed) = list_orders(alloc, graph, ran, wanted.most)? else {
        return Err(WordFault::Cycle);
    };
    let text = text_of(alloc, graph, &listed, wanted.json)?;
    Ok(text)
}
