//! The answer about orders.
use crate::listing::Listed;
use crate::rows::Row;
use rev_document::{Shape, To, Writer};
use rev_graph::Graph;
use std::alloc::{AllocError, Global};

// How many orders are printed in words.
const MOST_SHOWN: usize = 20;

// The first output of an edge.
fn first_output(graph: &Graph, edge: usize) -> &[u8] {
    if edge >= graph.edges() as usize {
        return b"";
    }
    let outputs = graph.outputs(edge as u32);
    match outputs.explicit.first() {
        Some(out) => out.as_bytes(),
        None => match outputs.implicit.first() {
            Some(out) => out.as_bytes(),
            None => b"",
        },
    }
}

// Adds the commands of an order, by their first outputs.
fn push_outputs(document: &mut Writer, graph: &Graph, commands: &[usize]) {
    document.open(To::Json("outputs"), Shape::List);
    for edge in commands {
        document.name(To::Json(""), first_output(graph, *edge));
    }
    document.close();
}

// Adds how many pairs are reversed by an order, where it is not the first one.
fn push_reversed(document: &mut Writer, number: u64, reversed: u64) {
    if number == 1 {
        document.words(" as they began");
    } else {
        document.words(", ");
        document.count(To::Words, reversed, "pair");
        document.words(" reversed");
    }
    document.number(To::Json("reversed"), reversed);
}

// Adds the number of an order and that of its commands.
fn push_number(document: &mut Writer, number: u64, commands: u64) {
    document.word(To::Json("kind"), "order");
    document.words("order ");
    document.number(To::Both("number"), number);
    document.words(": ");
    document.count(To::Words, commands, "command");
    document.number(To::Json("commands"), commands);
}

// Adds how many pairs are left.
fn push_left(document: &mut Writer, left: u64) {
    document.words("; ");
    document.count(To::Words, left, "pair");
    document.words(" left");
    document.number(To::Json("left"), left);
    document.line();
}

// Adds an order of this number.
fn push_row(document: &mut Writer, graph: &Graph, number: u64, row: &Row) {
    document.open(To::Both(""), Shape::Object);
    push_number(document, number, row.commands.len() as u64);
    push_reversed(document, number, row.reversed as u64);
    push_left(document, row.left as u64);
    push_outputs(document, graph, &row.commands);
    document.close();
}

// Adds the further orders.
fn push_others(
    alloc: Global,
    document: &mut Writer,
    graph: &Graph,
    listed: &Listed,
) -> Result<(), AllocError> {
    for place in 0..listed.chosen.others.len() {
        let row = listed.further_row(alloc, place)?;
        document.item(place >= MOST_SHOWN);
        push_row(document, graph, (place as u64).saturating_add(2), &row);
    }
    document.rest("and ", " more (--json has them)");
    Ok(())
}

// How many pairs of commands all orders have one way alone.
fn left_by(listed: &Listed) -> usize {
    match listed.chosen.counts.left.last() {
        Some(left) => *left,
        None => listed.chosen.counts.unordered,
    }
}

// Adds what all orders show of so many commands.
fn push_end(document: &mut Writer, listed: &Listed, commands: u64) {
    let orders = (listed.chosen.others.len() as u64).saturating_add(1);
    let unordered = listed.chosen.counts.unordered as u64;
    let left = left_by(listed) as u64;
    document.open(To::Both(""), Shape::Object);
    document.word(To::Json("kind"), "orders");
    document.words("in ");
    document.count(To::Words, orders, "order");
    document.number(To::Json("orders"), orders);
    document.words(" ");
    document.number(To::Words, unordered.saturating_sub(left));
    document.words(" of ");
    document.count(To::Words, unordered, "unordered pair");
    document.number(To::Json("pairs"), unordered);
    document.words(" of ");
    document.count(To::Words, commands, "command");
    document.number(To::Json("commands"), commands);
    document.words(" stood both ways");
    push_left(document, left);
    document.close();
}

/// Adds the answer: each order in a line, and then how many pairs stood both ways in all of them.
///
/// # Errors
/// [`AllocError`] only where an allocation was refused.
pub(crate) fn push_answer(
    alloc: Global,
    document: &mut Writer,
    graph: &Graph,
    listed: &Listed,
) -> Result<(), AllocError> {
    let first = listed.first_row(alloc)?;
    push_row(document, graph, 1, &first);
    push_others(alloc, document, graph, listed)?;
    push_end(document, listed, first.commands.len() as u64);
    Ok(())
}
