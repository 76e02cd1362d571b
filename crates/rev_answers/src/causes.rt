//! What events rest on, in words.
use crate::events::{is_kept, push_numbered};
use crate::observed::{push_looks, push_observed_needs};
use crate::told::{Context, history_of};
use rev_cells::Cell;
use rev_graph::Graph;
use rev_history::History;
use rev_prompt::{Link, Need, Needs, Reach};
use rev_shown::push_cell;
use std::alloc::AllocError;

/// Adds through which cell one event rests on another.
pub(crate) fn push_through(
    text: &mut Vec<u8>,
    graph: &Graph,
    cell: Option<&Cell>,
) -> Result<(), AllocError> {
    match cell {
        Some(cell) => {
            text.extend_from_slice(b" through ")?;
            push_cell(text, graph, cell)
        }
        None => text.extend_from_slice(b", since a plan looks at everything"),
    }
}

/// An end of a link.
#[derive(Clone, Copy)]
pub(crate) enum End {
    /// The earlier event, on which the other one rests.
    Earlier,
    /// The later event, which rests on the other one.
    Later,
}

/// The number at an end of a link, and the one at its other end.
pub(crate) fn ends_of(link: &Link, end: End) -> (u32, u32) {
    match end {
        End::Earlier => (link.one, link.other),
        End::Later => (link.other, link.one),
    }
}

// Adds one end of links, a line each.
fn push_links(
    text: &mut Vec<u8>,
    history: &History,
    links: &[Link],
    end: End,
) -> Result<(), AllocError> {
    for link in links {
        let (number, _other) = ends_of(link, end);
        text.extend_from_slice(b"  ")?;
        push_numbered(text, history, number)?;
        push_through(text, history.graph(), link.cell.as_ref())?;
        text.push(b'\n')?;
    }
    Ok(())
}

// Adds that there is nothing, where that is so.
fn push_if_nothing(text: &mut Vec<u8>, is_nothing: bool) -> Result<(), AllocError> {
    if is_nothing {
        text.extend_from_slice(b"  nothing\n")?;
    }
    Ok(())
}

// Adds what an event rests on by its cells, and by what its command was seen to look at.
fn push_all_needs(
    text: &mut Vec<u8>,
    told: Context<'_>,
    needs: &Needs,
    head: &[u8],
) -> Result<(), AllocError> {
    let history = history_of(told);
    push_numbered(text, history, needs.number)?;
    if !is_kept(history, needs.number) {
        return text.extend_from_slice(b" rests on nothing: it is not kept\n");
    }
    text.extend_from_slice(head)?;
    push_links(text, history, &needs.links, End::Earlier)?;
    let looks: &[Need] = match &needs.looks {
        Some(looks) => looks,
        None => &[],
    };
    push_looks(text, told, looks)?;
    push_if_nothing(text, needs.links.is_empty() && looks.is_empty())
}

/// Adds what an event rests on.
pub(crate) fn push_needs(
    text: &mut Vec<u8>,
    told: Context<'_>,
    needs: &Needs,
) -> Result<(), AllocError> {
    match needs.reach {
        Reach::Itself => push_all_needs(text, told, needs, b" rests on\n"),
        Reach::All => push_all_needs(text, told, needs, b" rests on, also by way of others:\n"),
        Reach::Observed => push_observed_needs(text, told, needs.number, needs.looks.as_ref()),
    }
}

/// Adds what rests on an event.
pub(crate) fn push_dependents(
    text: &mut Vec<u8>,
    history: &History,
    number: u32,
    links: &[Link],
) -> Result<(), AllocError> {
    push_numbered(text, history, number)?;
    if !is_kept(history, number) {
        return text.extend_from_slice(b": nothing rests on it, since it is not kept\n");
    }
    text.extend_from_slice(b": on it rest\n")?;
    push_links(text, history, links, End::Later)?;
    push_if_nothing(text, links.is_empty())
}
