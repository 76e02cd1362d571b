//! Findings as JSON objects, one a line.
use crate::finding::{Finding, Kind};
use crate::lines::kind_word;
use crate::orders::Orders;
use rev_conflicts::{Change, Look};
use rev_paths::Name;
use rev_races_text::{Edge, Id, Shown, Sources, happened_word, push_object_by};
use serde::Serialize;
use std::alloc::{AllocError, Global};

// A finding of two edges, but for a clash.
#[derive(Clone, Copy, Serialize)]
struct FindingObject<'a> {
    number: u64,
    id: Id,
    path: Shown<'a>,
    maker: Option<Edge<'a>>,
    user: Edge<'a>,
    look: Option<&'static str>,
    change: Option<&'static str>,
    here: Option<&'static str>,
    basis: &'static str,
    declare: Option<Shown<'a>>,
    list: Option<Shown<'a>>,
    mend: Option<Shown<'a>>,
    reverse: Option<Shown<'a>>,
    mended_by: Option<u64>,
    listed_as: Option<Shown<'a>>,
}

// A clash of two commands at a file.
#[derive(Clone, Copy, Serialize)]
struct ClashObject<'a> {
    number: u64,
    id: Id,
    of: &'static str,
    path: Shown<'a>,
    first: Edge<'a>,
    other: Edge<'a>,
    here: Option<&'static str>,
    mend: Option<Shown<'a>>,
    reverse: Option<Shown<'a>>,
}

// The word of a look.
fn look_word(look: Look) -> &'static str {
    match look {
        Look::Read => "read",
        Look::Miss => "miss",
        Look::Stat => "stat",
        Look::List => "list",
    }
}

// The word of what a maker does.
fn change_word(change: Change) -> &'static str {
    match change {
        Change::Output => "output",
        Change::Edit => "edit",
        Change::Undeclared => "undeclared",
        Change::Delete => "delete",
        Change::Temporary => "temporary",
        Change::Entry => "entry",
    }
}

// What the maker of a finding does, where it has one.
fn change_of(finding: &Finding<'_>) -> Option<&'static str> {
    match finding.kind {
        Kind::Unlisted => None,
        Kind::Anothers => Some("another's"),
        _ => Some(change_word(finding.change)),
    }
}

// How the user of a finding looks at the place, where it does.
fn look_of(finding: &Finding<'_>) -> Option<&'static str> {
    match finding.kind {
        Kind::Anothers => None,
        _ => Some(look_word(finding.look)),
    }
}

// A name, where there is one.
fn shown_if<'a>(name: Option<&'a Name>) -> Option<Shown<'a>> {
    match name {
        Some(name) => Some(Shown(name.as_bytes())),
        None => None,
    }
}

// A path, where it is to be named.
fn named_if<'a>(is_to_be_named: bool, path: Shown<'a>) -> Option<Shown<'a>> {
    if is_to_be_named { Some(path) } else { None }
}

// The word of what happened with the two edges of a finding.
fn here_of(finding: &Finding<'_>) -> Option<&'static str> {
    match finding.story {
        Some(story) => Some(happened_word(story.happened)),
        None => None,
    }
}

// Adds a clash.
fn push_clash<'a>(
    alloc: Global,
    text: &mut Vec<u8>,
    sources: &Sources<'a>,
    finding: &Finding<'a>,
    number: u64,
) -> Result<(), AllocError> {
    let clash = ClashObject {
        number,
        id: finding.id(sources),
        of: "file",
        path: finding.shown(),
        first: finding.maker_in(sources),
        other: finding.user_in(sources),
        here: here_of(finding),
        mend: shown_if(finding.order()),
        reverse: shown_if(finding.reverse_order()),
    };
    push_object_by(alloc, text, "clash", finding.made_in(sources).file, &clash)
}

// Adds a finding with its number.
fn push_finding<'a>(
    alloc: Global,
    text: &mut Vec<u8>,
    sources: &Sources<'a>,
    orders: &Orders,
    finding: &Finding<'a>,
    number: u64,
) -> Result<(), AllocError> {
    if finding.kind == Kind::Clash {
        return push_clash(alloc, text, sources, finding, number);
    }
    let maker = match finding.kind {
        Kind::Unlisted => None,
        _ => Some(finding.maker_in(sources)),
    };
    let object = FindingObject {
        number,
        id: finding.id(sources),
        path: finding.shown(),
        maker,
        user: finding.user_in(sources),
        look: look_of(finding),
        change: change_of(finding),
        here: here_of(finding),
        basis: "observed",
        declare: named_if(finding.is_to_be_declared(), finding.shown()),
        list: shown_if(finding.input()),
        mend: shown_if(finding.order()),
        reverse: shown_if(finding.reverse_order()),
        mended_by: orders.mended_by(finding),
        listed_as: shown_if(finding.listed),
    };
    let file = finding.made_in(sources).file;
    push_object_by(alloc, text, kind_word(finding.kind), file, &object)
}

/// Findings as JSON, an object a line (docs/JSON.md). They are numbered from 1 in their order.
///
/// # Errors
/// [`AllocError`] only where an allocation was refused.
pub fn findings_json<'a>(
    alloc: Global,
    sources: &Sources<'a>,
    findings: &[Finding<'a>],
) -> Result<Vec<u8>, AllocError> {
    let mut text = Vec::new(alloc);
    let orders = Orders::new(alloc, findings, 1)?;
    let mut number = 1;
    for finding in findings {
        push_finding(alloc, &mut text, sources, &orders, finding, number)?;
        number = u64::saturating_add(number, 1);
    }
    Ok(text)
}
