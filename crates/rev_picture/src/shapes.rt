//! Bars of edges, and lines between events.
ghost use Rattle.std.specs.Prelude.{◌≡◌, ◌++◌, codes, decimal, OnOk};
ghost use Rattle.std.specs.Option.{option_copied};
ghost use Rattle.rev_picture.specs.Picture.{attribute, bar_data, bar_events, bar_names, bar_text, bar_title, duration, ended_data, ended_look, kind, label, label_left, line_text, line_words, look, name_attribute, rect, span, stroke, tall, text_at, time_text, top_of, words_attribute, words_if};

use crate::escape::{push_escaped, push_escaped_words};
use rev_fields::push_number;
use std::alloc::AllocError;

/// How the command of a bar ended.
#[derive(Clone, Copy, Debug, PartialEq, Eq)]
pub enum Outcome {
    /// Well, or not yet.
    Well,
    /// It failed.
    Failed,
    /// Ninja stopped it.
    Stopped,
}

/// When a bar begins, and how long it is.
#[derive(Clone, Copy, Debug, PartialEq, Eq)]
pub struct Time {
    /// When it begins, in milliseconds from the beginning of the recording.
    pub from: u32,
    /// How long it is, in milliseconds.
    pub took: u32,
}

/// A command that ran, or an event that begins and ends no command.
#[derive(Clone, Copy, Debug, PartialEq, Eq)]
pub struct Bar<'a> {
    /// The place of its row, of those of the picture, from 0.
    pub row: u32,
    /// The distance from the left edge, in units.
    pub left: u32,
    /// The width in units.
    pub width: u32,
    /// The words that stand before the name.
    pub words: &'a [u8],
    /// The name, with the manifest's own bytes.
    pub name: &'a [u8],
    /// The part of the name that is written beside the bar. `None` where the bar has no label.
    pub label: Option<&'a [u8]>,
    /// The number of the event that began it.
    pub began: u32,
    /// The number of the event that ended it. For what takes no time it is the same as `began`; `None` where the
    /// command still runs.
    pub ended: Option<u32>,
    /// Its time; `None` where it has none.
    pub time: Option<Time>,
    /// How its command ended.
    pub outcome: Outcome,
    /// Whether the event that began it is undone.
    pub undone: bool,
    /// Whether its edge is in a race by lists.
    pub racing: bool,
    /// Whether its edge is in a race that was observed.
    pub observed: bool,
}

/// What a line between two events is.
#[derive(Clone, Copy, Debug, PartialEq, Eq)]
pub enum LineKind {
    /// The second event depends on the first one.
    Dependence,
    /// The commands of the two race by what they list.
    Listed,
    /// The commands of the two race, as it was observed.
    Observed,
}

/// A dependence of one event on another, or a race of two events.
#[derive(Clone, Copy, Debug, PartialEq, Eq)]
pub struct Line<'a> {
    /// What it is.
    pub kind: LineKind,
    /// The number of the event that the other one depends on.
    pub one: u32,
    /// The distance of event `one` from the left edge, in units.
    pub one_left: u32,
    /// The row of event `one`.
    pub one_row: u32,
    /// The number of the event that depends on `one`.
    pub other: u32,
    /// The distance of event `other` from the left edge, in units.
    pub other_left: u32,
    /// The row of event `other`.
    pub other_row: u32,
    /// The words of the line. Names in them stand as `push_shown` of `rev_shown` wrote them.
    pub words: &'a [u8],
    /// The distance of the words from the top edge, in units.
    pub words_top: u32,
}

// How far below the top edge a row begins.
pub(crate) fn top_of(row: u32) -> u64
    ensures { result ≡ top_of row }
{
    60 + 20 * u64::from(row)
}

// Adds an attribute whose value is a number.
#[tactic(auto, unfolding(crate::specs::Picture::attribute))]
pub(crate) fn push_attribute(text: &mut Vec<u8>, name: &[u8], value: u64) -> Result<(), AllocError>
    ensures { OnOk result (text.new.items ≡ text.old.items ++ attribute name.now value) }
{
    text.extend_from_slice(b" ")?;
    text.extend_from_slice(name)?;
    text.extend_from_slice(b"=\"")?;
    push_number(text, value)?;
    text.extend_from_slice(b"\"")
}

// Adds an attribute whose value is words.
#[tactic(auto, unfolding(crate::specs::Picture::words_attribute))]
fn push_words_attribute(text: &mut Vec<u8>, name: &[u8], words: &[u8]) -> Result<(), AllocError>
    ensures { OnOk result (text.new.items ≡ text.old.items ++ words_attribute name.now words.now) }
{
    text.extend_from_slice(b" ")?;
    text.extend_from_slice(name)?;
    text.extend_from_slice(b"=\"")?;
    push_escaped_words(text, words)?;
    text.extend_from_slice(b"\"")
}

// Adds an attribute whose value is a name.
#[tactic(auto, unfolding(crate::specs::Picture::name_attribute))]
fn push_name_attribute(text: &mut Vec<u8>, name: &[u8], value: &[u8]) -> Result<(), AllocError>
    ensures { OnOk result (text.new.items ≡ text.old.items ++ name_attribute name.now value.now) }
{
    text.extend_from_slice(b" ")?;
    text.extend_from_slice(name)?;
    text.extend_from_slice(b"=\"")?;
    push_escaped(text, value)?;
    text.extend_from_slice(b"\"")
}

// Adds words where something holds.
fn push_if(text: &mut Vec<u8>, holds: bool, words: &[u8]) -> Result<(), AllocError>
    ensures { OnOk result (text.new.items ≡ text.old.items ++ words_if holds words.now) }
{
    if holds {
        return text.extend_from_slice(words);
    }
    Ok(())
}

// Adds how a bar looks by how its command ended.
fn push_ended_look(text: &mut Vec<u8>, outcome: Outcome) -> Result<(), AllocError>
    ensures { OnOk result (text.new.items ≡ text.old.items ++ ended_look outcome) }
{
    match outcome {
        Outcome::Well => Ok(()),
        Outcome::Failed => text.extend_from_slice(b" failed"),
        Outcome::Stopped => text.extend_from_slice(b" stopped"),
    }
}

// Adds how a bar looks.
#[tactic(auto, unfolding(crate::specs::Picture::look))]
fn push_look(text: &mut Vec<u8>, bar: &Bar<'_>) -> Result<(), AllocError>
    ensures { OnOk result (text.new.items ≡ text.old.items ++ look bar.now) }
{
    text.extend_from_slice(b"bar")?;
    push_ended_look(text, bar.outcome)?;
    push_if(text, bar.undone, b" undone")?;
    push_if(text, bar.racing, b" racing")?;
    push_if(text, bar.observed, b" observed")
}

// Adds words and a number.
fn push_counted(text: &mut Vec<u8>, words: &[u8], number: u32) -> Result<(), AllocError>
    ensures { OnOk result (text.new.items ≡ text.old.items ++ words.now ++ decimal number) }
{
    text.extend_from_slice(words)?;
    push_number(text, u64::from(number))
}

// Adds the events of a bar.
fn push_span(text: &mut Vec<u8>, began: u32, ended: Option<u32>) -> Result<(), AllocError>
    ensures { OnOk result (text.new.items ≡ text.old.items ++ span began ended) }
{
    match ended {
        None => {
            push_counted(text, b", event ", began)?;
            text.extend_from_slice(b", not ended")
        }
        Some(ended) if ended == began => push_counted(text, b", event ", began),
        Some(ended) => {
            push_counted(text, b", events ", began)?;
            push_counted(text, b" to ", ended)
        }
    }
}

// Adds a time in milliseconds, and from ten seconds on in tenths of a second.
fn push_duration(text: &mut Vec<u8>, ms: u32) -> Result<(), AllocError>
    ensures { OnOk result (text.new.items ≡ text.old.items ++ duration ms) }
{
    if ms < 10_000 {
        push_number(text, u64::from(ms))?;
        return text.extend_from_slice(b" ms");
    }
    push_number(text, u64::from(ms / 1000))?;
    text.extend_from_slice(b".")?;
    push_number(text, u64::from(ms / 100 % 10))?;
    text.extend_from_slice(b" s")
}

// Adds how long a bar took, and when it began.
fn push_time(text: &mut Vec<u8>, time: Option<Time>) -> Result<(), AllocError>
    ensures { OnOk result (text.new.items ≡ text.old.items ++ time_text time) }
{
    match time {
        None => Ok(()),
        Some(time) => {
            text.extend_from_slice(b", ")?;
            push_duration(text, time.took)?;
            text.extend_from_slice(b" from ")?;
            push_duration(text, time.from)
        }
    }
}

// Adds the number of the event that ended a bar, where one did.
fn push_ended(text: &mut Vec<u8>, ended: Option<u32>) -> Result<(), AllocError>
    ensures { OnOk result (text.new.items ≡ text.old.items ++ ended_data ended) }
{
    match ended {
        None => Ok(()),
        Some(ended) => push_attribute(text, b"data-ended", u64::from(ended)),
    }
}

// Adds the numbers of a bar's events.
#[tactic(auto, unfolding(crate::specs::Picture::bar_events))]
fn push_bar_events(text: &mut Vec<u8>, bar: &Bar<'_>) -> Result<(), AllocError>
    ensures { OnOk result (text.new.items ≡ text.old.items ++ bar_events bar.now) }
{
    text.extend_from_slice(b"\"")?;
    push_attribute(text, b"data-began", u64::from(bar.began))?;
    push_ended(text, bar.ended)
}

// Adds what stands before a bar's name, and the name.
fn push_bar_names(text: &mut Vec<u8>, bar: &Bar<'_>) -> Result<(), AllocError>
    ensures { OnOk result (text.new.items ≡ text.old.items ++ bar_names bar.now) }
{
    push_words_attribute(text, b"data-words", bar.words)?;
    push_name_attribute(text, b"data-path", bar.name)
}

// Adds what a program reads of a bar.
fn push_bar_data(text: &mut Vec<u8>, bar: &Bar<'_>) -> Result<(), AllocError>
    ensures { OnOk result (text.new.items ≡ text.old.items ++ bar_data bar.now) }
{
    push_bar_events(text, bar)?;
    push_bar_names(text, bar)
}

// Adds what is told of a bar to who points at it.
#[tactic(auto, unfolding(crate::specs::Picture::bar_title))]
fn push_bar_title(text: &mut Vec<u8>, bar: &Bar<'_>) -> Result<(), AllocError>
    ensures { OnOk result (text.new.items ≡ text.old.items ++ bar_title bar.now) }
{
    text.extend_from_slice(b"><title>")?;
    push_escaped_words(text, bar.words)?;
    push_escaped(text, bar.name)?;
    push_span(text, bar.began, bar.ended)?;
    push_time(text, bar.time)?;
    text.extend_from_slice(b"</title>")
}

// Adds the height of a bar, and the end of its tag.
#[tactic(auto, unfolding(crate::specs::Picture::tall))]
fn push_tall(text: &mut Vec<u8>) -> Result<(), AllocError>
    ensures { OnOk result (text.new.items ≡ text.old.items ++ tall) }
{
    text.extend_from_slice(b" height=\"14\"/>")
}

// Adds a bar at a place.
#[tactic(auto, unfolding(crate::specs::Picture::rect))]
pub(crate) fn push_rect(text: &mut Vec<u8>, x: u64, y: u64, width: u64) -> Result<(), AllocError>
    ensures { OnOk result (text.new.items ≡ text.old.items ++ rect x y width) }
{
    text.extend_from_slice(b"<rect")?;
    push_attribute(text, b"x", x)?;
    push_attribute(text, b"y", y)?;
    push_attribute(text, b"width", width)?;
    push_tall(text)
}

// Adds the beginning of a text at a place.
#[tactic(auto, unfolding(crate::specs::Picture::text_at))]
pub(crate) fn push_text_at(text: &mut Vec<u8>, x: u64, y: u64) -> Result<(), AllocError>
    ensures { OnOk result (text.new.items ≡ text.old.items ++ text_at x y) }
{
    text.extend_from_slice(b"<text")?;
    push_attribute(text, b"x", x)?;
    push_attribute(text, b"y", y)?;
    text.extend_from_slice(b">")
}

// Adds what is written beside a bar, if anything.
fn push_label(
    text: &mut Vec<u8>,
    x: u64,
    y: u64,
    words: &[u8],
    part: Option<&[u8]>,
) -> Result<(), AllocError>
    ensures { OnOk result (text.new.items ≡ text.old.items ++ label x y words.now (option_copied part.entry)) }
{
    match part {
        None => Ok(()),
        Some(part) => {
            push_text_at(text, x, y)?;
            push_escaped_words(text, words)?;
            push_escaped(text, part)?;
            text.extend_from_slice(b"</text>")
        }
    }
}

// Where the label of a bar begins: in the bar, or behind it where that is narrow.
fn label_left(bar: &Bar<'_>) -> u64
    ensures { result ≡ label_left bar.now }
{
    let left = u64::from(bar.left) + 3;
    if bar.width < 8 {
        return left + u64::from(bar.width);
    }
    left
}

/// Appends a bar as an SVG element: a rectangle in its row, a tip with its name and events, and its label. The numbers
/// of its events, what stands before its name, and the name also stand in attributes, for programs.
///
/// # Errors
/// [`AllocError`] only where an allocation was refused.
#[tactic(auto, unfolding(crate::specs::Picture::bar_text))]
pub fn push_bar(text: &mut Vec<u8>, bar: &Bar<'_>) -> Result<(), AllocError>
    ensures { OnOk result (text.new.items ≡ text.old.items ++ bar_text bar.now) }
{
    let top = top_of(bar.row);
    let left = u64::from(bar.left);
    text.extend_from_slice(b"<g class=\"")?;
    push_look(text, bar)?;
    push_bar_data(text, bar)?;
    push_bar_title(text, bar)?;
    push_rect(text, left, top + 3, u64::from(bar.width))?;
    push_label(text, label_left(bar), top + 14, bar.words, bar.label)?;
    text.extend_from_slice(b"</g>\n")
}

// Adds how a line begins.
fn push_kind(text: &mut Vec<u8>, line: LineKind) -> Result<(), AllocError>
    ensures { OnOk result (text.new.items ≡ text.old.items ++ kind line) }
{
    match line {
        LineKind::Dependence => text.extend_from_slice(b"<g class=\"line\""),
        LineKind::Listed => text.extend_from_slice(b"<g class=\"race\""),
        LineKind::Observed => text.extend_from_slice(b"<g class=\"race observed\""),
    }
}

// Adds a stroke from one place to another.
#[tactic(auto, unfolding(crate::specs::Picture::stroke))]
pub(crate) fn push_stroke(
    text: &mut Vec<u8>,
    x: u64,
    y: u64,
    other_x: u64,
    other_y: u64,
) -> Result<(), AllocError>
    ensures { OnOk result (text.new.items ≡ text.old.items ++ stroke x y other_x other_y) }
{
    text.extend_from_slice(b"<line")?;
    push_attribute(text, b"x1", x)?;
    push_attribute(text, b"y1", y)?;
    push_attribute(text, b"x2", other_x)?;
    push_attribute(text, b"y2", other_y)?;
    text.extend_from_slice(b"/>")
}

// Adds the words of a line.
#[tactic(auto, unfolding(crate::specs::Picture::line_words))]
fn push_line_words(text: &mut Vec<u8>, line: &Line<'_>) -> Result<(), AllocError>
    ensures { OnOk result (text.new.items ≡ text.old.items ++ line_words line.now) }
{
    push_text_at(text, 4, u64::from(line.words_top))?;
    push_escaped_words(text, line.words)?;
    text.extend_from_slice(b"</text></g>\n")
}

/// Appends a dependence or a race as an SVG element: a line between two events with their numbers, and its words below
/// the rows.
///
/// # Errors
/// [`AllocError`] only where an allocation was refused.
#[tactic(auto, unfolding(crate::specs::Picture::line_text))]
pub fn push_line(text: &mut Vec<u8>, line: &Line<'_>) -> Result<(), AllocError>
    ensures { OnOk result (text.new.items ≡ text.old.items ++ line_text line.now) }
{
    let top = top_of(line.one_row) + 10;
    let other_top = top_of(line.other_row) + 10;
    push_kind(text, line.kind)?;
    push_attribute(text, b"data-one", u64::from(line.one))?;
    push_attribute(text, b"data-other", u64::from(line.other))?;
    text.extend_from_slice(b">")?;
    push_stroke(
        text,
        u64::from(line.one_left),
        top,
        u64::from(line.other_left),
        other_top,
    )?;
    push_line_words(text, line)
}
