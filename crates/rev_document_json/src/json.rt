//! Parts in JSON.
ghost use Rattle.std.specs.Prelude.{◌≡◌, ◌++◌, IfOk, OnOk};
ghost use Rattle.rev_document_json.specs.Json.{begin, comma, document_json, end_of, part_json, placed, value_json};
ghost use Rattle.rev_document_json.specs.Strings.{inside, json_string};
ghost use Rattle.rev_document_words.specs.Words.{plain_words};

use crate::strings::{push_inside, push_string};
use rev_document::{Document, Part, Place, Shape, Value};
use rev_document_words::push_plain;
use rev_fields::push_number;
use std::alloc::{AllocError, Global};

// The beginning of a group.
fn begin(shape: Shape) -> &'static [u8]
    ensures { result.now ≡ begin shape }
{
    match shape {
        Shape::Top => b"",
        Shape::Object => b"{",
        Shape::List => b"[",
        Shape::Phrase => b"\"",
    }
}

// The end of a group.
fn end_of(shape: Shape) -> &'static [u8]
    ensures { result.now ≡ end_of shape }
{
    match shape {
        Shape::Top => b"",
        Shape::Object => b"}",
        Shape::List => b"]",
        Shape::Phrase => b"\"",
    }
}

// Adds the words of a value as a string. `words` has room for them.
fn push_words(text: &mut Vec<u8>, words: &mut Vec<u8>, value: &Value) -> Result<(), AllocError>
    ensures { OnOk result (text.new.items ≡ text.old.items ++ json_string (plain_words value.now)) }
{
    words.clear();
    push_plain(words, value)?;
    push_string(text, words)
}

// Adds the words of a value that stands within a string.
fn push_within(text: &mut Vec<u8>, words: &mut Vec<u8>, value: &Value) -> Result<(), AllocError>
    ensures { OnOk result (text.new.items ≡ text.old.items ++ inside (plain_words value.now)) }
{
    words.clear();
    push_plain(words, value)?;
    push_inside(text, words)
}

// Adds a value.
fn push_value(text: &mut Vec<u8>, words: &mut Vec<u8>, value: &Value) -> Result<(), AllocError>
    ensures { OnOk result (text.new.items ≡ text.old.items ++ value_json value.now) }
{
    match value {
        Value::Number(number) | Value::Time(number) | Value::Count(number, _) => push_number(
            text, *number,
        ),
        Value::Event(number) => push_number(text, u64::from(*number)),
        Value::Flag(true) => text.extend_from_slice(b"true"),
        Value::Flag(false) => text.extend_from_slice(b"false"),
        Value::Null => text.extend_from_slice(b"null"),
        Value::Open(shape) => text.extend_from_slice(begin(*shape)),
        Value::Close(shape) => text.extend_from_slice(end_of(*shape)),
        Value::Words(_)
        | Value::Text(_)
        | Value::Name(_)
        | Value::Place(_, _)
        | Value::Line
        | Value::Paint(_)
        | Value::Rest(_, _, _) => push_words(text, words, value),
    }
}

// Adds a comma, except before the first part of a group.
fn push_comma(text: &mut Vec<u8>, is_first: bool) -> Result<(), AllocError>
    ensures { OnOk result (text.new.items ≡ text.old.items ++ comma is_first) }
{
    if is_first {
        return Ok(());
    }
    text.extend_from_slice(b",")
}

// Adds a member of an object.
fn push_member(
    text: &mut Vec<u8>,
    words: &mut Vec<u8>,
    name: &'static str,
    is_first: bool,
    value: &Value,
) -> Result<(), AllocError>
    ensures { OnOk result (text.new.items ≡ text.old.items ++ placed (Place.Member name.entry is_first) value.now) }
{
    push_comma(text, is_first)?;
    push_string(text, name.as_bytes())?;
    text.extend_from_slice(b":")?;
    push_value(text, words, value)
}

// Adds an element of a list.
fn push_element(
    text: &mut Vec<u8>,
    words: &mut Vec<u8>,
    is_first: bool,
    value: &Value,
) -> Result<(), AllocError>
    ensures { OnOk result (text.new.items ≡ text.old.items ++ placed (Place.Element is_first) value.now) }
{
    push_comma(text, is_first)?;
    push_value(text, words, value)
}

// Adds the end of a line.
fn push_last(text: &mut Vec<u8>, words: &mut Vec<u8>, value: &Value) -> Result<(), AllocError>
    ensures { OnOk result (text.new.items ≡ text.old.items ++ placed Place.LineEnd value.now) }
{
    push_value(text, words, value)?;
    text.extend_from_slice(b"\n")
}

/// Appends a part, where JSON has it. `words` is room for the words of a part, and what it has does not matter.
///
/// # Errors
/// [`AllocError`] only where an allocation was refused.
pub fn push_json(text: &mut Vec<u8>, words: &mut Vec<u8>, part: &Part) -> Result<(), AllocError>
    ensures { OnOk result (text.new.items ≡ text.old.items ++ part_json part.now) }
{
    match part.place {
        Place::Nowhere => Ok(()),
        Place::Top | Place::End => push_value(text, words, &part.value),
        Place::Member(name, is_first) => push_member(text, words, name, is_first, &part.value),
        Place::Element(is_first) => push_element(text, words, is_first, &part.value),
        Place::Inside => push_within(text, words, &part.value),
        Place::LineEnd => push_last(text, words, &part.value),
    }
}

/// A document as JSON: each object that stands in no group is a line.
///
/// # Errors
/// [`AllocError`] only where an allocation was refused.
pub fn json_of(alloc: Global, document: &Document) -> Result<Vec<u8>, AllocError>
    ensures { IfOk result (λ text. text.items ≡ document_json document.now.parts.items) }
{
    let mut text = Vec::new(alloc);
    let mut words = Vec::new(alloc);
    for part in document.parts() {
        push_json(&mut text, &mut words, part)?;
    }
    Ok(text)
}
