//! Parts in words.
ghost use Rattle.std.specs.Prelude.{◌≡◌, ◌++◌, IfOk, OnOk};
ghost use Rattle.rev_document_words.specs.Words.{counted, document_words, is_shown, painted, part_words, place_words, plain_words, rest_words, tone_codes, value_words};

use crate::escape::{push_name, push_text};
use crate::look::Look;
use rev_document::{Document, Part, Tone, Value};
use rev_fields::push_number;
use std::alloc::{AllocError, Global};

// Adds how many things of a noun there are.
fn push_count(text: &mut Vec<u8>, count: u64, noun: &str) -> Result<(), AllocError>
    ensures { OnOk result (text.new.items ≡ text.old.items ++ counted count noun.now) }
{
    push_number(text, count)?;
    text.extend_from_slice(b" ")?;
    text.extend_from_slice(noun.as_bytes())?;
    if count == 1 {
        return Ok(());
    }
    text.extend_from_slice(b"s")
}

// Adds milliseconds.
fn push_time(text: &mut Vec<u8>, time: u64) -> Result<(), AllocError>
    ensures { OnOk result (text.new.items ≡ text.old.items ++ plain_words (Value.Time time)) }
{
    push_number(text, time)?;
    text.extend_from_slice(b" ms")
}

// Adds a line of a file.
fn push_place(text: &mut Vec<u8>, file: &[u8], line: u64) -> Result<(), AllocError>
    ensures { OnOk result (text.new.items ≡ text.old.items ++ place_words file.now line) }
{
    push_name(text, file)?;
    text.extend_from_slice(b":")?;
    push_number(text, line)
}

/// Appends the words of a part, without colours. They are empty for what has no words: a truth, nothing, the ends of a
/// group, a tone, and the number of details.
///
/// # Errors
/// [`AllocError`] only where an allocation was refused.
pub fn push_plain(text: &mut Vec<u8>, value: &Value) -> Result<(), AllocError>
    ensures { OnOk result (text.new.items ≡ text.old.items ++ plain_words value.now) }
{
    match value {
        Value::Words(words) => text.extend_from_slice(words.as_bytes()),
        Value::Text(bytes) => push_text(text, bytes.as_bytes()),
        Value::Name(bytes) => push_name(text, bytes.as_bytes()),
        Value::Number(number) => push_number(text, *number),
        Value::Event(number) => push_number(text, u64::from(*number)),
        Value::Time(time) => push_time(text, *time),
        Value::Count(count, noun) => push_count(text, *count, noun),
        Value::Place(file, line) => push_place(text, file.as_bytes(), *line),
        Value::Line => text.extend_from_slice(b"\n"),
        Value::Flag(_)
        | Value::Null
        | Value::Open(_)
        | Value::Close(_)
        | Value::Paint(_)
        | Value::Rest(_, _, _) => Ok(()),
    }
}

// The escape sequence of a tone.
fn tone_codes(tone: Tone) -> &'static [u8]
    ensures { result.now ≡ tone_codes tone }
{
    match tone {
        Tone::Plain => b"\x1b[0m",
        Tone::Wrong => b"\x1b[1;31m",
        Tone::Maybe => b"\x1b[33m",
        Tone::Well => b"\x1b[32m",
        Tone::Certain => b"\x1b[1;32m",
        Tone::Number => b"\x1b[1m",
        Tone::Place => b"\x1b[36m",
    }
}

// Adds the line that says how many details are left out, where some are.
fn push_rest(text: &mut Vec<u8>, before: &str, left: u64, after: &str) -> Result<(), AllocError>
    ensures { OnOk result (text.new.items ≡ text.old.items ++ rest_words before.now left after.now) }
{
    if left == 0 {
        return Ok(());
    }
    text.extend_from_slice(before.as_bytes())?;
    push_number(text, left)?;
    text.extend_from_slice(after.as_bytes())?;
    text.extend_from_slice(b"\n")
}

// Adds a line of a file, in its tone where colours are wanted.
fn push_painted(text: &mut Vec<u8>, look: Look, file: &[u8], line: u64) -> Result<(), AllocError>
    ensures { OnOk result (text.new.items ≡ text.old.items ++ painted look Tone.Place (place_words file.now line)) }
{
    if !look.is_coloured {
        return push_place(text, file, line);
    }
    text.extend_from_slice(tone_codes(Tone::Place))?;
    push_place(text, file, line)?;
    text.extend_from_slice(tone_codes(Tone::Plain))
}

// Adds the words of a part that is not left out.
fn push_value(text: &mut Vec<u8>, look: Look, value: &Value) -> Result<(), AllocError>
    ensures { OnOk result (text.new.items ≡ text.old.items ++ value_words look value.now) }
{
    match value {
        Value::Paint(tone) if look.is_coloured => text.extend_from_slice(tone_codes(*tone)),
        Value::Rest(before, left, after) if !look.is_all => push_rest(text, before, *left, after),
        Value::Place(file, line) => push_painted(text, look, file.as_bytes(), *line),
        value => push_plain(text, value),
    }
}

// Whether the words of a part are printed.
fn is_shown(look: Look, part: &Part) -> bool
    ensures { result ≡ is_shown look part.now }
{
    part.is_said && (look.is_all || !part.is_detail)
}

/// Appends the words of a part: nothing where it is not for words, and where it is a detail and these are left out.
///
/// # Errors
/// [`AllocError`] only where an allocation was refused.
pub fn push_words(text: &mut Vec<u8>, look: Look, part: &Part) -> Result<(), AllocError>
    ensures { OnOk result (text.new.items ≡ text.old.items ++ part_words look part.now) }
{
    if is_shown(look, part) {
        return push_value(text, look, &part.value);
    }
    Ok(())
}

/// The words of a document, with this look.
///
/// # Errors
/// [`AllocError`] only where an allocation was refused.
pub fn words_of(alloc: Global, document: &Document, look: Look) -> Result<Vec<u8>, AllocError>
    ensures { IfOk result (λ text. text.items ≡ document_words look document.now.parts.items) }
{
    let mut text = Vec::new(alloc);
    for part in document.parts() {
        push_words(&mut text, look, part)?;
    }
    Ok(text)
}
