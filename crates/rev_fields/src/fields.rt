//! Fields, the parts of a line between single spaces.
ghost use Rattle.std.specs.Prelude.{◌≡◌, ◌++◌, Some, IsTrue, IfOk, OnOk};
ghost use Rattle.std.specs.Option.{ok_or};
ghost use Rattle.rev_fields.specs.declared.faults.FaultKind.TheVariants.{Syntax};
ghost use Rattle.rev_fields.specs.Faults.{Answers};
ghost use Rattle.rev_fields.specs.Fields.{letter_of, byte_of, field_text, spaced, unescaped, text_of, texts_of};
ghost use Rattle.rev_fields.specs.Parts.{vectors_of, lent_of};
ghost use Rattle.std.specs.Cow.{cow_slice_items};

use crate::faults::{FaultKind, LineFault};
use crate::parts::parts_at;
use std::alloc::{AllocError, Global};
use std::borrow::CowSlice;

const BAD_FIELD: LineFault = LineFault::Kind(FaultKind::Syntax);

// The letter that stands after a backslash for a byte that may not stand for itself.
fn letter(byte: u8) -> Option<u8>
    ensures { result ≡ letter_of byte }
{
    match byte {
        b' ' => Some(b's'),
        b'\t' => Some(b't'),
        b'\n' => Some(b'n'),
        b'\r' => Some(b'r'),
        b'\\' => Some(b'\\'),
        _ => None,
    }
}

// The byte for which a letter after a backslash stands.
fn escaped_byte(letter: u8) -> Option<u8>
    ensures { result ≡ byte_of letter }
{
    match letter {
        b's' => Some(b' '),
        b't' => Some(b'\t'),
        b'n' => Some(b'\n'),
        b'r' => Some(b'\r'),
        b'\\' => Some(b'\\'),
        _ => None,
    }
}

// The text that the bytes of a field write, but for the field of the empty text.
fn unescape(alloc: Global, field: &[u8]) -> Result<Vec<u8>, LineFault>
    ensures { Answers result (λ text. text.items) (ok_or (unescaped field.now) Syntax) }
{
    let mut text = Vec::with_capacity(alloc, field.len())?;
    let mut after_backslash = false;
    for byte in field {
        if after_backslash {
            let Some(written) = escaped_byte(*byte) else {
                return Err(BAD_FIELD);
            };
            text.push(written)?;
            after_backslash = false;
        } else if *byte == b'\\' {
            after_backslash = true;
        } else if letter(*byte).is_some() {
            return Err(BAD_FIELD);
        } else {
            text.push(*byte)?;
        }
    }
    if after_backslash {
        return Err(BAD_FIELD);
    }
    Ok(text)
}

// The text that a field writes.
fn read_field(alloc: Global, field: &[u8]) -> Result<Vec<u8>, LineFault>
    ensures text { Answers result (λ text. text.items) (ok_or (text_of field.now) Syntax) }

    // No other field writes the text.
    ensures only { IfOk result (λ text. field_text text.items ≡ field.now) }
{
    if field.is_empty() {
        return Err(BAD_FIELD);
    }
    if field == b"\\0".as_slice() {
        return Ok(Vec::new(alloc));
    }
    unescape(alloc, field)
}

// Whether a field writes its own bytes, since each of them stands for itself.
fn is_plain(field: &[u8]) -> bool
    ensures { IsTrue result → text_of field.now ≡ Some field.now }
{
    for byte in field {
        if letter(*byte).is_some() {
            return false;
        }
    }
    !field.is_empty()
}

// The text that a field writes, lent where each of its bytes stands for itself.
fn lent_field(alloc: Global, field: &[u8]) -> Result<CowSlice<'_, u8>, LineFault>
    ensures text { Answers result (λ text. cow_slice_items text) (ok_or (text_of field.now) Syntax) }
{
    if is_plain(field) {
        return Ok(CowSlice::Borrowed(field));
    }
    let text = read_field(alloc, field)?;
    Ok(CowSlice::Owned(text))
}

/// The texts that the fields of a line write. A text is lent from the line where no backslash stands in its field.
pub fn lent_fields(alloc: Global, line: &[u8]) -> Result<Vec<CowSlice<'_, u8>>, LineFault>
    ensures { Answers result (λ texts. lent_of texts.items) (ok_or (texts_of line.now) Syntax) }
{
    let fields = parts_at(alloc, line, b' ')?;
    let mut texts = Vec::with_capacity(alloc, fields.len())?;
    for field in &fields {
        let text = lent_field(alloc, field)?;
        texts.push(text)?;
    }
    Ok(texts)
}

/// The texts that the fields of a line write.
pub fn read_fields(alloc: Global, line: &[u8]) -> Result<Vec<Vec<u8>>, LineFault>
    ensures { Answers result (λ texts. vectors_of texts.items) (ok_or (texts_of line.now) Syntax) }
{
    let fields = parts_at(alloc, line, b' ')?;
    let mut texts = Vec::with_capacity(alloc, fields.len())?;
    for field in &fields {
        let text = read_field(alloc, field)?;
        texts.push(text)?;
    }
    Ok(texts)
}

/// Adds the field that writes a text, with a backslash and a letter for each space, tab, LF, CR and backslash, and `\0`
/// for the empty text.
pub fn push_field(line: &mut Vec<u8>, text: &[u8]) -> Result<(), AllocError>
    ensures { OnOk result (line.new.items ≡ line.old.items ++ field_text text.now) }
{
    if text.is_empty() {
        return line.extend_from_slice(b"\\0");
    }
    for byte in text {
        match letter(*byte) {
            Some(letter) => {
                line.push(b'\\')?;
                line.push(letter)?;
            }
            None => line.push(*byte)?,
        }
    }
    Ok(())
}

/// The field that writes a text.
pub fn field(alloc: Global, text: &[u8]) -> Result<Vec<u8>, AllocError>
    ensures field { IfOk result (λ field. field.items ≡ field_text text.now) }

    // Reading the field gives the text.
    ensures read { IfOk result (λ field. text_of field.items ≡ Some text.now) }
{
    let mut field = Vec::new(alloc);
    push_field(&mut field, text)?;
    Ok(field)
}

/// Adds a space and the field that writes a text.
pub fn next_field(line: &mut Vec<u8>, text: &[u8]) -> Result<(), AllocError>
    ensures { OnOk result (line.new.items ≡ line.old.items ++ spaced (field_text text.now)) }
{
    line.push(b' ')?;
    push_field(line, text)
}
