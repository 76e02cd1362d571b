//! Names and words in XML.
ghost use Rattle.std.specs.Prelude.{◌≡◌, ◌++◌, OnOk};
ghost use Rattle.rev_picture.specs.Escape.{NamesAreRead, WordsAreRead, escaped, escaped_byte, escaped_words, word_byte};

use rev_shown::push_shown;
use std::alloc::AllocError;
use std::slice;

// Adds a byte of a name.
fn push_byte(text: &mut Vec<u8>, byte: &u8) -> Result<(), AllocError>
    ensures { OnOk result (text.new.items ≡ text.old.items ++ escaped_byte byte.now) }
{
    match *byte {
        b'&' => text.extend_from_slice(b"&amp;"),
        b'<' => text.extend_from_slice(b"&lt;"),
        b'>' => text.extend_from_slice(b"&gt;"),
        b'"' => text.extend_from_slice(b"&quot;"),
        b'\'' => text.extend_from_slice(b"&apos;"),
        _ => push_shown(text, slice::from_ref(byte)),
    }
}

/// Appends a name to XML text, or to a value between quotes. The bytes `&`, `<`, `>`, `"` and `'` become `&amp;`,
/// `&lt;`, `&gt;`, `&quot;` and `&apos;`. Every other byte stands as `push_shown` of `rev_shown` writes it. So no byte
/// of a name ends a text or a value, and XML allows each byte.
///
/// # Errors
/// [`AllocError`] only where an allocation was refused.
pub fn push_escaped(text: &mut Vec<u8>, name: &[u8]) -> Result<(), AllocError>
    ensures { OnOk result (text.new.items ≡ text.old.items ++ escaped name.now) }
{
    for byte in name {
        push_byte(text, byte)?;
    }
    Ok(())
}

// Adds a byte of words.
fn push_word_byte(text: &mut Vec<u8>, byte: &u8) -> Result<(), AllocError>
    ensures { OnOk result (text.new.items ≡ text.old.items ++ word_byte escaped_byte byte.now) }
{
    if *byte == b' ' || *byte == b'\\' {
        return text.extend_from_slice(slice::from_ref(byte));
    }
    push_byte(text, byte)
}

/// Appends words to XML. Names in these words stand as `push_shown` of `rev_shown` wrote them, so spaces and
/// backslashes stay as they are. Every other byte is written as in a name.
///
/// # Errors
/// [`AllocError`] only where an allocation was refused.
pub fn push_escaped_words(text: &mut Vec<u8>, words: &[u8]) -> Result<(), AllocError>
    ensures { OnOk result (text.new.items ≡ text.old.items ++ escaped_words words.now) }
{
    for byte in words {
        push_word_byte(text, byte)?;
    }
    Ok(())
}

/// A reader of XML reads every escaped name as the name that people are shown. So the text has no tag, no end of a
/// value and no control byte.
pub fn names_are_read()
    ensures { NamesAreRead }
{}

/// A reader of XML reads words as they are. A byte that is not printable ASCII reads as its written-out form.
pub fn words_are_read()
    ensures { WordsAreRead }
{}
