//! Names and texts from outside: none of their bytes moves a cursor or changes a colour.
ghost use Rattle.std.specs.Prelude.{◌≡◌, ◌<◌, ◌∷◌, ◌++◌, [], if◌then◌else◌, OnOk};
ghost use Rattle.rev_document_words.specs.Escape.{hex_byte, hex_digit, is_visible, name_byte, name_words, text_byte, text_words};

use std::alloc::AllocError;

// A digit to the base 16.
fn hex_digit(number: u8) -> u8
    requires { number < 16 }
    ensures { result ≡ hex_digit number }
{
    if number < 10 {
        b'0' + number
    } else {
        b'a' - 10 + number
    }
}

// Whether a byte is a visible one of ASCII.
fn is_visible(byte: u8) -> bool
    ensures { result ≡ is_visible byte }
{
    32 < byte && byte < 127
}

/// Appends `\x` and both digits of a byte.
///
/// # Errors
/// [`AllocError`] only where an allocation was refused.
pub fn push_hex(text: &mut Vec<u8>, byte: u8) -> Result<(), AllocError>
    ensures { OnOk result (text.new.items ≡ text.old.items ++ hex_byte byte) }
{
    text.extend_from_slice(b"\\x")?;
    text.push(hex_digit(byte / 16))?;
    text.push(hex_digit(byte % 16))?;
    Ok(())
}

// Adds a byte that has no letter.
fn push_plain_byte(text: &mut Vec<u8>, byte: u8) -> Result<(), AllocError>
    ensures { OnOk result (text.new.items ≡ text.old.items ++ (if is_visible byte then byte ∷ [] else hex_byte byte)) }
{
    if is_visible(byte) {
        text.push(byte)?;
        return Ok(());
    }
    push_hex(text, byte)
}

// Adds a byte of a name.
fn push_name_byte(text: &mut Vec<u8>, byte: u8) -> Result<(), AllocError>
    ensures { OnOk result (text.new.items ≡ text.old.items ++ name_byte byte) }
{
    match byte {
        b' ' => text.extend_from_slice(b"\\s"),
        b'\t' => text.extend_from_slice(b"\\t"),
        b'\n' => text.extend_from_slice(b"\\n"),
        b'\r' => text.extend_from_slice(b"\\r"),
        b'\\' => text.extend_from_slice(b"\\\\"),
        _ => push_plain_byte(text, byte),
    }
}

// Adds a byte of a text.
fn push_text_byte(text: &mut Vec<u8>, byte: u8) -> Result<(), AllocError>
    ensures { OnOk result (text.new.items ≡ text.old.items ++ text_byte byte) }
{
    match byte {
        b' ' => text.extend_from_slice(b" "),
        _ => push_name_byte(text, byte),
    }
}

/// Appends a name as people read it. A visible ASCII byte stands as it is. A space is `\s`; tab, LF, CR and backslash
/// are `\t`, `\n`, `\r` and `\\`. Every other byte is `\x` and two hexadecimal digits. So a name is one word of a line,
/// and no byte of it moves a cursor or changes a colour.
///
/// # Errors
/// [`AllocError`] only where an allocation was refused.
pub fn push_name(text: &mut Vec<u8>, name: &[u8]) -> Result<(), AllocError>
    ensures { OnOk result (text.new.items ≡ text.old.items ++ name_words name.now) }
{
    for byte in name {
        push_name_byte(text, *byte)?;
    }
    Ok(())
}

/// Appends a text of several words, as a command line: like a name, but a space stays a space.
///
/// # Errors
/// [`AllocError`] only where an allocation was refused.
pub fn push_text(text: &mut Vec<u8>, words: &[u8]) -> Result<(), AllocError>
    ensures { OnOk result (text.new.items ≡ text.old.items ++ text_words words.now) }
{
    for byte in words {
        push_text_byte(text, *byte)?;
    }
    Ok(())
}
