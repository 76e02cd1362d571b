//! Text at a terminal.
ghost use Rattle.std.specs.Prelude.{◌≡◌, ◌<◌, ◌∷◌, ◌++◌, [], if◌then◌else◌, OnOk};
ghost use Rattle.std.specs.List.{flat_map};
ghost use Rattle.rev_program.specs.Visible.{hex_digit, is_harmless, visible_byte};

use std::alloc::AllocError;

// A digit to the base 16.
fn hex_digit(number: u8) -> u8
    requires { number < 16 }
    ensures { result ≡ hex_digit number }
{
    if number < 10 {
        b'0' + number
    } else {
        b'a' - 10 + number
    }
}

// Whether a terminal takes a byte for a letter, a space or the end of a line, and for nothing else.
fn is_harmless(byte: u8) -> bool
    ensures { result ≡ is_harmless byte }
{
    byte == b'\n' || 31 < byte && byte < 127
}

// Adds a byte.
fn push_byte(text: &mut Vec<u8>, byte: u8) -> Result<(), AllocError>
    ensures { OnOk result (text.new.items ≡ text.old.items ++ visible_byte byte) }
{
    if is_harmless(byte) {
        text.push(byte)?;
        return Ok(());
    }
    text.extend_from_slice(b"\\x")?;
    text.push(hex_digit(byte / 16))?;
    text.push(hex_digit(byte % 16))?;
    Ok(())
}

/// Appends a text in a form that no terminal obeys. Visible ASCII bytes, spaces and line ends stay as they are, and
/// every other byte is `\x` and two hexadecimal digits. So no byte of a name moves a cursor, changes a colour, or turns
/// the direction of what follows.
///
/// # Errors
/// [`AllocError`] only where an allocation was refused.
pub fn push_visible(text: &mut Vec<u8>, bytes: &[u8]) -> Result<(), AllocError>
    ensures { OnOk result (text.new.items ≡ text.old.items ++ flat_map visible_byte bytes.now) }
{
    for byte in bytes {
        push_byte(text, *byte)?;
    }
    Ok(())
}
