//! Names as people read them.
ghost use Rattle.std.specs.Prelude.{◌≡◌, ◌<◌, ◌∷◌, ◌++◌, [], if◌then◌else◌, OnOk};
ghost use Rattle.rev_shown.specs.Shown.{hex_byte, hex_digit, is_visible, shown, shown_byte};

use std::alloc::AllocError;

// A digit to the base 16.
fn hex_digit(number: u8) -> u8
    requires { number < 16 }
    ensures { result ≡ hex_digit number }
{
    if number < 10 {
        b'0' + number
    } else {
        b'a' - 10 + number
    }
}

// Whether a byte is a visible one of ASCII.
fn is_visible(byte: u8) -> bool
    ensures { result ≡ is_visible byte }
{
    32 < byte && byte < 127
}

// Adds `\x` and both digits of a byte.
fn push_hex(text: &mut Vec<u8>, byte: u8) -> Result<(), AllocError>
    ensures { OnOk result (text.new.items ≡ text.old.items ++ hex_byte byte) }
{
    text.extend_from_slice(b"\\x")?;
    text.push(hex_digit(byte / 16))?;
    text.push(hex_digit(byte % 16))?;
    Ok(())
}

// Adds a byte.
fn push_byte(text: &mut Vec<u8>, byte: u8) -> Result<(), AllocError>
    ensures { OnOk result (text.new.items ≡ text.old.items ++ shown_byte byte) }
{
    match byte {
        b' ' => text.extend_from_slice(b"\\s"),
        b'\t' => text.extend_from_slice(b"\\t"),
        b'\n' => text.extend_from_slice(b"\\n"),
        b'\r' => text.extend_from_slice(b"\\r"),
        b'\\' => text.extend_from_slice(b"\\\\"),
        _ => push_plain(text, byte),
    }
}

// Adds a byte that has no letter.
fn push_plain(text: &mut Vec<u8>, byte: u8) -> Result<(), AllocError>
    ensures { OnOk result (text.new.items ≡ text.old.items ++ (if is_visible byte then byte ∷ [] else hex_byte byte)) }
{
    if is_visible(byte) {
        text.push(byte)?;
        return Ok(());
    }
    push_hex(text, byte)
}

/// Appends a name as people read it. A visible ASCII byte stands as it is. A space is `\s`; tab, LF, CR and backslash
/// are `\t`, `\n`, `\r` and `\\`. Every other byte is `\x` and two hexadecimal digits. So a name is one word of a line,
/// and no byte of it moves a cursor or changes a colour.
///
/// # Errors
/// [`AllocError`] only where an allocation was refused.
pub fn push_shown(text: &mut Vec<u8>, name: &[u8]) -> Result<(), AllocError>
    ensures { OnOk result (text.new.items ≡ text.old.items ++ shown name.now) }
{
    for byte in name {
        push_byte(text, *byte)?;
    }
    Ok(())
}
