//! How text stands in each format.
ghost use Rattle.std.specs.Prelude.{◌≡◌, ◌++◌, ◌<◌, OnOk};
ghost use Rattle.rev_formats.specs.Escapes.{hex_digit, is_plain, is_uri, json, json_byte, message, message_byte, plain_byte, property, property_byte, uri, uri_byte, xml, xml_byte};

use std::alloc::AllocError;

// Adds a byte of a message.
fn push_message_byte(text: &mut Vec<u8>, byte: u8) -> Result<(), AllocError>
    ensures { OnOk result (text.new.items ≡ text.old.items ++ message_byte byte) }
{
    match byte {
        b'%' => text.extend_from_slice(b"%25"),
        b'\r' => text.extend_from_slice(b"%0D"),
        b'\n' => text.extend_from_slice(b"%0A"),
        _ => text.extend_from_slice(&[byte]),
    }
}

/// Adds the message of one of GitHub's workflow commands.
///
/// # Errors
/// [`AllocError`] only where an allocation was refused.
pub fn push_message(text: &mut Vec<u8>, bytes: &[u8]) -> Result<(), AllocError>
    ensures { OnOk result (text.new.items ≡ text.old.items ++ message bytes.now) }
{
    for byte in bytes {
        push_message_byte(text, *byte)?;
    }
    Ok(())
}

// Adds a byte of a property.
fn push_property_byte(text: &mut Vec<u8>, byte: u8) -> Result<(), AllocError>
    ensures { OnOk result (text.new.items ≡ text.old.items ++ property_byte byte) }
{
    match byte {
        b':' => text.extend_from_slice(b"%3A"),
        b',' => text.extend_from_slice(b"%2C"),
        _ => push_message_byte(text, byte),
    }
}

/// Adds a property of one of GitHub's workflow commands, as a file's name.
///
/// # Errors
/// [`AllocError`] only where an allocation was refused.
pub fn push_property(text: &mut Vec<u8>, bytes: &[u8]) -> Result<(), AllocError>
    ensures { OnOk result (text.new.items ≡ text.old.items ++ property bytes.now) }
{
    for byte in bytes {
        push_property_byte(text, *byte)?;
    }
    Ok(())
}

// Whether a byte is a visible one of ASCII, or a space.
fn is_plain(byte: u8) -> bool
    ensures { result ≡ is_plain byte }
{
    32 <= byte && byte < 127
}

// Adds a byte as it is, or a question mark.
fn push_plain(text: &mut Vec<u8>, byte: u8) -> Result<(), AllocError>
    ensures { OnOk result (text.new.items ≡ text.old.items ++ plain_byte byte) }
{
    if is_plain(byte) {
        return text.extend_from_slice(&[byte]);
    }
    text.extend_from_slice(b"?")
}

// Adds a byte of a string of JSON.
fn push_json_byte(text: &mut Vec<u8>, byte: u8) -> Result<(), AllocError>
    ensures { OnOk result (text.new.items ≡ text.old.items ++ json_byte byte) }
{
    match byte {
        b'"' => text.extend_from_slice(b"\\\""),
        b'\\' => text.extend_from_slice(b"\\\\"),
        b'\n' => text.extend_from_slice(b"\\n"),
        _ => push_plain(text, byte),
    }
}

/// Adds what stands between the quotes of a string of JSON.
///
/// # Errors
/// [`AllocError`] only where an allocation was refused.
pub fn push_json(text: &mut Vec<u8>, bytes: &[u8]) -> Result<(), AllocError>
    ensures { OnOk result (text.new.items ≡ text.old.items ++ json bytes.now) }
{
    for byte in bytes {
        push_json_byte(text, *byte)?;
    }
    Ok(())
}

// Adds a byte of a text of XML.
fn push_xml_byte(text: &mut Vec<u8>, byte: u8) -> Result<(), AllocError>
    ensures { OnOk result (text.new.items ≡ text.old.items ++ xml_byte byte) }
{
    match byte {
        b'&' => text.extend_from_slice(b"&amp;"),
        b'<' => text.extend_from_slice(b"&lt;"),
        b'>' => text.extend_from_slice(b"&gt;"),
        b'"' => text.extend_from_slice(b"&quot;"),
        b'\n' => text.extend_from_slice(b"&#10;"),
        _ => push_plain(text, byte),
    }
}

/// Adds a text of XML, which may stand in an attribute.
///
/// # Errors
/// [`AllocError`] only where an allocation was refused.
pub fn push_xml(text: &mut Vec<u8>, bytes: &[u8]) -> Result<(), AllocError>
    ensures { OnOk result (text.new.items ≡ text.old.items ++ xml bytes.now) }
{
    for byte in bytes {
        push_xml_byte(text, *byte)?;
    }
    Ok(())
}

// A digit to the base 16.
fn hex_digit(number: u8) -> u8
    requires { number < 16 }
    ensures { result ≡ hex_digit number }
{
    if number < 10 {
        b'0' + number
    } else {
        b'A' - 10 + number
    }
}

// Whether a byte stands for itself in a path of a URI.
fn is_uri(byte: u8) -> bool
    ensures { result ≡ is_uri byte }
{
    matches!(byte, b'a'..=b'z' | b'A'..=b'Z' | b'0'..=b'9' | b'-' | b'.' | b'_' | b'~' | b'/')
}

// Adds a byte of a path of a URI.
fn push_uri_byte(text: &mut Vec<u8>, byte: u8) -> Result<(), AllocError>
    ensures { OnOk result (text.new.items ≡ text.old.items ++ uri_byte byte) }
{
    if is_uri(byte) {
        return text.extend_from_slice(&[byte]);
    }
    text.extend_from_slice(&[b'%', hex_digit(byte / 16), hex_digit(byte % 16)])
}

/// Adds a path as a URI has it (RFC 3986).
///
/// # Errors
/// [`AllocError`] only where an allocation was refused.
pub fn push_uri(text: &mut Vec<u8>, bytes: &[u8]) -> Result<(), AllocError>
    ensures { OnOk result (text.new.items ≡ text.old.items ++ uri bytes.now) }
{
    for byte in bytes {
        push_uri_byte(text, *byte)?;
    }
    Ok(())
}
