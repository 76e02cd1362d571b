//! Runs of bytes of one class.
ghost use Rattle.std.specs.Prelude.{◌≡◌, ◌≤◌, ◌+◌, false, length, take, drop, unwrap_or};
ghost use Rattle.rev_syntax.specs.Ends.{ends_at, free_len};
ghost use Rattle.std.specs.List.{prefix_len, position_or_len, take_while};
ghost use Rattle.rev_syntax.specs.Bytes.{has, is_byte, after, without_spaces, begins_with};

use memchr::{memchr, memchr2, memchr3};

/// A class of bytes.
#[derive(Clone, Copy)]
pub(crate) enum Class {
    /// The bytes of a name.
    Name,
    /// The bytes of a name after a `$` without braces.
    BareName,
    /// The space.
    Space,
}

impl Class {
    fn has(self, byte: u8) -> bool
        ensures { result ≡ has self byte }
    {
        match self {
            Class::Name => {
                byte.is_ascii_alphanumeric() || byte == b'_' || byte == b'-' || byte == b'.'
            }
            Class::BareName => byte.is_ascii_alphanumeric() || byte == b'_' || byte == b'-',
            Class::Space => byte == b' ',
        }
    }
}

/// How many bytes of a class a text begins with.
pub(crate) fn run_len(class: Class, text: &[u8]) -> usize
    ensures within { result ≤ length text.now }
    ensures run { result ≡ prefix_len (has class) text.now }
{
    for (i, byte) in text.iter().enumerate() {
        if !class.has(*byte) {
            return i;
        }
    }
    text.len()
}

/// How many bytes stand before the first separator.
pub(crate) fn piece_len(separator: u8, text: &[u8]) -> usize
    ensures within { result ≤ length text.now }
    ensures piece { result ≡ position_or_len (is_byte separator) text.now }
{
    match memchr(separator, text) {
        Some(place) => place,
        None => text.len(),
    }
}

/// The bytes of a class that a text begins with, and what follows them.
pub(crate) fn split_run(class: Class, text: &[u8]) -> (&[u8], &[u8])
    ensures run { result.0.now ≡ take_while (has class) text.now }
    ensures rest { result.1.now ≡ after (has class) text.now }
{
    text.split_at(run_len(class, text))
}

/// A text without its leading spaces.
pub(crate) fn without_spaces(text: &[u8]) -> &[u8]
    ensures { result.now ≡ without_spaces text.now }
{
    split_run(Class::Space, text).1
}

/// Whether a text begins with that byte.
pub(crate) fn begins_with(byte: u8, text: &[u8]) -> bool
    ensures { result ≡ begins_with byte text.now }
{
    match text.first() {
        None => false,
        Some(first) => *first == byte,
    }
}

/// Where a part of a line ends.
#[derive(Clone, Copy)]
pub(crate) enum End {
    /// At a space.
    SpaceEnd,
    /// At a space, a colon or a bar, as a path.
    PathEnd,
    /// At a colon or a bar, as a list of paths.
    ListEnd,
}

impl End {
    fn is_at(self, byte: u8) -> bool
        ensures { result ≡ ends_at self byte }
    {
        match self {
            End::SpaceEnd => byte == b' ',
            End::PathEnd => byte == b' ' || byte == b':' || byte == b'|',
            End::ListEnd => byte == b':' || byte == b'|',
        }
    }
}

// The place that was found, or the length.
fn place_or_len(found: Option<usize>, text: &[u8]) -> usize
    ensures { result ≡ unwrap_or found (length text.now) }
{
    match found {
        Some(place) => place,
        None => text.len(),
    }
}

// How many bytes stand before the first that may be an end or is a `$`. Of a path alone that is not looked for.
fn plain_len(end: End, text: &[u8]) -> usize
    ensures within { result ≤ length text.now }
    ensures plain { free_len end false text.now ≡ result + free_len end false (drop result text.now) }
{
    match end {
        End::PathEnd => 0,
        End::SpaceEnd => place_or_len(memchr2(b' ', b'$', text), text),
        End::ListEnd => place_or_len(memchr3(b':', b'|', b'$', text), text),
    }
}

// How many bytes stand before the first end that no `$` takes along, byte by byte.
fn walked_len(end: End, text: &[u8]) -> usize
    ensures within { result ≤ length text.now }
    ensures free { result ≡ free_len end false text.now }
{
    let mut taken = false;
    for (i, byte) in text.iter().enumerate() {
        if !taken && end.is_at(*byte) {
            return i;
        }
        taken = !taken & (*byte == b'$');
    }
    text.len()
}

/// How many bytes stand before the first end that no `$` takes along.
pub(crate) fn free_len(end: End, text: &[u8]) -> usize
    ensures within { result ≤ length text.now }
    ensures free { result ≡ free_len end false text.now }
{
    let plain = plain_len(end, text);
    plain + walked_len(end, &text[plain..])
}

/// The bytes before the first end that no `$` takes along, and those from it on.
pub(crate) fn split_free(end: End, text: &[u8]) -> (&[u8], &[u8])
    ensures front { result.0.now ≡ take (free_len end false text.now) text.now }
    ensures rest { result.1.now ≡ drop (free_len end false text.now) text.now }
{
    text.split_at(free_len(end, text))
}
