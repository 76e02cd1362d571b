//! Names and texts as people read them.
ghost use Rattle.std.specs.Prelude.{◌≡◌, ◌<◌, ◌∷◌, [], Some, encode_utf8};
ghost use Rattle.rev_races_text.specs.Names.{by_words, name_if, path_words, text_byte, text_shown, written, written_byte, written_if};
ghost use Rattle.rev_shown.specs.Shown.{hex_digit, shown, shown_byte};

use serde::{Described, Serialize, Serializer};
use std::fmt;

/// A name as people read it: one word of visible ASCII, which reads back at the prompt. A space is `\s`, tab, LF, CR
/// and backslash are `\t`, `\n`, `\r` and `\\`, and every other byte that is not visible is `\x` and two digits.
#[derive(Clone, Copy)]
pub struct Shown<'a>(pub &'a [u8]);

/// A text of several words, as a command line: as a name, but a space stays one.
#[derive(Clone, Copy)]
pub struct Text<'a>(pub &'a [u8]);

/// A path as it stands on a build line (Ninja manual, lexical syntax): a `$` before each `$`, space and `:`. Bytes that
/// are not visible stand as in a name, since no terminal is to get them.
#[derive(Clone, Copy)]
pub struct Written<'a>(pub &'a [u8]);

/// A name, where there is one.
#[derive(Clone, Copy)]
pub struct NameIf<'a>(pub Option<Shown<'a>>);

/// A path as it stands on a build line, where there is one.
#[derive(Clone, Copy)]
pub struct WrittenIf<'a>(pub Option<Shown<'a>>);

/// A path of an edge, as `b.mod (by both.dd)`: with the dyndep file that says it, where the edge's own line does not.
#[derive(Clone, Copy)]
pub struct Made<'a> {
    /// The path.
    pub path: Shown<'a>,
    /// The dyndep file.
    pub file: Option<Shown<'a>>,
}

// The dyndep file behind a path, where there is one.
#[derive(Clone, Copy)]
struct ByFile<'a>(Option<Shown<'a>>);

// One byte of a name, of a text and of a path on a build line.
#[derive(Clone, Copy)]
struct ShownByte(u8);

#[derive(Clone, Copy)]
struct TextByte(u8);

#[derive(Clone, Copy)]
struct WrittenByte(u8);

// A digit to the base 16.
fn hex_digit(number: u8) -> char
    requires { number < 16 }
    ensures { encode_utf8 result ≡ hex_digit number ∷ [] }
{
    if number < 10 {
        char::from(b'0' + number)
    } else {
        char::from(b'a' - 10 + number)
    }
}

impl fmt::Display for ShownByte {
    ghost output = { λ b. Some (shown_byte b.0) };

    fn fmt<W: fmt::Write>(&self, f: &mut fmt::Formatter<W>) -> fmt::Result {
        let byte = self.0;
        match byte {
            b' ' => write!(f, "\\s"),
            b'\t' => write!(f, "\\t"),
            b'\n' => write!(f, "\\n"),
            b'\r' => write!(f, "\\r"),
            b'\\' => write!(f, "\\\\"),
            0x21..=0x7e => write!(f, "{}", char::from(byte)),
            _ => {
                let high = hex_digit(byte / 16);
                let low = hex_digit(byte % 16);
                write!(f, "\\x{high}{low}")
            }
        }
    }
}

impl fmt::Display for TextByte {
    ghost output = { λ b. Some (text_byte b.0) };

    fn fmt<W: fmt::Write>(&self, f: &mut fmt::Formatter<W>) -> fmt::Result {
        match self.0 {
            b' ' => write!(f, " "),
            byte => write!(f, "{}", ShownByte(byte)),
        }
    }
}

impl fmt::Display for WrittenByte {
    ghost output = { λ b. Some (written_byte b.0) };

    fn fmt<W: fmt::Write>(&self, f: &mut fmt::Formatter<W>) -> fmt::Result {
        match self.0 {
            b'$' => write!(f, "$$"),
            b' ' => write!(f, "$ "),
            b':' => write!(f, "$:"),
            b'\\' => write!(f, "\\"),
            byte => write!(f, "{}", ShownByte(byte)),
        }
    }
}

impl fmt::Display for Shown<'_> {
    ghost output = { λ name. Some (shown name.0.now) };

    fn fmt<W: fmt::Write>(&self, f: &mut fmt::Formatter<W>) -> fmt::Result {
        for byte in self.0 {
            write!(f, "{}", ShownByte(*byte))?;
        }
        Ok(())
    }
}

impl fmt::Display for Text<'_> {
    ghost output = { λ text. Some (text_shown text.0.now) };

    fn fmt<W: fmt::Write>(&self, f: &mut fmt::Formatter<W>) -> fmt::Result {
        for byte in self.0 {
            write!(f, "{}", TextByte(*byte))?;
        }
        Ok(())
    }
}

impl fmt::Display for Written<'_> {
    ghost output = { λ path. Some (written path.0.now) };

    fn fmt<W: fmt::Write>(&self, f: &mut fmt::Formatter<W>) -> fmt::Result {
        for byte in self.0 {
            write!(f, "{}", WrittenByte(*byte))?;
        }
        Ok(())
    }
}

impl fmt::Display for NameIf<'_> {
    ghost output = { λ name. Some (name_if name.0) };

    fn fmt<W: fmt::Write>(&self, f: &mut fmt::Formatter<W>) -> fmt::Result {
        match self.0 {
            Some(name) => write!(f, "{name}"),
            None => Ok(()),
        }
    }
}

impl fmt::Display for WrittenIf<'_> {
    ghost output = { λ path. Some (written_if path.0) };

    fn fmt<W: fmt::Write>(&self, f: &mut fmt::Formatter<W>) -> fmt::Result {
        match self.0 {
            Some(path) => write!(f, "{}", Written(path.0)),
            None => Ok(()),
        }
    }
}

impl fmt::Display for ByFile<'_> {
    ghost output = { λ b. Some (by_words b.0) };

    fn fmt<W: fmt::Write>(&self, f: &mut fmt::Formatter<W>) -> fmt::Result {
        match self.0 {
            Some(file) => write!(f, " (by {file})"),
            None => Ok(()),
        }
    }
}

impl fmt::Display for Made<'_> {
    ghost output = { λ m. Some (path_words m) };

    #[tactic(auto, unfolding(crate::specs::Names::path_words))]
    fn fmt<W: fmt::Write>(&self, f: &mut fmt::Formatter<W>) -> fmt::Result {
        let (path, file) = (self.path, ByFile(self.file));
        write!(f, "{path}{file}")
    }
}

impl Described for Shown<'_> {}

impl Serialize for Shown<'_> {
    fn serialize<S: Serializer>(&self, out: &mut S) -> Result<(), S::Error> {
        out.collect_str(self)
    }
}

impl Described for Text<'_> {}

impl Serialize for Text<'_> {
    fn serialize<S: Serializer>(&self, out: &mut S) -> Result<(), S::Error> {
        out.collect_str(self)
    }
}
