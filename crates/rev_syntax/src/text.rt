//! Texts of the grammar, as they stand in the file.
ghost use Rattle.std.specs.Prelude.{◌≡◌, ◌≢◌, ◌++◌, ◌∷◌, ◌≤◌, [], None, Some, length, IfOk, IfSome, MatchResult, MatchOption};
ghost use Rattle.std.specs.List.{take_while};
ghost use Rattle.rev_syntax.specs.Bytes.{after, is_empty, is_in_name, is_in_bare_name};
ghost use Rattle.rev_syntax.specs.Texts.{fault_of, pieces_of, escape_of, braced, bare};
ghost use Rattle.rev_syntax.specs.Pieces.{seen_piece, IsEscape};

use crate::bytes::{Class, piece_len, split_run};
use crate::fault::SyntaxKind;
use std::alloc::{AllocError, Global};
use std::marker::Model;

/// A piece that a text begins with.
#[derive(Clone, Copy, Debug)]
pub enum Piece<'a> {
    /// Bytes that stand for themselves, at least one.
    Literal(&'a [u8]),
    /// The variable of that name.
    Variable(&'a [u8]),
}

/// A text of the grammar: what stands after the `=` of a binding, or a path. It is seen
/// as the list of its pieces, each a byte that stands for itself or a variable.
///
/// `$$`, `$` with a space, and `$:` are a dollar, a space and a colon. `$name` and
/// `${name}` are variables; a name after a bare `$` has no dot.
#[derive(Debug, Drop)]
pub struct Text<'a> {
    raw: &'a [u8],
}

impl<'a> Model for Text<'a> {
    ghost use Rattle.std.specs.Prelude.{◌≡◌, List, None};
    ghost use Rattle.rev_syntax.specs.Texts.{PieceValue, pieces_of, fault_of};

    ghost Value = { List PieceValue };

    ghost view = { λ text. pieces_of text.raw.now };

    ghost invariant = { λ text. fault_of text.raw.now ≡ None };
}

/// A text with its own memory, to be kept when its file is gone.
#[derive(Debug)]
pub struct StoredText {
    raw: Vec<u8>,
}

impl Drop for StoredText {
    fn drop(self) {
        let StoredText { raw: _raw } = self;
    }
}

impl Model for StoredText {
    ghost use Rattle.std.specs.Prelude.{◌≡◌, List, None};
    ghost use Rattle.rev_syntax.specs.Texts.{PieceValue, pieces_of, fault_of};

    ghost Value = { List PieceValue };

    ghost view = { λ text. pieces_of text.raw.items };

    ghost invariant = { λ text. fault_of text.raw.items ≡ None };
}

// `{name}` after a `$`, from the name on.
fn braced(rest: &[u8]) -> Option<(Piece<'_>, &[u8])>
    ensures escape { IsEscape (braced (take_while is_in_name rest.now) (after is_in_name rest.now))
        (123 ∷ rest.now) result }
    ensures within { IfSome result (λ found. length found.1.now ≤ length rest.now) }
{
    let (name, left) = split_run(Class::Name, rest);
    let (byte, after) = left.split_first()?;
    if name.is_empty() || *byte != b'}' {
        return None;
    }
    Some((Piece::Variable(name), after))
}

// `name` after a `$`.
fn bare(rest: &[u8]) -> Option<(Piece<'_>, &[u8])>
    ensures escape { IsEscape (bare (take_while is_in_bare_name rest.now)) rest.now result }
    ensures within { IfSome result (λ found. length found.1.now ≤ length rest.now) }
{
    let (name, after) = split_run(Class::BareName, rest);
    if name.is_empty() {
        return None;
    }
    Some((Piece::Variable(name), after))
}

// What a `$` says with the bytes after it, and what follows these.
fn escape_of(rest: &[u8]) -> Option<(Piece<'_>, &[u8])>
    ensures escape { IsEscape (escape_of rest.now) rest.now result }
    ensures within { IfSome result (λ found. length found.1.now ≤ length rest.now) }
{
    let (byte, after) = rest.split_first()?;
    if *byte == b'$' || *byte == b' ' || *byte == b':' {
        return Some((Piece::Literal(&rest[..1]), after));
    }
    if *byte == b'{' {
        return braced(after);
    }
    bare(rest)
}

// What follows the first piece of a text, which is its first byte with those that it takes along.
fn skip_piece(byte: u8, after: &[u8]) -> Result<&[u8], SyntaxKind>
    ensures fault { MatchResult result
        (λ left. fault_of (byte ∷ after.now) ≡ fault_of left.now)
        (λ kind. fault_of (byte ∷ after.now) ≡ Some kind) }
    ensures within { IfOk result (λ left. length left.now ≤ length after.now) }
{
    if byte == 0 || byte == b'\r' {
        return Err(SyntaxKind::Syntax);
    }
    if byte != b'$' {
        return Ok(after);
    }
    match escape_of(after) {
        None => Err(SyntaxKind::BadEscape),
        Some((_, left)) => Ok(left),
    }
}

// Refuses bytes that are no text, by their first fault.
fn check_text(raw: &[u8]) -> Result<(), SyntaxKind>
    ensures { MatchResult result (λ _. fault_of raw.now ≡ None) (λ kind. fault_of raw.now ≡ Some kind) }
{
    let mut rest = raw;
    while let Some((byte, after)) = rest.split_first() {
        rest = skip_piece(*byte, after)?;
    }
    Ok(())
}

// The first piece of a text, and what follows it.
fn split_piece(raw: &[u8]) -> Option<(Piece<'_>, &[u8])>
    requires { fault_of raw.now ≡ None }
    ensures pieces { MatchOption result (raw.now ≡ [])
        (λ found. pieces_of raw.now ≡ seen_piece found.0 ++ pieces_of found.1.now) }
    ensures text { IfSome result (λ found. fault_of found.1.now ≡ None) }
    ensures some { IfSome result (λ found. seen_piece found.0 ≢ []) }
{
    let (byte, after) = raw.split_first()?;
    if *byte == b'$' {
        let (piece, rest) = escape_of(after)?;
        return Some((piece, rest));
    }
    let (bytes, rest) = raw.split_at(piece_len(b'$', raw));
    Some((Piece::Literal(bytes), rest))
}

impl<'a> Text<'a> {
    /// The text that these bytes are, to their end: they stand as after the `=` of a binding.
    ///
    /// # Errors
    /// The first fault from the left: [`SyntaxKind::BadEscape`] at a `$` that can stand before
    /// nothing that follows it, [`SyntaxKind::Syntax`] at a NUL or CR.
    pub fn new(raw: &'a [u8]) -> Result<Text<'a>, SyntaxKind>
        ensures text { IfOk result (λ text. text ≡ pieces_of raw.now) }
        ensures fault { MatchResult result (λ _. fault_of raw.now ≡ None) (λ kind. fault_of raw.now ≡ Some kind) }
    {
        check_text(raw)?;
        Ok(Text { raw })
    }

    /// Whether it has no pieces.
    pub fn is_empty(&self) -> bool
        ensures { result ≡ is_empty self.now }
    {
        self.raw.is_empty()
    }

    /// The first piece and what follows it, which is a shorter text. Of bytes that stand for
    /// themselves as many are given as stand there without an escape.
    pub fn first_piece(&self) -> Option<(Piece<'a>, Text<'a>)>
        ensures pieces { MatchOption result (self.now ≡ []) (λ found. self.now ≡ seen_piece found.0 ++ found.1) }
        ensures some { IfSome result (λ found. seen_piece found.0 ≢ []) }
    {
        let (piece, raw) = split_piece(self.raw)?;
        Some((piece, Text { raw }))
    }

    /// The same text, lent once more.
    pub fn copy(&self) -> Text<'a>
        ensures { result ≡ self.now }
    {
        Text { raw: self.raw }
    }

    /// The same text with its own memory.
    ///
    /// # Errors
    /// [`AllocError`] where an allocation was refused.
    pub fn to_stored(&self, alloc: Global) -> Result<StoredText, AllocError>
        ensures { IfOk result (λ stored. stored ≡ self.now) }
    {
        let raw = Vec::from_slice(alloc, self.raw)?;
        Ok(StoredText { raw })
    }
}

impl StoredText {
    /// The text, lent.
    pub fn text(&self) -> Text<'_>
        ensures { result ≡ self.now }
    {
        Text {
            raw: self.raw.as_slice(),
        }
    }
}
