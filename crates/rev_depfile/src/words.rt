//! The lines and words of signs.
ghost use Rattle.std.specs.Prelude.{◌≡◌, ◌<◌, ◌≤◌, All, ◌++◌, ◌∷◌, [], filter, map, length, IfOk, OnOk};
ghost use Rattle.rev_depfile.specs.Lines.{has_some, is_blank, is_colon, is_line_end, place, word_text, words};
ghost use Rattle.rev_depfile.specs.Slices.{texts};

use crate::sign::Sign;
use std::alloc::{AllocError, Global};

// How many signs stand before the first line end.
pub(crate) fn line_len(signs: &[Sign]) -> usize
    ensures within { result ≤ length signs.now }
    ensures place { result ≡ place is_line_end signs.now }
{
    for (i, sign) in signs.iter().enumerate() {
        if sign.is_line_end() {
            return i;
        }
    }
    signs.len()
}

// How many signs stand before the first separating colon.
pub(crate) fn colon_place(signs: &[Sign]) -> usize
    ensures within { result ≤ length signs.now }
    ensures place { result ≡ place is_colon signs.now }
{
    for (i, sign) in signs.iter().enumerate() {
        if sign.is_colon() {
            return i;
        }
    }
    signs.len()
}

// How many signs stand before the first blank.
fn word_len(signs: &[Sign]) -> usize
    ensures within { result ≤ length signs.now }
    ensures place { result ≡ place is_blank signs.now }
{
    for (i, sign) in signs.iter().enumerate() {
        if sign.is_blank() {
            return i;
        }
    }
    signs.len()
}

// Adds a word, where there is one between two blanks.
fn push_word<'a>(found: &mut Vec<&'a [Sign]>, word: &'a [Sign]) -> Result<(), AllocError>
    ensures ok { OnOk result (texts found.new.items
        ≡ texts found.old.items ++ filter has_some (word.now ∷ [])) }
    ensures named { OnOk result (All (λ word. 0 < length word.now) found.old.items
        → All (λ word. 0 < length word.now) found.new.items) }
{
    if !word.is_empty() {
        found.push(word)?;
    }
    Ok(())
}

/// The words of a part of a line.
pub(crate) fn part_words<'a>(alloc: Global, part: &'a [Sign]) -> Result<Vec<&'a [Sign]>, AllocError>
    ensures words { IfOk result (λ found. texts found.items ≡ words part.now) }
    ensures named { IfOk result (λ found. All (λ word. 0 < length word.now) found.items) }
{
    let mut found = Vec::new(alloc);
    let mut rest = part;
    loop {
        let (word, tail) = rest.split_at(word_len(rest));
        push_word(&mut found, word)?;
        match tail.split_first() {
            None => return Ok(found),
            Some((_, after)) => rest = after,
        }
    }
}

/// The bytes of a word.
pub(crate) fn word_bytes(alloc: Global, word: &[Sign]) -> Result<Vec<u8>, AllocError>
    ensures text { IfOk result (λ text. text.items ≡ word_text word.now) }
{
    let mut text = Vec::new(alloc);
    let mut after_dollar = false;
    for sign in word {
        let byte = sign.byte();
        if byte == b'$' && after_dollar {
            after_dollar = false;
        } else {
            text.push(byte)?;
            after_dollar = byte == b'$';
        }
    }
    Ok(text)
}
