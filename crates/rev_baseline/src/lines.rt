//! What a line of a baseline says.
ghost use Rattle.std.specs.Prelude.{◌≡◌, ◌==◌, ◌&&◌, ◌∷◌, [], not, bytes_eq, codes, IfOk};
ghost use Rattle.std.specs.List.{list_all};
ghost use Rattle.std.specs.Option.{option_map};
ghost use Rattle.rev_fields.specs.Lines.{is_blank};
ghost use Rattle.rev_fields.specs.Parts.{slices_of};
ghost use Rattle.rev_baseline.specs.Baselines.{id_in as id_of, is_odd as is_odd_of, is_remark as is_remark_of, pattern_in as pattern_of, words_of};

use hex::FromHex;
use rev_fields::parts_at;
use std::alloc::{AllocError, Global};

/// The words of a line, with a space between each two.
///
/// # Errors
/// [`AllocError`] only where an allocation was refused.
pub(crate) fn words<'a>(alloc: Global, line: &'a [u8]) -> Result<Vec<&'a [u8]>, AllocError>
    ensures { IfOk result (λ words. slices_of words.items ≡ words_of line.now) }
{
    parts_at(alloc, line, b' ')
}

// The number that 16 hexadecimal digits write.
fn number_of(word: &[u8]) -> Option<u64>
    ensures { result ≡ id_of (word.now ∷ []) }
{
    match <[u8; 8] as FromHex>::from_hex(word) {
        Ok(bytes) => Some(u64::from_be_bytes(bytes)),
        Err(_) => None,
    }
}

/// The finding that a line of these words knows.
pub(crate) fn id_in(words: &[&[u8]]) -> Option<u64>
    ensures { result ≡ id_of (slices_of words.now) }
{
    match words {
        [] => None,
        [word, ..] => number_of(word),
    }
}

// Whether all of some words are empty.
fn are_blank(words: &[&[u8]]) -> bool
    ensures { result ≡ list_all is_blank (slices_of words.now) }
{
    for word in words {
        if !word.is_empty() {
            return false;
        }
    }
    true
}

// Whether a pattern is ignored by these words.
fn is_ignored(word: &[u8], pattern: &[u8], reason: &[&[u8]]) -> bool
    ensures { result ≡ (bytes_eq word.now (codes "--ignore")
        && (not (is_blank pattern.now) && not (list_all is_blank (slices_of reason.now)))) }
{
    word == b"--ignore".as_slice() && (!pattern.is_empty() && !are_blank(reason))
}

/// The pattern that a line of these words ignores.
pub(crate) fn pattern_in<'a>(words: &[&'a [u8]]) -> Option<&'a [u8]>
    ensures { option_map (λ p. p.now) result ≡ pattern_of (slices_of words.now) }
{
    match words {
        [word, pattern, reason @ ..] => {
            if is_ignored(word, pattern, reason) {
                return Some(pattern);
            }
            None
        }
        _ => None,
    }
}

// Whether a line says nothing.
fn is_remark(line: &[u8]) -> bool
    ensures { result ≡ is_remark_of line.now }
{
    match line {
        [] => true,
        [first, ..] => *first == b'#',
    }
}

/// Whether a line may not stand after the first line.
///
/// # Errors
/// [`AllocError`] only where an allocation was refused.
pub(crate) fn is_odd(alloc: Global, line: &[u8]) -> Result<bool, AllocError>
    ensures { IfOk result (λ odd. odd ≡ is_odd_of line.now) }
{
    let words = words(alloc, line)?;
    Ok(!is_remark(line) && (id_in(&words).is_none() && pattern_in(&words).is_none()))
}
