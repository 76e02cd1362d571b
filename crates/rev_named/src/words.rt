//! The words of a text, as canonical paths.
ghost use Rattle.std.specs.Prelude.{◌≡◌, List, ℕ, bytes_eq, true, if◌then◌else◌, IfOk, OnOk};
ghost use Rattle.std.specs.List.{list_any};
ghost use Rattle.indexmap.specs.IndexSet.{contains};
ghost use Rattle.rev_named.specs.Words.{path_in, undotted as undotted_of, with_word, word_in, words as words_of};

use crate::pieces::pieces;
use indexmap::IndexSet;
use rev_paths::{Name, PathFault};
use std::alloc::{AllocError, Global};

// What is left of a piece without the dots at its end.
fn undotted(piece: &[u8]) -> &[u8]
    ensures { result.now ≡ undotted_of piece.now }
{
    let mut rest = piece;
    while let Some((last, before)) = rest.split_last() {
        if *last != b'.' {
            return rest;
        }
        rest = before;
    }
    rest
}

/// The canonical path that bytes say, if they say one.
///
/// # Errors
/// [`AllocError`] only where an allocation was refused.
pub(crate) fn path_of(alloc: Global, bytes: &[u8]) -> Result<Option<Name>, AllocError>
    ensures { IfOk result (λ path. path ≡ path_in bytes.now) }
{
    match Name::new(alloc, bytes) {
        Ok(path) => Ok(Some(path)),
        Err(PathFault::EmptyPath | PathFault::LongPath) => Ok(None),
        Err(PathFault::Memory) => Err(AllocError),
    }
}

// Adds a word.
fn add_word(words: &mut IndexSet<Name>, word: &Name) -> Result<(), AllocError>
    ensures { OnOk result ((other : List ℕ) → contains bytes_eq words.new other
        ≡ (if bytes_eq word.now other then true else contains bytes_eq words.old other)) }
{
    words.insert(word.copy()?)?;
    Ok(())
}

// Adds the word of a piece, if it has one.
fn add_piece(alloc: Global, piece: &[u8], words: &mut IndexSet<Name>) -> Result<(), AllocError>
    ensures { OnOk result ((other : List ℕ) → contains bytes_eq words.new other
        ≡ with_word (word_in piece.now) other (contains bytes_eq words.old other)) }
{
    let Some(word) = path_of(alloc, undotted(piece))? else {
        return Ok(());
    };
    add_word(words, &word)?;
    Ok(())
}

/// The words of a text, in one pass over it.
///
/// # Errors
/// [`AllocError`] only where an allocation was refused.
pub(crate) fn words(alloc: Global, text: &[u8]) -> Result<IndexSet<Name>, AllocError>
    ensures { IfOk result (λ words. (word : List ℕ)
        → contains bytes_eq words word ≡ list_any (bytes_eq word) (words_of text.now)) }
{
    let pieces = pieces(alloc, text)?;
    let mut words = IndexSet::new(alloc);
    for piece in &pieces {
        add_piece(alloc, piece, &mut words)?;
    }
    Ok(words)
}
