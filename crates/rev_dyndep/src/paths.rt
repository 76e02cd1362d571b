//! The paths of a dyndep file.
ghost use Rattle.std.specs.Prelude.{◌≡◌, ◌++◌, Ok, MatchResult, IfOk, OnOk};
ghost use Rattle.rev_syntax.specs.Pieces.{seen_piece};
ghost use Rattle.rev_scopes.specs.Expansion.{expanded};
ghost use Rattle.rev_dyndep.specs.Answers.{IsFault};
ghost use Rattle.rev_dyndep.specs.Told.{no_value, path_of, paths_of};

use crate::fault::{DyndepKind, ReadFault, refused};
use rev_paths::{Name, PathFault};
use rev_syntax::{Piece, Text};
use std::alloc::{AllocError, Global};

// Adds what a piece stands for.
#[tactic(auto, using(crate::proofs::TextLemmas::expanded_bytes))]
fn push_piece(value: &mut Vec<u8>, piece: Piece<'_>) -> Result<(), AllocError>
    ensures { OnOk result (value.new.items ≡ value.old.items ++ expanded no_value (seen_piece piece.entry)) }
{
    if let Piece::Literal(bytes) = piece {
        value.extend_from_slice(bytes)?;
    }
    Ok(())
}

/// The value of a text, in which no variable has a value.
pub(crate) fn value_of(alloc: Global, text: Text<'_>) -> Result<Vec<u8>, AllocError>
    ensures { IfOk result (λ value. value.items ≡ expanded no_value text.entry) }
{
    let mut value = Vec::new(alloc);
    let mut rest = text;
    while let Some((piece, after)) = rest.first_piece() {
        push_piece(&mut value, piece)?;
        rest = after;
    }
    Ok(value)
}

/// The canonical name of a path, or its fault.
pub(crate) fn path_of(alloc: Global, line: u64, text: &Text<'_>) -> Result<Name, ReadFault>
    ensures { MatchResult result
        (λ name. path_of line text.now ≡ Ok name)
        (λ fault. IsFault fault (path_of line text.now)) }
{
    let value = value_of(alloc, text.copy())?;
    match Name::new(alloc, &value) {
        Ok(name) => Ok(name),
        Err(PathFault::Memory) => Err(ReadFault::Memory),
        Err(PathFault::EmptyPath) => Err(refused(line, DyndepKind::EmptyPath)),
        Err(PathFault::LongPath) => Err(refused(line, DyndepKind::LongPath)),
    }
}

/// The canonical names of paths, or the fault of the leftmost that has one.
pub(crate) fn paths_of(alloc: Global, line: u64, texts: &[Text<'_>]) -> Result<Vec<Name>, ReadFault>
    ensures { MatchResult result
        (λ names. paths_of line texts.now ≡ Ok names.items)
        (λ fault. IsFault fault (paths_of line texts.now)) }
{
    let mut names = Vec::new(alloc);
    for text in texts {
        let name = path_of(alloc, line, text)?;
        names.push(name)?;
    }
    Ok(names)
}
