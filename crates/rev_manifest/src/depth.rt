//! The depth of a pool, as a text says it.
ghost use Rattle.std.specs.Prelude.{◌≡◌, ◌<◌, ◌≤◌, length, None, IfSome, if◌then◌else◌};
ghost use Rattle.rev_syntax.specs.Pieces.{seen_piece};
ghost use Rattle.rev_scopes.specs.Scopes.{variable_in};
ghost use Rattle.rev_scopes.specs.Expansion.{expanded};
ghost use Rattle.rev_manifest.specs.Names.{is_empty};
ghost use Rattle.rev_manifest.specs.Depths.{depth_from};

use rev_scopes::Scopes;
use rev_syntax::{Piece, Text};

/// The greatest depth that a pool may have.
const MAX_DEPTH: u32 = 1_000_000;

// The number that digits say after those that said a number.
fn depth_from(number: u32, digits: &[u8]) -> Option<u32>
    requires { number ≤ MAX_DEPTH }
    ensures value { result ≡ depth_from number digits.now }
    ensures small { IfSome result (λ depth. depth ≤ MAX_DEPTH) }
{
    let mut so_far = number;
    for byte in digits {
        if !byte.is_ascii_digit() {
            return None;
        }
        let next = so_far * 10 + (*byte - b'0') as u32;
        if next > MAX_DEPTH {
            return None;
        }
        so_far = next;
    }
    Some(so_far)
}

/// The bytes that a piece stands for.
pub(crate) fn bytes_of<'a>(piece: Piece<'a>, scopes: &'a Scopes, scope: usize) -> &'a [u8]
    requires { scope < length scopes.now }
    ensures { result.now ≡ expanded (variable_in scopes.now scope) (seen_piece piece.entry) }
{
    match piece {
        Piece::Literal(bytes) => bytes,
        Piece::Variable(name) => scopes.variable(scope, name),
    }
}

/// The number that a text's digits say. A text of no pieces says none.
/// The text is not expanded as a whole, so it may be longer than a value may be.
pub(crate) fn depth_of_text(text: &Text<'_>, scopes: &Scopes, scope: usize) -> Option<u32>
    requires { scope < length scopes.now }
    ensures { result ≡ (if is_empty text.now then None
        else depth_from 0 (expanded (variable_in scopes.now scope) text.now)) }
{
    let (piece, mut rest) = text.first_piece()?;
    let mut number = depth_from(0, bytes_of(piece, scopes, scope))?;
    while let Some((piece, after)) = rest.first_piece() {
        number = depth_from(number, bytes_of(piece, scopes, scope))?;
        rest = after;
    }
    Some(number)
}
