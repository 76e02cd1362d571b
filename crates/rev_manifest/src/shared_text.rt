//! Commands that stand once.
ghost use Rattle.std.specs.Prelude.{◌≡◌, IfOk};

use indexmap::IndexSet;
use rev_scopes::{Rule, SharedText};
use rev_syntax::Piece;
use std::alloc::AllocError;

/// A text that shares its bytes with an equal one among those given before, if there is one.
pub(crate) fn shared(
    texts: &mut IndexSet<SharedText>,
    bytes: Vec<u8>,
) -> Result<SharedText, AllocError>
    ensures { IfOk result (λ text. text ≡ bytes.items) }
{
    let text = SharedText::new(bytes)?;
    let (place, _) = texts.insert_full(text)?;
    match texts.get_index(place) {
        Some(kept) => kept.copy(),
        None => unreachable!(),
    }
}

// Whether a piece is the variable that stands for the outputs of an edge (Ninja manual, rule variables).
fn is_out(piece: Piece<'_>) -> bool {
    match piece {
        Piece::Literal(_) => false,
        Piece::Variable(name) => name == b"out".as_slice(),
    }
}

// Whether the command of a rule names the outputs of its edge. Then the edges of the rule have as many commands.
fn names_outputs(rule: &Rule) -> bool {
    let Some(command) = rule.text(b"command") else {
        return false;
    };
    let mut rest = command;
    while let Some((piece, after)) = rest.first_piece() {
        if is_out(piece) {
            return true;
        }
        rest = after;
    }
    false
}

/// The text of an edge's command. It is looked up among those given before only where another edge may have it, since
/// that takes a hash of the whole command.
pub(crate) fn shared_command(
    texts: &mut IndexSet<SharedText>,
    rule: &Option<Rule>,
    bytes: Vec<u8>,
) -> Result<SharedText, AllocError>
    ensures { IfOk result (λ text. text ≡ bytes.items) }
{
    let is_own = match rule {
        Some(rule) => names_outputs(rule),
        None => false,
    };
    if is_own {
        return SharedText::new(bytes);
    }
    shared(texts, bytes)
}
