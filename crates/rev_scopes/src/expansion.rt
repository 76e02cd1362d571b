//! Expansion of texts as they are read.
ghost use Rattle.std.specs.Prelude.{◌≡◌, ◌≢◌, ◌<◌, ◌≤◌, ◌∷◌, [], length, IfOk, IfSome, OnOk, IsErrOf};
ghost use Rattle.std.specs.Option.{option_copied};
ghost use Rattle.rev_syntax.specs.Texts.{Variable};
ghost use Rattle.rev_syntax.specs.Pieces.{seen_piece};
ghost use Rattle.rev_scopes.specs.Scopes.{variable_in};
ghost use Rattle.rev_scopes.specs.Expansion.{expanded, in_block, appended};
ghost use Rattle.rev_scopes.specs.declared.growth.TheConstants.{MAX_VALUE_BYTES};

use crate::bindings::Bindings;
use crate::fault::ValueFault;
use crate::growth::{Growth, MAX_VALUE_BYTES};
use crate::scopes::Scopes;
use crate::shared_text::SharedText;
use rev_syntax::{Piece, Text};
use std::alloc::{AllocError, Global};

// The value of a name: in a block, else in the scopes.
fn value_in<'a>(block: &'a Bindings, scopes: &'a Scopes, scope: usize, name: &[u8]) -> &'a [u8]
    ensures { result.now ≡ in_block block.now (variable_in scopes.now scope) name.now }
{
    match block.value(name) {
        Some(value) => value,
        None => scopes.variable(scope, name),
    }
}

// Adds what a piece stands for.
fn push_piece(
    growth: &mut Growth,
    piece: Piece<'_>,
    block: &Bindings,
    scopes: &Scopes,
    scope: usize,
) -> Result<(), AllocError>
    ensures { OnOk result (growth.new
        ≡ appended growth.old
        (expanded (in_block block.now (variable_in scopes.now scope)) (seen_piece piece.entry))) }
{
    match piece {
        Piece::Literal(bytes) => growth.push(bytes)?,
        Piece::Variable(name) => growth.push(value_in(block, scopes, scope, name))?,
    }
    Ok(())
}

/// The value of a text in a block of a scope: a variable is looked up in the block, whose values are expanded already,
/// then in the scope, then in its parents. A variable that is nowhere is empty.
///
/// # Errors
/// [`ValueFault::TooLarge`] where the value has more than [`MAX_VALUE_BYTES`](crate::MAX_VALUE_BYTES) bytes, and
/// [`ValueFault::Memory`] only where an allocation was refused. No more memory is taken for the value than the limit.
pub fn expand_in_block(
    alloc: Global,
    text: Text<'_>,
    block: &Bindings,
    scopes: &Scopes,
    scope: usize,
) -> Result<Vec<u8>, ValueFault>
    ensures value { IfOk result (λ value. value.items
        ≡ expanded (in_block block.now (variable_in scopes.now scope)) text.entry) }
    ensures within { IfOk result (λ value. length value.items ≤ MAX_VALUE_BYTES) }
    ensures too_large { IsErrOf result ValueFault.TooLarge
        → MAX_VALUE_BYTES < length
        (expanded (in_block block.now (variable_in scopes.now scope)) text.entry) }
    ensures finite { result ≢ Err ValueFault.NeedsItself }
{
    let mut growth = Growth::new(alloc);
    let mut rest = text;
    while let Some((piece, after)) = rest.first_piece() {
        push_piece(&mut growth, piece, block, scopes, scope)?;
        rest = after;
    }
    growth.into_value().ok_or(ValueFault::TooLarge)
}

// The name of the variable that a text is, where it is one variable and nothing else.
fn lone_variable<'a>(text: &Text<'a>) -> Option<&'a [u8]>
    ensures { IfSome result (λ name. text.now ≡ Variable name.now ∷ []) }
{
    let (piece, rest) = text.first_piece()?;
    match piece {
        Piece::Variable(name) if rest.is_empty() => Some(name),
        _ => None,
    }
}

// What a text is bound to that is one variable and nothing else, where that is bound and no more than a value may be.
fn lone_binding<'a>(text: &Text<'_>, scopes: &'a Scopes, scope: usize) -> Option<&'a SharedText>
    ensures value { IfSome (option_copied result) (λ value. value
        ≡ expanded (variable_in scopes.now scope) text.now) }
    ensures within { IfSome (option_copied result) (λ value. length value ≤ MAX_VALUE_BYTES) }
{
    let value = scopes.binding(scope, lone_variable(text)?)?;
    if value.as_bytes().len() > MAX_VALUE_BYTES {
        return None;
    }
    Some(value)
}

/// The value of a text in a scope: a variable is looked up in the scope, then in its parents. A variable that is
/// nowhere is empty. A text that is one variable and nothing else shares the bytes of its value.
///
/// # Errors
/// As [`expand_in_block`].
pub fn expand(
    alloc: Global,
    text: Text<'_>,
    scopes: &Scopes,
    scope: usize,
) -> Result<SharedText, ValueFault>
    ensures value { IfOk result (λ value. value ≡ expanded (variable_in scopes.now scope) text.entry) }
    ensures within { IfOk result (λ value. length value ≤ MAX_VALUE_BYTES) }
    ensures too_large { IsErrOf result ValueFault.TooLarge
        → MAX_VALUE_BYTES < length (expanded (variable_in scopes.now scope) text.entry) }
    ensures finite { result ≢ Err ValueFault.NeedsItself }
{
    if let Some(value) = lone_binding(&text, scopes, scope) {
        let shared = value.copy()?;
        return Ok(shared);
    }
    let value = expand_in_block(alloc, text, &Bindings::new(alloc), scopes, scope)?;
    let made = SharedText::new(value)?;
    Ok(made)
}
