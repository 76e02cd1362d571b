//! Bindings under a statement.
ghost use Rattle.std.specs.Prelude.{◌≡◌, ◌<◌, ◌||◌, length, map, IfOk, OnOk};
ghost use Rattle.rev_syntax.specs.Seen.{seen_binding};
ghost use Rattle.rev_scopes.specs.Scopes.{variable_in};
ghost use Rattle.rev_scopes.specs.Expansion.{expanded, is_too_large};
ghost use Rattle.rev_manifest.specs.Blocks.{binds, are_depths, with_earlier, values_of, has_large, kept, kept_values, is_large_above, IsRuleWith};

use rev_scopes::{Bindings, Rule, RuleTexts, RuleVariable, Scopes, SharedText, ValueFault, expand};
use rev_syntax::{Binding, Text};
use std::alloc::{AllocError, Global};

/// Whether a name is bound.
pub(crate) fn binds(name: &[u8], bindings: &[Binding<'_>]) -> bool
    ensures { result ≡ binds name.now (map seen_binding bindings.now) }
{
    for binding in bindings {
        if name == binding.name {
            return true;
        }
    }
    false
}

/// Whether all names are `depth`.
pub(crate) fn are_depths(bindings: &[Binding<'_>]) -> bool
    ensures { result ≡ are_depths (map seen_binding bindings.now) }
{
    for binding in bindings {
        if binding.name != b"depth".as_slice() {
            return false;
        }
    }
    true
}

/// The rule that has these texts; of two with one name the later counts. `None` where a rule has no variable of such a
/// name.
pub(crate) fn rule_with(alloc: Global, bindings: &[Binding<'_>]) -> Result<Option<Rule>, AllocError>
    ensures { IfOk result (IsRuleWith (map seen_binding bindings.now)) }
{
    let mut texts = RuleTexts::new(alloc);
    for binding in bindings {
        match RuleVariable::named(binding.name) {
            None => return Ok(None),
            Some(variable) => texts.bind(variable, binding.value.to_stored(alloc)?)?,
        }
    }
    Ok(Some(texts.into_rule()?))
}

/// The values of a block.
#[derive(Drop)]
pub(crate) struct Block {
    /// The values. Other bytes stand for one that is too large, more than a path may have.
    pub(crate) values: Bindings,
    /// Whether a value is too large.
    pub(crate) is_large: bool,
}

// The value of a text as it is kept, and whether it is too large.
fn kept_value(
    alloc: Global,
    text: Text<'_>,
    scopes: &Scopes,
    scope: usize,
) -> Result<(SharedText, bool), AllocError>
    requires { scope < length scopes.now }
    ensures value { IfOk result (λ found. found.0
        ≡ kept (expanded (variable_in scopes.now scope) text.entry)) }
    ensures large { IfOk result (λ found. found.1
        ≡ is_too_large (expanded (variable_in scopes.now scope) text.entry)) }
{
    match expand(alloc, text, scopes, scope) {
        Ok(value) => Ok((value, false)),
        Err(ValueFault::Memory) => Err(AllocError),
        Err(ValueFault::TooLarge) => {
            let stand_in = vec![in alloc; b'x'; 4097]?;
            Ok((SharedText::new(stand_in)?, true))
        }
        Err(ValueFault::NeedsItself) => unreachable!(),
    }
}

// Adds a binding above those of a block, where a later one of its name counts in its place.
fn add_earlier(
    alloc: Global,
    block: &mut Block,
    binding: &Binding<'_>,
    scopes: &Scopes,
    scope: usize,
) -> Result<(), AllocError>
    requires { scope < length scopes.now }
    ensures values { OnOk result (block.new.values
        ≡ with_earlier (λ text. kept (expanded (variable_in scopes.now scope) text))
        (seen_binding binding.now) block.old.values) }
    ensures large { OnOk result (block.new.is_large
        ≡ (block.old.is_large
        || is_large_above (variable_in scopes.now scope) block.old.values
        (seen_binding binding.now))) }
{
    if block.values.value(binding.name).is_some() {
        return Ok(());
    }
    let (value, is_large) = kept_value(alloc, binding.value.copy(), scopes, scope)?;
    block.values.bind(alloc, binding.name, value)?;
    if is_large {
        block.is_large = true;
    }
    Ok(())
}

/// The values of a block. Of each name the last binding alone is expanded.
pub(crate) fn block_of(
    alloc: Global,
    bindings: &[Binding<'_>],
    scopes: &Scopes,
    scope: usize,
) -> Result<Block, AllocError>
    requires { scope < length scopes.now }
    ensures values { IfOk result (λ block. block.values
        ≡ kept_values (variable_in scopes.now scope) (map seen_binding bindings.now)) }
    ensures large { IfOk result (λ block. block.is_large
        ≡ has_large (values_of (variable_in scopes.now scope) (map seen_binding bindings.now))) }
{
    let mut block = Block {
        values: Bindings::new(alloc),
        is_large: false,
    };
    let mut left = bindings.len();
    while left > 0 {
        left -= 1;
        add_earlier(alloc, &mut block, &bindings[left], scopes, scope)?;
    }
    Ok(block)
}
