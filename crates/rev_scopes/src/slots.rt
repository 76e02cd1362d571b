//! The texts of an edge's rule with their values so far.
ghost use Rattle.std.specs.Prelude.{◌≡◌, IfOk, map};
ghost use Rattle.std.specs.Option.{option_map};
ghost use Rattle.rev_scopes.specs.Slots.{seen_slot, seen_slots, unknown_slot};
ghost use Rattle.rev_scopes.specs.Bindings.{value_of};

use crate::growth::Growth;
use crate::rule::{Rule, RuleText};
use std::alloc::{AllocError, Global};

/// A text of a rule and, once it is known, its value.
#[derive(Drop)]
pub(crate) struct Slot<'a> {
    pub(crate) bound: &'a RuleText,
    pub(crate) value: Option<Growth>,
}

/// The texts of a rule; the value of none is known yet.
pub(crate) fn slots_of(alloc: Global, rule: &Rule) -> Result<Vec<Slot<'_>>, AllocError>
    ensures { IfOk result (λ slots. seen_slots slots.items ≡ map unknown_slot rule.now) }
{
    let mut slots = Vec::new(alloc);
    for bound in rule.texts() {
        slots.push(Slot { bound, value: None })?;
    }
    Ok(slots)
}

/// The text of a name, if the rule binds it.
pub(crate) fn slot_named<'s, 'a>(slots: &'s [Slot<'a>], name: &[u8]) -> Option<&'s Slot<'a>>
    ensures { option_map (λ slot. (seen_slot slot.now).1) result
        ≡ value_of name.now (seen_slots slots.now) }
{
    for slot in slots {
        if name == slot.bound.variable.name() {
            return Some(slot);
        }
    }
    None
}
