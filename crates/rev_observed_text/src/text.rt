//! The text that says an observation.
ghost use Rattle.std.specs.Prelude.{◌≡◌, IfOk};
ghost use Rattle.rev_observed.specs.Says.{LinesSay, statements_of};
ghost use Rattle.rev_observed.specs.Texts.{observed_text};

use crate::lines::{push_commands, push_paths};
use rev_fields::next_field;
use rev_observed::Observation;
use std::alloc::{AllocError, Global};

/// The text that says an observation, each line with an LF at its end. [`rev_observed::read`] reads it as the
/// observation. It takes time linear in the text.
///
/// # Errors
/// [`AllocError`] only where an allocation was refused.
pub fn observed_text(alloc: Global, observation: &Observation) -> Result<Vec<u8>, AllocError>
    ensures text { IfOk result (λ text. text.items ≡ observed_text observation.now) }
    ensures read { IfOk result (λ text. LinesSay (statements_of text.items) observation.now) }
{
    let mut text = Vec::from_slice(alloc, b"rebug-observed 1\nby")?;
    next_field(&mut text, observation.by())?;
    text.push(b'\n')?;
    push_paths(&mut text, observation.paths())?;
    push_commands(&mut text, observation.commands())?;
    Ok(text)
}
