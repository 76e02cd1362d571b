//! The last line of a whole observation.
ghost use Rattle.std.specs.Prelude.{◌≡◌, ◌<◌, IfOk, bytes_eq, length};
ghost use Rattle.rev_fields.specs.Parts.{slices_of};
ghost use Rattle.std.specs.List.{flat_map};
ghost use Rattle.sha2.specs.Sha256.{sha256};
ghost use Rattle.rev_observation.specs.Ends.{end_line, ended, is_complete};

use crate::observation::Observation;
use rev_fields::next_number;
use sha2::{Digest, Sha256};
use std::alloc::{AllocError, Global};

/// The SHA-256 of lines, each with the LF at its end.
pub(crate) fn digest_of(lines: &[&[u8]]) -> [u8; 32]
    ensures { result ≡ sha256 (flat_map ended (slices_of lines.now)) }
{
    let mut hasher = Sha256::new();
    for line in lines {
        hasher.update(*line);
        hasher.update(b"\n");
    }
    hasher.finalize()
}

// The line that has to stand behind these.
fn end_line(
    alloc: Global,
    observation: &Observation,
    before: &[&[u8]],
) -> Result<Vec<u8>, AllocError>
    ensures { IfOk result (λ line. line.items ≡ end_line observation.now (slices_of before.now)) }
{
    let mut line = Vec::from_slice(alloc, b"end")?;
    next_number(&mut line, observation.entries().len())?;
    next_number(&mut line, observation.commands().len() as u64)?;
    next_number(&mut line, before.len() as u64)?;
    line.push(b' ')?;
    let digest = digest_of(before);
    let sum = hex::encode(alloc, digest)?;
    line.extend_from_slice(sum.as_bytes())?;
    Ok(line)
}

// Whether a line is the one that has to come after others.
fn is_due(
    alloc: Global,
    observation: &Observation,
    last: &[u8],
    before: &[&[u8]],
) -> Result<bool, AllocError>
    ensures { IfOk result (λ due. due ≡ bytes_eq (end_line observation.now (slices_of before.now)) last.now) }
{
    let due = end_line(alloc, observation, before)?;
    Ok(due.as_slice() == last)
}

/// Whether the last of these lines is the one that has to stand after the others.
///
/// # Errors
/// [`AllocError`] only where an allocation was refused.
pub(crate) fn is_complete(
    alloc: Global,
    observation: &Observation,
    lines: &[&[u8]],
) -> Result<bool, AllocError>
    requires { 0 < length lines.now }
    ensures { IfOk result (λ complete. complete ≡ is_complete observation.now (slices_of lines.now)) }
{
    let Some((last, before)) = lines.split_last() else {
        unreachable!()
    };
    is_due(alloc, observation, last, before)
}
