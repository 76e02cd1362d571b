//! Traces of version 1 in version 2.
ghost use Rattle.std.specs.Prelude.{◌≡◌, ◌≤◌, ◌++◌, drop, length, Some, None, OnOk, IfOk, IsErrOf};
ghost use Rattle.rev_fields.specs.declared.faults.TextFault.{TextFault};
ghost use Rattle.rev_trace.specs.declared.version.Version.TheVariants.{Two};
ghost use Rattle.rev_trace.specs.Migrated.{migrated};
ghost use Rattle.rev_trace.specs.Traces.{trace_fault};
ghost use Rattle.rev_trace.specs.Versions.{first_line};

use crate::traces::{TraceFault, read};
use rev_fields::ReadFault;
use std::alloc::{AllocError, Global};

// How many bytes a first line has.
const FIRST: usize = 13;

// The first line of version 2, and the bytes that stand behind as many of a text.
fn with_first(alloc: Global, text: &[u8]) -> Result<Vec<u8>, AllocError>
    requires { 13 ≤ length text.now }
    ensures { IfOk result (λ migrated. migrated.items ≡ first_line Two ++ drop 13 text.now) }
{
    let mut migrated = Vec::with_capacity(alloc, text.len())?;
    migrated.extend_from_slice(b"rebug-trace 2")?;
    migrated.extend_from_slice(&text[FIRST..])?;
    Ok(migrated)
}

/// The text of a trace in version 2, whose first line is `rebug-trace 2`: all other bytes are kept. It is read as the
/// same trace. A text that is not read as a trace has the fault that `read` gives.
pub fn migrate(alloc: Global, text: &[u8]) -> Result<Vec<u8>, TraceFault>
    ensures text { IfOk result (λ text_of_two. text_of_two.items ≡ migrated text.now) }
    ensures sound { OnOk result (trace_fault text.now ≡ None) }
    ensures fault { (f : TextFault) → IsErrOf result (ReadFault.Numbered f) → trace_fault text.now ≡ Some f }
{
    let _trace = read(alloc, text)?;
    Ok(with_first(alloc, text)?)
}
