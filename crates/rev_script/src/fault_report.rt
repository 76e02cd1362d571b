//! The report of a fault: one line, and the status.
ghost use Rattle.std.specs.Prelude.{◌≡◌, ◌≢◌, ◌++◌, ℕ, List, IfOk, OnOk, slice_get};
ghost use Rattle.rev_manifest.specs.Seen.{seen_files};
ghost use Rattle.rev_script.specs.Lines.{edges_fault_line, manifest_fault_line, name_text, text_fault_line};
ghost use Rattle.rev_script.specs.Output.{Writes};
ghost use Rattle.rev_script.specs.declared.status.Status.{Status};

use crate::fault::RunFault;
use crate::output::send;
use crate::status::Status;
use crate::text::{fault_line, graph_fault_line};
use rev_fields::{TextFault, push_field};
use rev_graph::GraphFault;
use rev_manifest::ManifestFault;
use std::alloc::{AllocError, Global};
use std::io::Write;

/// Writes the line of the first fault of a text. `what` names the text.
pub fn report_fault<W: Write>(
    alloc: Global,
    what: &[u8],
    fault: TextFault,
    writer: &mut W,
) -> Result<Status, RunFault>
    ensures text { Writes result (W.contents writer.old) (W.contents writer.new)
        (text_fault_line what.now fault) }
    ensures status { IfOk result (λ status. status ≡ Status.Fault) }
{
    let line = fault_line(alloc, what, fault.line, fault.kind.code())?;
    send(writer, &line)?;
    Ok(Status::Fault)
}

/// Writes the line of a fault of a manifest's edges. For `GraphFault::Memory` it writes nothing and returns
/// [`RunFault::Memory`].
pub fn report_graph_fault<W: Write>(
    alloc: Global,
    fault: &GraphFault,
    writer: &mut W,
) -> Result<Status, RunFault>
    ensures text { (text : List ℕ) → (fault.now ≢ GraphFault.Memory → text ≡ edges_fault_line fault.now)
        → Writes result (W.contents writer.old) (W.contents writer.new) text }
    ensures status { (wanted : Status) → (fault.now ≢ GraphFault.Memory → wanted ≡ Status.Fault)
        → IfOk result (λ status. status ≡ wanted) }
{
    let Some(code) = fault.code() else {
        return Err(RunFault::Memory);
    };
    let line = graph_fault_line(alloc, code, fault.path())?;
    send(writer, &line)?;
    Ok(Status::Fault)
}

// Adds the name of the file at a place, or a dash where there is none.
fn push_name(line: &mut Vec<u8>, files: &[(Vec<u8>, Vec<u8>)], place: u64) -> Result<(), AllocError>
    ensures { OnOk result (line.new.items
        ≡ line.old.items ++ name_text (slice_get (seen_files files.now) place)) }
{
    match files.get(place as usize) {
        None => line.extend_from_slice(b"-"),
        Some((name, _)) => push_field(line, name),
    }
}

// The line of the first fault of a manifest.
fn manifest_fault_line(
    alloc: Global,
    files: &[(Vec<u8>, Vec<u8>)],
    fault: ManifestFault,
) -> Result<Vec<u8>, AllocError>
    ensures { IfOk result (λ line. line.items ≡ manifest_fault_line (seen_files files.now) fault) }
{
    let mut what = Vec::from_slice(alloc, b"manifest ")?;
    push_name(&mut what, files, fault.file)?;
    fault_line(alloc, &what, fault.line, fault.kind.code())
}

/// Writes the line of the first fault of a manifest.
pub fn report_manifest_fault<W: Write>(
    alloc: Global,
    files: &[(Vec<u8>, Vec<u8>)],
    fault: ManifestFault,
    writer: &mut W,
) -> Result<Status, RunFault>
    ensures text { Writes result (W.contents writer.old) (W.contents writer.new)
        (manifest_fault_line (seen_files files.now) fault) }
    ensures status { IfOk result (λ status. status ≡ Status.Fault) }
{
    let line = manifest_fault_line(alloc, files, fault)?;
    send(writer, &line)?;
    Ok(Status::Fault)
}
