//! Traces written in version 2.
ghost use Rattle.std.specs.Prelude.{◌≡◌, IfOk};
ghost use Rattle.rev_script.specs.Migrations.{migrated_status, migrated_text};
ghost use Rattle.rev_script.specs.Output.{Writes};

use crate::fault::RunFault;
use crate::fault_report::report_fault;
use crate::output::send;
use crate::status::Status;
use rev_fields::ReadFault;
use rev_trace::migrate;
use std::alloc::Global;
use std::io::Write;

/// Writes the text of a trace in version 2, or the line of its first fault.
///
/// # Errors
/// [`RunFault::Write`] where the writer fails in any way or takes no byte, and [`RunFault::Memory`] where the system
/// refused memory. After either, the writer has a prefix of the text.
pub fn write_migrated<W: Write>(
    alloc: Global,
    trace: &[u8],
    writer: &mut W,
) -> Result<Status, RunFault>
    ensures text { Writes result (W.contents writer.old) (W.contents writer.new) (migrated_text trace.now) }
    ensures status { IfOk result (λ status. status ≡ migrated_status trace.now) }
{
    match migrate(alloc, trace) {
        Ok(text) => {
            send(writer, &text)?;
            Ok(Status::Success)
        }
        Err(ReadFault::Numbered(fault)) => report_fault(alloc, b"trace", fault, writer),
        Err(ReadFault::Memory) => Err(RunFault::Memory),
    }
}
