//! Output to a writer.
ghost use Rattle.std.specs.Prelude.{◌<◌, ◌≤◌, IfOk, OnErr, length, take};
ghost use Rattle.std.specs.Io.KnownBytes.{Appends, Keeps};
ghost use Rattle.rev_script.specs.Output.{Writes};

use crate::fault::RunFault;
use rev_input::is_interrupted;
use std::io::Write;

// The most writes one after the other that are made again because they were interrupted.
const INTERRUPTED_LIMIT: u32 = 1_073_741_824;

// One write of some bytes, made again as long as it is interrupted ([`is_interrupted`]). It says how many went out.
fn write_some<W: Write>(writer: &mut W, bytes: &[u8]) -> Result<usize, RunFault>
    ensures some { IfOk result (λ n. 0 < n) }
    ensures bound { IfOk result (λ n. n ≤ length bytes.now) }
    ensures bytes { IfOk result (λ n. Appends (W.contents writer.old) (W.contents writer.new) (take n bytes.now)) }
    ensures err { OnErr result (Keeps (W.contents writer.old) (W.contents writer.new)) }
{
    for _ in 0..INTERRUPTED_LIMIT {
        match writer.write(bytes) {
            Ok(0) => return Err(RunFault::Write),
            Ok(count) => return Ok(count),
            Err(error) if is_interrupted(&error) => {}
            Err(_) => return Err(RunFault::Write),
        }
    }
    Err(RunFault::Write)
}

/// Writes all of the bytes. An interrupted write is repeated. After a fault the writer has a prefix of the bytes.
pub fn send<W: Write>(writer: &mut W, bytes: &[u8]) -> Result<(), RunFault>
    ensures { Writes result (W.contents writer.old) (W.contents writer.new) bytes.now }
{
    let mut written = 0;
    while written < bytes.len() {
        let count = write_some(writer, &bytes[written..])?;
        written += count;
    }
    Ok(())
}
