//! Bytes read from a reader.
ghost use Rattle.std.specs.Prelude.{◌≡◌, ◌<◌, ◌≤◌, ◌+◌, IsTrue, IfOk, IfSome, OnOk, length, vec_len};
ghost use Rattle.std.specs.Io.KnownBytes.{Consumes, IsAtEnd};
ghost use Rattle.rev_input.specs.Input.{Outcome, ReadOn, ReadsOne, Takes};
ghost use Rattle.rev_input.specs.declared.reading.TakeFault.TheVariants.{Memory};

use crate::source::{Source, is_interrupted};
use std::alloc::{AllocError, Global};

/// Why a reader's bytes are not available. The bytes that were read before the fault are lost.
#[derive(Clone, Copy, Debug, PartialEq, Eq)]
pub enum TakeFault {
    /// The system refused memory.
    Memory,
    /// A read failed, or [`READ_LIMIT`] reads did not reach the end.
    Read,
}

impl From<AllocError> for TakeFault {
    ghost from_gives = { λ _ fault. fault ≡ Memory };

    fn from(_e: AllocError) -> TakeFault {
        TakeFault::Memory
    }
}

/// The most reads of one reader.
pub const READ_LIMIT: u32 = 1_073_741_824;

/// The most bytes that one read is asked for.
pub const READ_BYTES: usize = 65_536;

// The room for one read.
fn room(alloc: Global) -> Result<Vec<u8>, AllocError>
    ensures { IfOk result (λ room. vec_len room ≡ 65536) }
{
    vec![in alloc; 0u8; READ_BYTES]
}

// One read, whose bytes come after those that were read before. It says whether the end has come.
fn read_some<S: Source>(
    reader: &mut S,
    room: &mut [u8],
    bytes: &mut Vec<u8>,
) -> Result<bool, TakeFault>
    requires { 0 < length room.old }
    ensures room { length room.new ≡ length room.old }
    ensures bytes { OnOk result (ReadOn (S.remaining reader.old) (S.remaining reader.new) bytes.old.items
        bytes.new.items) }
    ensures bounded { length bytes.new.items ≤ length bytes.old.items + length room.old }
    ensures end { IfOk result (λ ended. IsTrue ended → IsAtEnd (S.remaining reader.new)) }
    ensures one { (o : Outcome) × S.gives reader.old o reader.new
        × ReadsOne o bytes.old.items bytes.new.items result }
{
    match reader.read(room) {
        Ok(0) => Ok(true),
        Ok(count) => {
            bytes.extend_from_slice(&room[..count])?;
            Ok(false)
        }
        Err(error) if is_interrupted(&error) => Ok(false),
        Err(_) => Err(TakeFault::Read),
    }
}

/// Reads until there are more than `most` bytes or the end was reached. At most `most` bytes come back exactly where
/// the reader was read to its end. Of a longer reader come back more than `most` bytes, with at most one read beyond
/// that number.
///
/// # Errors
/// [`TakeFault::Read`] where a read fails, unless it was interrupted ([`is_interrupted`]), or after [`READ_LIMIT`]
/// reads without an end; [`TakeFault::Memory`] where memory is refused.
#[tactic(auto, using(crate::proofs::InputLemmas::consumes_more))]
pub fn take_up_to<S: Source>(
    alloc: Global,
    reader: &mut S,
    most: usize,
) -> Result<Vec<u8>, TakeFault>
    // Where it is known what the reader has, these are its first bytes, and it has lost them.
    ensures bytes { IfOk result (λ bytes. Consumes (S.remaining reader.old) (S.remaining reader.new) bytes.items) }
    // It stops early only with more bytes than `most`.
    ensures end { IfOk result (λ bytes. length bytes.items ≤ most → IsAtEnd (S.remaining reader.new)) }
    ensures bounded { IfOk result (λ bytes. length bytes.items ≤ most + 65536) }
    // The answer is that of the reads: `Read` says that the last one failed, or that there were as many as there may be.
    ensures reads { Takes S.gives most reader.old reader.new result }
{
    let mut room = room(alloc)?;
    let mut bytes = Vec::new(alloc);
    for count in 0..READ_LIMIT {
        let has_ended = read_some(reader, room.as_mut_slice(), &mut bytes)?;
        if has_ended || bytes.len() > most {
            return Ok(bytes);
        }
    }
    Err(TakeFault::Read)
}

/// All bytes that a reader has, to its end.
///
/// # Errors
/// As [`take_up_to`].
#[tactic(auto, using(crate::proofs::InputLemmas::read_all))]
pub fn take<S: Source>(alloc: Global, reader: &mut S) -> Result<Vec<u8>, TakeFault>
    // Where it is known what the reader has, these are its bytes.
    ensures bytes { IfOk result (λ bytes. IfSome (S.remaining reader.old) (λ all. bytes.items ≡ all)) }
    ensures end { OnOk result (IsAtEnd (S.remaining reader.new)) }
    ensures reads { Takes S.gives usize.MAX reader.old reader.new result }
{
    take_up_to(alloc, reader, usize::MAX)
}
