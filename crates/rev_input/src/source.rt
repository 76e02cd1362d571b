//! Sources of bytes, read piece by piece.
ghost use Rattle.std.specs.Prelude.{◌≡◌, List, ℕ, Option};
ghost use Rattle.std.specs.Io.{ReadsAtMost};
ghost use Rattle.std.specs.Io.KnownBytes.{ReadConsumes};
ghost use Rattle.std.specs.IoError.{error_kind};
ghost use Rattle.rev_input.specs.Input.{Outcome, is_cut_short, outcome_of};

use std::io;
use std::io::{ErrorKind, Read};

/// A source of bytes. It differs from `std::io::Read` in that contracts know the result of each read, so the answer of
/// a caller can be stated by the results of its reads.
pub trait Source {
    // The bytes that reads will give from here on, where they are known.
    ghost remaining: { Self → Option (List ℕ) };

    // What a read may give here, and what the source is after it.
    ghost gives: { Self → Outcome → Self → Type 0 };

    /// Reads into `room`, and returns the number of bytes read. It is 0 at the end.
    fn read(&mut self, room: &mut [u8]) -> io::Result<usize>
        ensures bound { ReadsAtMost result room.new }
        ensures bytes { ReadConsumes (remaining self.old) (remaining self.new) result room.new }
        ensures gives { gives self.old (outcome_of result room.new) self.new };
}

/// A reader of the standard library, as a file. No contract says what its reads return, or when they fail.
#[derive(Drop)]
pub struct Reader<R: Read>(pub R);

impl<R: Read> Source for Reader<R> {
    ghost remaining = { λ s. R.remaining s.0 };

    ghost gives = { λ s o t. Unit {0} };

    fn read(&mut self, room: &mut [u8]) -> io::Result<usize> {
        self.0.read(room)
    }
}

/// Whether a signal cut a read or a write short. Nothing was read or written then, and rebug repeats the call wherever
/// it reads or writes.
pub fn is_interrupted(error: &io::Error) -> bool
    ensures { result ≡ is_cut_short (error_kind error.now) }
{
    matches!(error.kind(), ErrorKind::Interrupted)
}
