// Readers that do not give all at once.

use rev_input::{READ_BYTES, Reader, TakeFault, take, take_up_to};
use std::alloc::Global;
use std::io;
use std::io::Read;

const BYTES: &[u8] = b"rule r\n  command = r $in\nbuild o: r a\n";

// What a reader does at one of its reads, which count from 0, in place of giving a byte.
#[derive(Clone, Copy)]
enum Trouble {
    None,
    At(usize, io::ErrorKind),
    // Each second read is interrupted, the first among them.
    Interrupted,
}

// The error of a read, where it has one.
fn error_at(trouble: Trouble, read: usize) -> Option<io::ErrorKind> {
    match trouble {
        Trouble::At(at, kind) if at == read => Some(kind),
        Trouble::Interrupted if read % 2 == 0 => Some(io::ErrorKind::Interrupted),
        _ => None,
    }
}

// A reader that gives one byte a read.
#[derive(Drop)]
struct Slow {
    given: usize,
    reads: usize,
    trouble: Trouble,
}

fn reader_with(trouble: Trouble) -> Reader<Slow> {
    Reader(Slow {
        given: 0,
        reads: 0,
        trouble,
    })
}

impl Read for Slow {
    fn read(&mut self, buf: &mut [u8]) -> io::Result<usize> {
        let read = self.reads;
        self.reads = read.saturating_add(1);
        if let Some(kind) = error_at(self.trouble, read) {
            return Err(io::Error::from(kind));
        }
        if self.given >= BYTES.len() || buf.is_empty() {
            return Ok(0);
        }
        buf[0] = BYTES[self.given];
        self.given += 1;
        Ok(1)
    }
}

// Whether all bytes are taken.
fn is_taken(alloc: Global, trouble: Trouble) -> bool {
    let mut reader = reader_with(trouble);
    match take(alloc, &mut reader) {
        Ok(bytes) => bytes.as_slice() == BYTES,
        Err(_) => false,
    }
}

#[test]
fn a_byte_at_a_time(rt: HostRuntime) {
    assert!(rt; is_taken(rt.alloc(), Trouble::None) && is_taken(rt.alloc(), Trouble::Interrupted));
}

// Whether nothing is read behind a read that fails.
fn is_last(alloc: Global, at: usize, kind: io::ErrorKind) -> bool {
    let mut reader = reader_with(Trouble::At(at, kind));
    let taken = take(alloc, &mut reader);
    matches!(taken, Err(TakeFault::Read)) && reader.0.reads == at.saturating_add(1)
}

// The reads are one for each byte, and one that finds the end.
#[test]
fn a_read_fails(rt: HostRuntime) {
    for at in 0..BYTES.len() + 1 {
        for kind in [io::ErrorKind::Other, io::ErrorKind::UnexpectedEof] {
            assert!(rt; is_last(rt.alloc(), at, kind));
        }
    }
}

// Whether at most one byte more than wanted is taken.
fn gives(alloc: Global, most: usize) -> bool {
    let mut reader = reader_with(Trouble::None);
    match take_up_to(alloc, &mut reader, most) {
        Ok(bytes) => bytes.as_slice() == BYTES.get(..most.saturating_add(1)).unwrap_or(BYTES),
        Err(_) => false,
    }
}

#[test]
fn as_many_as_are_wanted(rt: HostRuntime) {
    for most in 0..BYTES.len() + 2 {
        assert!(rt; gives(rt.alloc(), most), "{most}");
    }
}

// How many bytes are taken of a reader that never ends.
fn taken_without_end(alloc: Global, most: usize) -> usize {
    let mut zeros = Reader(io::repeat(0));
    match take_up_to(alloc, &mut zeros, most) {
        Ok(bytes) => bytes.len(),
        Err(_) => 0,
    }
}

// It is read no further than one read beyond what is wanted.
#[test]
fn no_end(rt: HostRuntime) {
    assert!(rt; taken_without_end(rt.alloc(), 100_000) == 2 * READ_BYTES);
}
