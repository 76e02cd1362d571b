// Writers that fail, once or for good, and writers that take little at a time.

use rev_parallel::run_parallel;
use rev_report::{RunFault, Status, run_serial};
use std::alloc::{AllocError, Global};
use std::io;
use std::io::Write;
use std::sync::Wait;
use std::test::Fail;
use std::thread::Threads;

// Files of a manifest, each with its name and content.
pub(crate) type Files = Vec<(Vec<u8>, Vec<u8>)>;

const MANIFEST: &[u8] =
    b"rule cc\n  command = cc -c $in -o $out\nrule ld\n  command = ld $in -o $out\n\
build a.o: cc a.c\nbuild b.o: cc b.c\nbuild app: ld a.o b.o\n";

pub(crate) const TRACE: &[u8] =
    b"rebug-trace 1\nstamp a.c 10\nlane 0\ntouch a.c 11\ntouch b.c 21\ntouch a.c 12\n";

pub(crate) const SCRIPT: &[u8] = b"run\nundo 1\nundo 2\nstamps\nredo 2\nback\nstamps\n";

const REPORT: &[u8] =
    b"1 0 ok\n2 0 ok\n3 0 ok\n4 1 refused 82 3\n5 1 ok\nstamp a.c 12\n6 1 ok\n7 1 ok\n\
stamp a.c 11\nstamp b.c 21\n";
// So many writes the report takes.
const WRITES: u32 = 9;

// At which writes a device has trouble, from the first up to and with the last, and how it fails there. Without a kind
// of error it takes no byte.
#[derive(Clone, Copy)]
struct Trouble {
    first: u32,
    last: u32,
    kind: Option<io::ErrorKind>,
}

const NO_TROUBLE: Trouble = Trouble {
    first: 1,
    last: 0,
    kind: None,
};

// The troubles that begin with a write: with a reader that is gone at each later one too, with another error at this
// write alone, and with no byte taken from there on.
fn troubles(write: u32) -> [Trouble; 3] {
    [
        Trouble {
            first: write,
            last: u32::MAX,
            kind: Some(io::ErrorKind::BrokenPipe),
        },
        Trouble {
            first: write,
            last: write,
            kind: Some(io::ErrorKind::StorageFull),
        },
        Trouble {
            first: write,
            last: u32::MAX,
            kind: None,
        },
    ]
}

// A writer that keeps what it took, at most so many bytes of each write.
#[derive(Drop)]
struct Device {
    trouble: Trouble,
    most: usize,
    calls: u32,
    taken: Vec<u8>,
}

impl Device {
    fn new(alloc: Global, trouble: Trouble, most: usize) -> Device {
        Device {
            trouble,
            most,
            calls: 0,
            taken: Vec::new(alloc),
        }
    }

    // Whether the run failed, and the device took a true prefix of the report.
    fn is_cut(&self, ended: Result<Status, RunFault>) -> bool {
        let taken = self.taken.as_slice();
        ended == Err(RunFault::Write) && REPORT.starts_with(taken) && taken.len() < REPORT.len()
    }

    // Whether the run succeeded, and the device took the whole report.
    fn is_whole(&self, ended: Result<Status, RunFault>) -> bool {
        ended == Ok(Status::Success) && self.taken.as_slice() == REPORT
    }
}

impl Write for Device {
    fn write(&mut self, buf: &[u8]) -> io::Result<usize> {
        let call = self.calls;
        self.calls = call.wrapping_add(1);
        if call < self.trouble.first || call > self.trouble.last {
            return self.taken.write(buf.get(..self.most).unwrap_or(buf));
        }
        match self.trouble.kind {
            Some(kind) => Err(io::Error::from(kind)),
            None => Ok(0),
        }
    }

    fn flush(&mut self) -> io::Result<()> {
        Ok(())
    }
}

// A manifest of one file.
pub(crate) fn files_of(alloc: Global) -> Result<Files, AllocError> {
    let mut files = Vec::with_capacity(alloc, 1)?;
    let name = Vec::from_slice(alloc, b"build.ninja")?;
    files.push_reserved((name, Vec::from_slice(alloc, MANIFEST)?));
    Ok(files)
}

// How the run of the touches ends, in turn.
fn in_turn(alloc: Global, files: &Files, device: &mut Device) -> Result<Status, RunFault> {
    run_serial(alloc, files, TRACE, SCRIPT, device)
}

// How it ends with its lanes on threads.
fn on_threads<R: Threads + Wait + Sync>(
    rt: &R,
    alloc: Global,
    files: &Files,
    device: &mut Device,
) -> Result<Status, RunFault> {
    run_parallel(rt, alloc, files, TRACE, SCRIPT, device)
}

// Whether each run with a trouble is cut.
fn both_are_cut<R: Threads + Wait + Sync>(
    rt: &R,
    alloc: Global,
    files: &Files,
    trouble: Trouble,
) -> bool {
    let mut device = Device::new(alloc, trouble, usize::MAX);
    let ended = in_turn(alloc, files, &mut device);
    let mut other = Device::new(alloc, trouble, usize::MAX);
    let ended_on_threads = on_threads(rt, alloc, files, &mut other);
    device.is_cut(ended) && other.is_cut(ended_on_threads)
}

// Nothing is written behind a failure, so that what a device took is a prefix also where it failed once.
#[test]
fn each_write_fails(rt: HostRuntime) -> Result<(), Fail> {
    let files = files_of(rt.alloc())?;
    for write in 0..WRITES {
        for trouble in troubles(write) {
            assert!(rt;
                both_are_cut(&rt, rt.alloc(), &files, trouble),
                "write {write}"
            );
        }
    }
    Ok(())
}

// Whether each run is whole where a device takes one byte at a time.
fn both_are_whole<R: Threads + Wait + Sync>(rt: &R, alloc: Global, files: &Files) -> bool {
    let mut device = Device::new(alloc, NO_TROUBLE, 1);
    let ended = in_turn(alloc, files, &mut device);
    let mut other = Device::new(alloc, NO_TROUBLE, 1);
    let ended_on_threads = on_threads(rt, alloc, files, &mut other);
    device.is_whole(ended) && other.is_whole(ended_on_threads)
}

#[test]
fn one_byte_at_a_time(rt: HostRuntime) -> Result<(), Fail> {
    let files = files_of(rt.alloc())?;
    assert!(rt; both_are_whole(&rt, rt.alloc(), &files));
    Ok(())
}
