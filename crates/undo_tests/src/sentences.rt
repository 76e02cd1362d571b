// What is said of a lane that stopped: the program meets that only where memory is refused.
use rev_sentences::{Inputs, sentence};
use std::alloc::{AllocError, Global};
use std::test::Fail;

// What is said of a report's last line.
fn said(alloc: Global, report: &[u8]) -> Result<Vec<u8>, AllocError> {
    let inputs = Inputs {
        files: &[],
        trace: (b"t", b""),
        script: (b"s", b""),
    };
    match sentence(alloc, report, inputs)? {
        Some(said) => Ok(said),
        None => Ok(Vec::new(alloc)),
    }
}

#[test]
fn the_lane_is_named_that_stopped(rt: HostRuntime) -> Result<(), Fail> {
    let told = said(rt.alloc(), b"1 0 ok\nfault close 112 3\n")?;
    assert!(rt;
        told.as_slice() == b"lane 3: a lane stopped before its end (112, docs/CODES.md)".as_slice()
    );
    Ok(())
}
