//! Prints how the commands of the builds on standard input stood to the anchors that it names.
#![tactic(auto)]

use rev_separation_word::{SeparationFault, answer_of, asked_of};
use std::io::{self, Write};
use std::process::ExitCode;

// Why nothing is printed.
#[derive(Clone, Copy)]
enum Fault {
    // Standard input cannot be read, or standard output not be written.
    Io,
    // A line has another form, or memory was refused.
    Asked(SeparationFault),
}

impl From<io::Error> for Fault {
    fn from(_error: io::Error) -> Fault {
        Fault::Io
    }
}

impl From<SeparationFault> for Fault {
    fn from(fault: SeparationFault) -> Fault {
        Fault::Asked(fault)
    }
}

impl From<std::alloc::AllocError> for Fault {
    fn from(_error: std::alloc::AllocError) -> Fault {
        Fault::Asked(SeparationFault::Memory)
    }
}

fn work<R: Input + Print + AllocGlobal>(rt: &R) -> Result<(), Fault> {
    let text = io::read_to_string(rt.alloc(), rt.reader())?;
    let asked = asked_of(rt.alloc(), text.as_str())?;
    let answer = answer_of(rt.alloc(), asked)?;
    io::writer(rt).write_all(&answer)?;
    Ok(())
}

fn main(rt: HostRuntime) -> ExitCode {
    match work(&rt) {
        Ok(()) => ExitCode::SUCCESS,
        Err(_) => ExitCode::FAILURE,
    }
}
