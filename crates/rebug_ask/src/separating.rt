//! How the commands of many builds stood to each other.
use crate::told::write;
use rev_program::{ProgramFault, USAGE, say};
use rev_separation_word::{SeparationFault, answer_of, asked_of};
use std::io;

/// Counts the builds on standard input, and gives the status.
pub fn separate<'a, R: Input + Print + Eprint + AllocGlobal>(
    rt: &R,
) -> Result<u8, ProgramFault<'a>> {
    let Ok(text) = io::read_to_string(rt.alloc(), rt.reader()) else {
        return Err(ProgramFault::Read);
    };
    match asked_of(rt.alloc(), text.as_str()) {
        Ok(asked) => {
            let answer = answer_of(rt.alloc(), asked)?;
            write(rt, &answer)?;
            Ok(0)
        }
        Err(SeparationFault::Memory) => Err(ProgramFault::Memory),
        Err(fault) => {
            let mut sentence = Vec::new(rt.alloc());
            fault.push_sentence(&mut sentence)?;
            say(rt, &sentence);
            Ok(USAGE)
        }
    }
}
