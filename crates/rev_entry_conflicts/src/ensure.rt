//! Who ensures a folder.
ghost use Rattle.std.specs.Prelude.{◌≡◌, ◌<◌, ◌^◌, length, IfOk};
ghost use Rattle.std.specs.List.{filter, range_with_len};
ghost use Rattle.rev_entry_conflicts.specs.Ensures.{ensures_of};

use crate::deed::{Command, does};
use crate::word::Act;
use std::alloc::{AllocError, Global};

/// The numbers of the commands that ensure a folder at an entry. Where two of them need not wait for one another, a
/// certificate has to name the folder and these commands: neither asks which of them made it.
///
/// # Errors
/// [`AllocError`] only where an allocation was refused.
pub fn ensurers(alloc: Global, commands: &[Command], entry: u32) -> Result<Vec<u32>, AllocError>
    requires { length commands.now < 2 ^ 32 }
    ensures { IfOk result (λ numbers. numbers.items
        ≡ filter (ensures_of commands.now entry) (range_with_len 0 (length commands.now))) }
{
    let mut numbers = Vec::new(alloc);
    for number in 0..commands.len() {
        let here = does(&commands[number], Act::Ensures, entry);
        if here {
            numbers.push(number as u32)?;
        }
    }
    Ok(numbers)
}
