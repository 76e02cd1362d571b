//! What stands in the way of the observation, and by flags and conflicts.
ghost use Rattle.std.specs.Prelude.{◌≡◌, ◌<◌, ◌^◌, ◌++◌, length, map, OnOk};
ghost use Rattle.rev_certificate.specs.Obstacles.{of_commands, of_flags, of_observation};
ghost use Rattle.rev_certificate.specs.declared.obstacle.Obstacle.TheVariants as obstacle;

use crate::obstacle::Obstacle;
use rev_entry_conflicts::Conflict;
use rev_observation::{Flag, Observation};
use std::alloc::AllocError;

/// Adds that an observation is incomplete, where it is.
///
/// # Errors
/// [`AllocError`] only where an allocation was refused.
pub(crate) fn add_of_observation(
    observation: &Observation,
    obstacles: &mut Vec<Obstacle>,
) -> Result<(), AllocError>
    ensures { OnOk result (obstacles.new.items ≡ obstacles.old.items ++ of_observation observation.now) }
{
    if !observation.is_complete() {
        obstacles.push(Obstacle::Incomplete)?;
    }
    Ok(())
}

// Adds the flags of a command.
fn add_flags(command: u32, flags: &[Flag], obstacles: &mut Vec<Obstacle>) -> Result<(), AllocError>
    requires { length flags.now < 2 ^ 32 }
    ensures { OnOk result (obstacles.new.items ≡ obstacles.old.items ++ of_flags command (length flags.now)) }
{
    for flag in 0..flags.len() {
        obstacles.push(Obstacle::Flagged {
            command,
            flag: flag as u32,
        })?;
    }
    Ok(())
}

/// Adds the flags of all commands, in the order of the commands.
///
/// # Errors
/// [`AllocError`] where an allocation was refused, or where there are more commands or flags than a number of 32 bits
/// counts.
pub(crate) fn add_of_commands(
    observation: &Observation,
    obstacles: &mut Vec<Obstacle>,
) -> Result<(), AllocError>
    ensures { OnOk result (obstacles.new.items ≡ obstacles.old.items ++ of_commands observation.now) }
{
    let commands = observation.commands();
    if commands.len() > u32::MAX as usize {
        return Err(AllocError);
    }
    for number in 0..commands.len() {
        let flags = commands[number].flags();
        if flags.len() > u32::MAX as usize {
            return Err(AllocError);
        }
        add_flags(number as u32, flags, obstacles)?;
    }
    Ok(())
}

/// Adds conflicts.
///
/// # Errors
/// [`AllocError`] only where an allocation was refused.
pub(crate) fn add_conflicts(
    conflicts: &[Conflict],
    obstacles: &mut Vec<Obstacle>,
) -> Result<(), AllocError>
    ensures { OnOk result (obstacles.new.items ≡ obstacles.old.items ++ map obstacle.Conflict conflicts.now) }
{
    for conflict in conflicts {
        obstacles.push(Obstacle::Conflict(*conflict))?;
    }
    Ok(())
}
