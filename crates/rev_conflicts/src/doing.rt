//! What commands do at places.
ghost use Rattle.std.specs.Prelude.{◌≡◌, ◌<◌, ◌+◌, ℕ, ◌↔◌, ◌⊎◌, true, length, Contains, IfOk, OnOk};
ghost use Rattle.rev_conflicts.specs.Ranges.{has_path as has_path_of, is_in};
ghost use Rattle.rev_conflicts.specs.Places.{changes as changes_of, does as does_of, look_at as look_of};
ghost use Rattle.rev_conflicts.specs.Conflicts.{changes_file as changes_file_of};

use crate::conflict::Look;
use crate::place::Place;
use rev_observed::{Command, Kind, PathRange};
use std::alloc::{AllocError, Global};

// Whether ranges have a number.
fn has_path(ranges: &[PathRange], path: u64) -> bool
    ensures { result ≡ has_path_of ranges.now path }
{
    ranges.iter().any(|range| u64::from(range.first) <= path && path <= u64::from(range.last))
}

/// Whether a command did this with a path.
pub fn does(command: &Command, kind: Kind, path: u64) -> bool
    ensures { result ≡ does_of kind command.now path }
{
    has_path(command.paths(kind), path)
}

/// Whether a command leaves a file, takes it away, or has it as a temporary.
pub(crate) fn changes(command: &Command, path: u64) -> bool
    ensures { result ≡ changes_of command.now path }
{
    does(command, Kind::Writes, path)
        || does(command, Kind::Deletes, path)
        || does(command, Kind::Temps, path)
}

/// The same of a place, where that is a file.
pub(crate) fn changes_file(command: &Command, place: Place) -> bool
    ensures { result ≡ changes_file_of command.now place }
{
    match place {
        Place::File(path) => changes(command, path),
        Place::Entries(_) => false,
    }
}

/// How a command looks at a place, where it does.
pub fn look_at(command: &Command, place: Place) -> Option<Look>
    ensures { result ≡ look_of command.now place }
{
    match place {
        Place::File(path) => {
            if does(command, Kind::Reads, path) {
                Some(Look::Read)
            } else if does(command, Kind::Misses, path) {
                Some(Look::Miss)
            } else if does(command, Kind::Stats, path) {
                Some(Look::Stat)
            } else {
                None
            }
        }
        Place::Entries(folder) => {
            if does(command, Kind::Lists, folder) {
                Some(Look::List)
            } else {
                None
            }
        }
    }
}

// Adds the numbers of a range.
fn add_range(range: &PathRange, numbers: &mut Vec<u64>) -> Result<(), AllocError>
    ensures { OnOk result ((n : ℕ) → Contains numbers.new.items n
        ↔ (Contains numbers.old.items n ⊎ (is_in n range.now ≡ true))) }
{
    for number in u64::from(range.first)..u64::from(range.last) + 1 {
        numbers.push(number)?;
    }
    Ok(())
}

// Adds the numbers of ranges.
fn add_ranges(ranges: &[PathRange], numbers: &mut Vec<u64>) -> Result<(), AllocError>
    ensures { OnOk result ((n : ℕ) → Contains numbers.new.items n
        ↔ (Contains numbers.old.items n ⊎ (has_path_of ranges.now n ≡ true))) }
{
    for range in ranges {
        add_range(range, numbers)?;
    }
    Ok(())
}

/// The numbers of ranges, one by one.
///
/// # Errors
/// [`AllocError`] only where an allocation was refused.
pub fn numbers(alloc: Global, ranges: &[PathRange]) -> Result<Vec<u64>, AllocError>
    ensures { IfOk result (λ numbers. (n : ℕ) → Contains numbers.items n ↔ (has_path_of ranges.now n ≡ true)) }
{
    let mut numbers = Vec::new(alloc);
    add_ranges(ranges, &mut numbers)?;
    Ok(numbers)
}

/// The paths that a command leaves, takes away, or has as temporaries.
///
/// # Errors
/// [`AllocError`] only where an allocation was refused.
pub(crate) fn changed(alloc: Global, command: &Command) -> Result<Vec<u64>, AllocError>
    ensures { IfOk result (λ paths. (path : ℕ) → Contains paths.items path ↔ (changes_of command.now path ≡ true)) }
{
    let mut paths = Vec::new(alloc);
    add_ranges(command.paths(Kind::Writes), &mut paths)?;
    add_ranges(command.paths(Kind::Deletes), &mut paths)?;
    add_ranges(command.paths(Kind::Temps), &mut paths)?;
    Ok(paths)
}
