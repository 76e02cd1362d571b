//! What observed commands did with paths, and which command was observed of an edge.
ghost use Rattle.std.specs.Prelude.{◌≡◌, ◌<◌, ◌==◌, ℕ, None, Some, if◌then◌else◌, length, option_and_then, slice_get, slice_index_or, IfOk};
ghost use Rattle.std.specs.Option.{option_copied};
ghost use Rattle.rev_looked.specs.Commands.{change_of as change_by, does as does_of, look_of as look_by, number_from};

use crate::ranges::has_path;
use rev_observed::{Command, Kind};
use std::alloc::{AllocError, Global};

// Whether a command did this with a path.
fn does(command: &Command, kind: Kind, path: u64) -> bool
    ensures { result ≡ does_of kind command.now path }
{
    has_path(command.paths(kind), path)
}

/// How a command looks at a path, where it does.
pub(crate) fn look_of(command: &Command, path: u64) -> Option<Kind>
    ensures { result ≡ look_by command.now path }
{
    if does(command, Kind::Reads, path) {
        Some(Kind::Reads)
    } else if does(command, Kind::Misses, path) {
        Some(Kind::Misses)
    } else if does(command, Kind::Stats, path) {
        Some(Kind::Stats)
    } else {
        None
    }
}

/// What a command does to a path, where it does something.
pub(crate) fn change_of(command: &Command, path: u64) -> Option<Kind>
    ensures { result ≡ change_by command.now path }
{
    if does(command, Kind::Edits, path) {
        Some(Kind::Edits)
    } else if does(command, Kind::Writes, path) {
        Some(Kind::Writes)
    } else if does(command, Kind::Deletes, path) {
        Some(Kind::Deletes)
    } else if does(command, Kind::Temps, path) {
        Some(Kind::Temps)
    } else {
        None
    }
}

// Notes the number of a command of an edge, where the edge is one of these.
fn put(numbers: &mut [Option<usize>], edge: u32, number: usize)
    ensures { (e : ℕ) → e < length numbers.old
        → slice_index_or numbers.new e None ≡ (if edge == e then Some number else slice_index_or numbers.old e None) }
{
    if edge as usize >= numbers.len() {
        return;
    }
    numbers[edge as usize] = Some(number);
}

/// For each of so many edges the number of the first command that was observed of it, by the edges of the commands.
///
/// # Errors
/// [`AllocError`] only where an allocation was refused.
pub(crate) fn numbers_of(
    alloc: Global,
    edges: &[u32],
    count: u32,
) -> Result<Vec<Option<usize>>, AllocError>
    ensures count { IfOk result (λ numbers. length numbers.items ≡ count) }
    ensures each { IfOk result (λ numbers. (edge : ℕ) → edge < count
        → slice_index_or numbers.items edge None ≡ number_from 0 edges.now edge) }
{
    let mut numbers = vec![in alloc; None; count as usize]?;
    for passed in 0..edges.len() {
        let number = edges.len() - 1 - passed;
        put(&mut numbers, edges[number], number);
    }
    Ok(numbers)
}

/// The command that was observed of an edge.
pub(crate) fn command_at<'a>(
    commands: &'a [Command],
    numbers: &[Option<usize>],
    edge: u32,
) -> Option<&'a Command>
    requires { edge < length numbers.now }
    ensures { option_copied result ≡ option_and_then (slice_get commands.entry.now) (slice_index_or numbers.now edge None) }
{
    match numbers[edge as usize] {
        Some(number) => commands.get(number),
        None => None,
    }
}
