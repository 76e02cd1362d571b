//! What is assumed.
ghost use Rattle.std.specs.Prelude.{◌<◌, ◌^◌, length};

use crate::assumption::Assumption;
use rev_entry_conflicts::{Act, Command, Deed, Entry, Word, does, ensurers, is_of};
use rev_observation::{Deed as Seen, Line, Observation};
use rev_observed::PathRange;
use rev_scene::Scene;
use std::alloc::{AllocError, Global};

// What commands do at an entry.
#[derive(Clone, Copy)]
enum Doing {
    // They leave something or nothing there.
    Leaves,
    // They make a folder there themselves, where it is missing.
    Makes,
    // They leave something, or have a folder made.
    Changes,
}

// Whether a word says so.
fn is_doing(doing: Doing, word: Word) -> bool {
    match doing {
        Doing::Leaves => is_of(Act::Leaves, word),
        Doing::Makes => matches!(word, Word::Made | Word::Found | Word::Ensured),
        Doing::Changes => is_of(Act::Leaves, word) || is_of(Act::Ensures, word),
    }
}

// Marks an entry, where it has a place.
fn mark(marks: &mut [bool], entry: u32) {
    if let Some(place) = marks.get_mut(entry as usize) {
        *place = true;
    }
}

// The mark of an entry.
fn mark_of(marks: &[bool], entry: u32) -> bool {
    match marks.get(entry as usize) {
        Some(mark) => *mark,
        None => false,
    }
}

// The number behind the last one of a range that is below a count.
fn end_of(last: u32, count: u32) -> u32 {
    if last < count { last + 1 } else { count }
}

// Marks the entries of a deed.
fn mark_deed(deed: &Deed, count: u32, marks: &mut [bool]) {
    for entry in deed.first..end_of(deed.last, count) {
        mark(marks, entry);
    }
}

// A mark for each of so many entries: whether some command does this there.
fn marks_of(
    alloc: Global,
    commands: &[Command],
    doing: Doing,
    count: u32,
) -> Result<Vec<bool>, AllocError> {
    let mut marks = vec![in alloc; false; count as usize]?;
    for command in commands {
        for deed in &command.deeds {
            if is_doing(doing, deed.word) {
                mark_deed(deed, count, &mut marks);
            }
        }
    }
    Ok(marks)
}

// Adds the folders that several commands make, one of them itself.
fn add_ensured(
    alloc: Global,
    commands: &[Command],
    count: u32,
    assumptions: &mut Vec<Assumption>,
) -> Result<(), AllocError>
    requires { length commands.now < 2 ^ 32 }
{
    let makes = marks_of(alloc, commands, Doing::Makes, count)?;
    for entry in 0..count {
        if mark_of(&makes, entry) {
            let makers = ensurers(alloc, commands, entry)?;
            if makers.len() > 1 {
                assumptions.push(Assumption::Ensured { entry })?;
            }
        }
    }
    Ok(())
}

// Adds the entries of a range whose stamps a user asks for and that others leave.
fn add_stamps(
    command: &Command,
    user: u32,
    deed: &Deed,
    left: &[bool],
    count: u32,
    assumptions: &mut Vec<Assumption>,
) -> Result<(), AllocError> {
    for entry in deed.first..end_of(deed.last, count) {
        if mark_of(left, entry) && !does(command, Act::Leaves, entry) {
            assumptions.push(Assumption::Stamps { entry, user })?;
        }
    }
    Ok(())
}

// Adds the folders of a range that a user lists and in which commands change entries.
fn add_orders(
    user: u32,
    deed: &Deed,
    changed: &[bool],
    count: u32,
    assumptions: &mut Vec<Assumption>,
) -> Result<(), AllocError> {
    for folder in deed.first..end_of(deed.last, count) {
        if mark_of(changed, folder) {
            assumptions.push(Assumption::Order { folder, user })?;
        }
    }
    Ok(())
}

// Adds the folders of a deed.
fn add_folders_of(
    entries: &[Entry],
    deed: &Deed,
    count: u32,
    folders: &mut Vec<u32>,
) -> Result<(), AllocError> {
    for number in deed.first..end_of(deed.last, count) {
        if let Some(entry) = entries.get(number as usize) {
            if let Some(folder) = entry.folder {
                folders.push(folder)?;
            }
        }
    }
    Ok(())
}

// The folders in which a command changes entries, in their order.
fn own_folders(
    alloc: Global,
    entries: &[Entry],
    command: &Command,
    count: u32,
) -> Result<Vec<u32>, AllocError> {
    let mut folders = Vec::new(alloc);
    for deed in &command.deeds {
        if is_doing(Doing::Changes, deed.word) {
            add_folders_of(entries, deed, count, &mut folders)?;
        }
    }
    folders.sort_unstable();
    Ok(folders)
}

// Adds the folders of a range for which a user asks, in which others change entries, and in which the user does not.
fn add_folder_stamps(
    user: u32,
    deed: &Deed,
    changed: &[bool],
    own: &[u32],
    count: u32,
    assumptions: &mut Vec<Assumption>,
) -> Result<(), AllocError> {
    for folder in deed.first..end_of(deed.last, count) {
        if mark_of(changed, folder) && own.binary_search(&folder).is_err() {
            assumptions.push(Assumption::Stamps {
                entry: folder,
                user,
            })?;
        }
    }
    Ok(())
}

// Adds the folders for whose stamps commands may ask.
fn add_all_folder_stamps(
    alloc: Global,
    entries: &[Entry],
    commands: &[Command],
    changed: &[bool],
    count: u32,
    assumptions: &mut Vec<Assumption>,
) -> Result<(), AllocError>
    requires { length commands.now < 2 ^ 32 }
{
    for user in 0..commands.len() {
        let command = &commands[user];
        let own = own_folders(alloc, entries, command, count)?;
        for deed in &command.deeds {
            if matches!(deed.word, Word::Folder) {
                add_folder_stamps(user as u32, deed, changed, &own, count, assumptions)?;
            }
        }
    }
    Ok(())
}

// Adds the stamps for which commands ask.
fn add_all_stamps(
    commands: &[Command],
    left: &[bool],
    count: u32,
    assumptions: &mut Vec<Assumption>,
) -> Result<(), AllocError>
    requires { length commands.now < 2 ^ 32 }
{
    for user in 0..commands.len() {
        let command = &commands[user];
        for deed in &command.deeds {
            if matches!(deed.word, Word::Status) {
                add_stamps(command, user as u32, deed, left, count, assumptions)?;
            }
        }
    }
    Ok(())
}

// Adds the folders that commands list.
fn add_all_orders(
    commands: &[Command],
    changed: &[bool],
    count: u32,
    assumptions: &mut Vec<Assumption>,
) -> Result<(), AllocError>
    requires { length commands.now < 2 ^ 32 }
{
    for user in 0..commands.len() {
        let command = &commands[user];
        for deed in &command.deeds {
            if matches!(deed.word, Word::Listed) {
                add_orders(user as u32, deed, changed, count, assumptions)?;
            }
        }
    }
    Ok(())
}

// A mark for each folder in which an entry has a mark.
fn folders_of(alloc: Global, entries: &[Entry], marks: &[bool]) -> Result<Vec<bool>, AllocError> {
    let mut folders = vec![in alloc; false; entries.len()]?;
    for (number, entry) in entries.iter().enumerate() {
        if let Some(true) = marks.get(number).copied() {
            if let Some(folder) = entry.folder {
                mark(&mut folders, folder);
            }
        }
    }
    Ok(folders)
}

// Adds the caches of a line.
fn add_cache_ranges(
    user: u32,
    ranges: &[PathRange],
    count: u32,
    assumptions: &mut Vec<Assumption>,
) -> Result<(), AllocError> {
    for range in ranges {
        for folder in range.first..end_of(range.last, count) {
            assumptions.push(Assumption::Cached { folder, user })?;
        }
    }
    Ok(())
}

// Adds the caches that a command reads.
fn add_cache_lines(
    user: u32,
    lines: &[Line],
    count: u32,
    assumptions: &mut Vec<Assumption>,
) -> Result<(), AllocError> {
    for line in lines {
        if matches!(line.deed, Seen::Cached) {
            add_cache_ranges(user, line.entries.ranges(), count, assumptions)?;
        }
    }
    Ok(())
}

// Adds the caches that commands read.
fn add_caches(
    observation: &Observation,
    count: u32,
    assumptions: &mut Vec<Assumption>,
) -> Result<(), AllocError> {
    let mut user = 0u32;
    for command in observation.commands() {
        add_cache_lines(user, command.lines(), count, assumptions)?;
        user = user.saturating_add(1);
    }
    Ok(())
}

// Adds the entries that filters hide and commands change.
fn add_hidden_entries(
    entries: &[Entry],
    changes: &[bool],
    assumptions: &mut Vec<Assumption>,
) -> Result<(), AllocError>
    requires { length entries.now < 2 ^ 32 }
{
    for (number, entry) in entries.iter().enumerate() {
        let entry_number = number as u32;
        if entry.hidden && mark_of(changes, entry_number) {
            assumptions.push(Assumption::HiddenEntry {
                entry: entry_number,
            })?;
        }
    }
    Ok(())
}

// Adds what the observation hides, and the files that had several names.
fn add_rest(
    observation: &Observation,
    assumptions: &mut Vec<Assumption>,
) -> Result<(), AllocError> {
    let mut number = 0u32;
    for _hidden in observation.hidden() {
        assumptions.push(Assumption::HiddenPlace { number })?;
        number = number.saturating_add(1);
    }
    let mut number = 0u32;
    for _same in observation.same() {
        assumptions.push(Assumption::Names { number })?;
        number = number.saturating_add(1);
    }
    Ok(())
}

/// What is assumed of the commands of a scene.
///
/// # Errors
/// [`AllocError`] only where an allocation was refused.
pub(crate) fn assumptions_of(
    alloc: Global,
    observation: &Observation,
    scene: &Scene,
) -> Result<Vec<Assumption>, AllocError>
    requires entries { length scene.now.entries.items < 2 ^ 32 }
    requires commands { length scene.now.commands.items < 2 ^ 32 }
{
    let commands = scene.commands.as_slice();
    let count = scene.entries.len() as u32;
    let left = marks_of(alloc, commands, Doing::Leaves, count)?;
    let changes = marks_of(alloc, commands, Doing::Changes, count)?;
    let folders = folders_of(alloc, &scene.entries, &changes)?;
    let mut assumptions = Vec::new(alloc);
    assumptions.push(Assumption::Targets)?;
    assumptions.push(Assumption::SeesTheSame)?;
    add_ensured(alloc, commands, count, &mut assumptions)?;
    add_all_stamps(commands, &left, count, &mut assumptions)?;
    add_all_folder_stamps(
        alloc,
        &scene.entries,
        commands,
        &folders,
        count,
        &mut assumptions,
    )?;
    add_all_orders(commands, &folders, count, &mut assumptions)?;
    add_caches(observation, count, &mut assumptions)?;
    add_hidden_entries(&scene.entries, &changes, &mut assumptions)?;
    add_rest(observation, &mut assumptions)?;
    Ok(assumptions)
}
