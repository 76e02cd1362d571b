//! Tables of who touches which place.
ghost use Rattle.std.specs.Prelude.{◌≡◌, ◌<◌, ℕ, length, IfOk, OnOk};
ghost use Rattle.rev_ranks.specs.Graph.{Steps, graph_of};
ghost use Rattle.rev_conflicts.specs.Tables.{AreTouched, EachTouches, OneTouches, Puts, PutsAt};

use crate::doing::changed;
use crate::folder::folder_number;
use rev_observed::Command;
use rev_paths::Paths;
use std::alloc::{AllocError, Global};

/// So many empty lists.
///
/// # Errors
/// [`AllocError`] only where an allocation was refused.
pub fn empty_lists(alloc: Global, count: u64) -> Result<Vec<Vec<u64>>, AllocError>
    ensures each { IfOk result (λ lists. length lists.items ≡ count) }
    ensures none { IfOk result (λ lists. (p c : ℕ) → Steps (graph_of lists.items) p c → ⊥) }
{
    let mut lists = Vec::new(alloc);
    for number in 0..count {
        prove!(number < count);
        lists.push(Vec::new(alloc))?;
    }
    Ok(lists)
}

/// Adds a command at a place.
///
/// # Errors
/// [`AllocError`] only where an allocation was refused.
pub fn put(lists: &mut Vec<Vec<u64>>, place: usize, command: u64) -> Result<(), AllocError>
    requires { place < length lists.old.items }
    ensures { OnOk result (Puts (graph_of lists.old.items) (graph_of lists.new.items) place command) }
{
    lists[place].push(command)?;
    Ok(())
}

// Adds a command at the places that it touches by a path which it changes.
fn touch(
    alloc: Global,
    paths: &Paths,
    hidden: &[bool],
    command: u64,
    path: u64,
    files: &mut Vec<Vec<u64>>,
    folders: &mut Vec<Vec<u64>>,
) -> Result<(), AllocError>
    requires hidden { length hidden.now ≡ length paths.now }
    requires files { length files.old.items ≡ length paths.now }
    requires folders { length folders.old.items ≡ length paths.now }
    ensures { OnOk result (PutsAt (graph_of files.old.items) (graph_of folders.old.items) (graph_of files.new.items)
        (graph_of folders.new.items) command (OneTouches paths.now hidden.now path)) }
{
    if path >= paths.len() {
        return Ok(());
    }
    if hidden[path as usize] {
        return Ok(());
    }
    put(files, path as usize, command)?;
    if let Some(folder) = folder_number(alloc, paths, path)? {
        put(folders, folder as usize, command)?;
    }
    Ok(())
}

// Adds a command at the places that it touches by paths which it changes.
fn touch_each(
    alloc: Global,
    paths: &Paths,
    hidden: &[bool],
    command: u64,
    changed: &[u64],
    files: &mut Vec<Vec<u64>>,
    folders: &mut Vec<Vec<u64>>,
) -> Result<(), AllocError>
    requires hidden { length hidden.now ≡ length paths.now }
    requires files { length files.old.items ≡ length paths.now }
    requires folders { length folders.old.items ≡ length paths.now }
    ensures { OnOk result (PutsAt (graph_of files.old.items) (graph_of folders.old.items) (graph_of files.new.items)
        (graph_of folders.new.items) command (EachTouches paths.now hidden.now changed.now)) }
{
    for path in changed {
        touch(alloc, paths, hidden, command, *path, files, folders)?;
    }
    Ok(())
}

/// Who touches which place: for each path the numbers of the commands that touch its file, and of those that touch the
/// entries of its folder.
#[derive(Drop)]
pub(crate) struct Tables {
    pub(crate) files: Vec<Vec<u64>>,
    pub(crate) folders: Vec<Vec<u64>>,
}

/// Who touches which place. Each path that a command changes is looked at once.
///
/// # Errors
/// [`AllocError`] only where an allocation was refused.
pub(crate) fn make_tables(
    alloc: Global,
    paths: &Paths,
    hidden: &[bool],
    commands: &[Command],
) -> Result<Tables, AllocError>
    requires hidden { length hidden.now ≡ length paths.now }
    ensures { IfOk result (λ tables. AreTouched paths.now hidden.now commands.now
        (graph_of tables.files.items) (graph_of tables.folders.items)) }
{
    let mut files = empty_lists(alloc, paths.len())?;
    let mut folders = empty_lists(alloc, paths.len())?;
    for (number, command) in commands.iter().enumerate() {
        let changed = changed(alloc, command)?;
        touch_each(
            alloc,
            paths,
            hidden,
            number as u64,
            &changed,
            &mut files,
            &mut folders,
        )?;
    }
    Ok(Tables { files, folders })
}
