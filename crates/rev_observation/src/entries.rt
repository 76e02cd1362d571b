//! The entries of an observation, by their numbers, and the further names of some.
ghost use Rattle.std.specs.Prelude.{◌≡◌, ◌≤◌, true, bytes_eq, length};
ghost use Rattle.std.specs.List.{IsDistinct};
ghost use Rattle.rev_observation.specs.Entries.{AreBelow, entry_put, is_below, name_put, no_entries, no_names};
ghost use Rattle.rev_observation.specs.Faults.{Answers};

use crate::faults::{DOUBLE, LineFault};
use rev_paths::{Name, Paths};
use std::alloc::Global;
use std::marker::Model;

/// The entries that commands have to do with, each under its number. An entry's folder has a lower number than the
/// entry.
pub struct Entries {
    paths: Paths,
    folders: Vec<Option<u32>>,
}

impl Drop for Entries {
    fn drop(self) {
        let Entries {
            paths: _paths,
            folders: _folders,
        } = self;
    }
}

impl Model for Entries {
    ghost use Rattle.std.specs.Prelude.{◌≡◌, length};
    ghost use Rattle.rev_observation.specs.Entries.{AreBelow, EntriesValue};

    ghost Value = { EntriesValue };

    ghost view = { λ e. record { paths = e.paths; folders = e.folders.items } };

    ghost invariant = { λ e. (length e.folders.items ≡ length e.paths) × AreBelow 0 e.folders.items };
}

impl Entries {
    /// No entry.
    pub(crate) fn new(alloc: Global) -> Entries
        ensures { result ≡ no_entries }
    {
        Entries {
            paths: Paths::new(alloc),
            folders: Vec::new(alloc),
        }
    }

    /// Gives an entry the next number.
    pub(crate) fn put(&mut self, path: &Name, folder: Option<u32>) -> Result<(), LineFault>
        requires { is_below (length self.old.paths) folder ≡ true }
        ensures said { Answers result (λ _. self.new) (entry_put self.old path.now folder) }
        ensures more { length self.old.paths ≤ length self.new.paths }
    {
        put_entry(&mut self.paths, &mut self.folders, path, folder)
    }

    /// How many entries there are.
    pub fn len(&self) -> u64
        ensures { result ≡ length self.now.paths }
    {
        self.paths.len()
    }

    /// The paths of the entries, each under its entry's number. No path has two.
    pub fn paths(&self) -> &Paths
        ensures same { result.now ≡ self.now.paths }
        ensures distinct { IsDistinct bytes_eq self.now.paths }
    {
        let _count = self.paths.len();
        &self.paths
    }

    /// The number of each entry's folder, where the folder has one. It is below the entry's own.
    pub fn folders(&self) -> &[Option<u32>]
        ensures same { result.now ≡ self.now.folders }
        ensures each { length self.now.folders ≡ length self.now.paths }
        ensures below { AreBelow 0 self.now.folders }
    {
        self.folders.as_slice()
    }
}

// Adds an entry whose path is not among those of the others.
fn put_entry(
    paths: &mut Paths,
    folders: &mut Vec<Option<u32>>,
    path: &Name,
    folder: Option<u32>,
) -> Result<(), LineFault>
    requires each { length folders.old.items ≡ length paths.old }
    requires below { is_below (length paths.old) folder ≡ true }
    requires sound { AreBelow 0 folders.old.items }
    ensures said { Answers result (λ _. record { paths = paths.new; folders = folders.new.items })
        (entry_put (record { paths = paths.old; folders = folders.old.items }) path.now folder) }
    ensures each { length folders.new.items ≡ length paths.new }
    ensures more { length paths.old ≤ length paths.new }
    ensures sound { AreBelow 0 folders.new.items }
{
    if paths.find(path).is_some() {
        return Err(DOUBLE);
    }
    folders.push(folder)?;
    match paths.intern(path) {
        Ok(_place) => Ok(()),
        Err(_refused) => {
            folders.pop();
            Err(LineFault::Memory)
        }
    }
}

/// Further names of entries, as the manifest or a list of Ninja's has them. No name has two numbers.
pub struct OtherNames {
    names: Paths,
    entries: Vec<u32>,
}

impl Drop for OtherNames {
    fn drop(self) {
        let OtherNames {
            names: _names,
            entries: _entries,
        } = self;
    }
}

impl Model for OtherNames {
    ghost use Rattle.std.specs.Prelude.{◌≡◌, length};
    ghost use Rattle.rev_observation.specs.Entries.{NamesValue};

    ghost Value = { NamesValue };

    ghost view = { λ n. record { names = n.names; entries = n.entries.items } };

    ghost invariant = { λ n. length n.entries.items ≡ length n.names };
}

impl OtherNames {
    /// No name.
    pub(crate) fn new(alloc: Global) -> OtherNames
        ensures { result ≡ no_names }
    {
        OtherNames {
            names: Paths::new(alloc),
            entries: Vec::new(alloc),
        }
    }

    /// Names an entry by a path besides.
    pub(crate) fn put(&mut self, path: &Name, entry: u32) -> Result<(), LineFault>
        ensures { Answers result (λ _. self.new) (name_put self.old path.now entry) }
    {
        put_name(&mut self.names, &mut self.entries, path, entry)
    }

    /// The names.
    pub fn names(&self) -> &Paths
        ensures same { result.now ≡ self.now.names }
        ensures distinct { IsDistinct bytes_eq self.now.names }
    {
        let _count = self.names.len();
        &self.names
    }

    /// The number of the entry of each name.
    pub fn entries(&self) -> &[u32]
        ensures same { result.now ≡ self.now.entries }
        ensures each { length self.now.entries ≡ length self.now.names }
    {
        self.entries.as_slice()
    }
}

// Adds a name that is not among the others.
fn put_name(
    names: &mut Paths,
    entries: &mut Vec<u32>,
    path: &Name,
    entry: u32,
) -> Result<(), LineFault>
    requires each { length entries.old.items ≡ length names.old }
    ensures said { Answers result (λ _. record { names = names.new; entries = entries.new.items })
        (name_put (record { names = names.old; entries = entries.old.items }) path.now entry) }
    ensures each { length entries.new.items ≡ length names.new }
{
    if names.find(path).is_some() {
        return Err(DOUBLE);
    }
    entries.push(entry)?;
    match names.intern(path) {
        Ok(_place) => Ok(()),
        Err(_refused) => {
            entries.pop();
            Err(LineFault::Memory)
        }
    }
}
