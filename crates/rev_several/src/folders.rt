//! Which folders commands were seen to make and to find, with no other difference.
ghost use Rattle.std.specs.Prelude.{◌≡◌, ℕ, [], false, nat_eq, option_copied, unwrap_or, IfOk, OnOk};
ghost use Rattle.indexmap.specs.IndexMap.{get};
ghost use Rattle.rev_several.specs.Makings.{Key, and_shown, are_shown, is_shown, key_eq, makers_of, seen_again, seen_by, seen_first, seen_with};

use indexmap::IndexMap;
use rev_baseline::Id;
use std::alloc::{AllocError, Global};

/// How a command came to a folder that it has made where that is missing, in one recording.
#[derive(Clone, Copy)]
pub struct Making {
    /// The stable name of the folder.
    pub folder: Id,
    /// The number of the command's edge.
    pub maker: u32,
    /// Whether the folder was there already.
    pub found: bool,
    /// A name of all that the command did at other entries than the folders that it makes.
    pub besides: Id,
}

/// What several recordings show of a command and a folder.
#[derive(Clone, Copy)]
pub(crate) struct Seen {
    // In one of them it made the folder.
    made: bool,
    // In one of them the folder was there already.
    found: bool,
    // In each of them it did the same besides.
    same: bool,
    // What it did besides in the first one.
    besides: Id,
}

/// How commands came to folders, in several recordings.
pub struct Makings {
    seen: IndexMap<(u64, u32), Seen>,
}

/// For each folder whether each of its makers was seen to make it and to find it, and did the same besides.
pub struct Shown {
    folders: IndexMap<u64, bool>,
}

// Written, since a derived drop is proved again at each exit of each caller.
impl Drop for Makings {
    fn drop(self) {
        let Makings { seen: _seen } = self;
    }
}

impl Drop for Shown {
    fn drop(self) {
        let Shown { folders: _folders } = self;
    }
}

// What one recording shows.
fn first_of(making: &Making) -> Seen
    ensures { result ≡ seen_first making.now }
{
    Seen {
        made: !making.found,
        found: making.found,
        same: true,
        besides: making.besides,
    }
}

// What a further recording shows, too.
fn again_of(seen: &Seen, making: &Making) -> Seen
    ensures { result ≡ seen_again seen.now making.now }
{
    Seen {
        made: seen.made || !making.found,
        found: seen.found || making.found,
        same: seen.same && making.besides.0 == seen.besides.0,
        besides: seen.besides,
    }
}

// Whether the recordings show that a command does the same whether it makes the folder or finds it.
fn is_both(seen: &Seen) -> bool
    ensures { result ≡ is_shown seen.now }
{
    seen.made && (seen.found && seen.same)
}

// What is shown of a command and a folder with one recording more.
fn with_making(seen: Option<&Seen>, making: &Making) -> Seen
    ensures { result ≡ seen_by (option_copied seen.entry) making.now }
{
    match seen {
        Some(seen) => again_of(seen, making),
        None => first_of(making),
    }
}

// Whether that is shown of each command that came to a folder, with one command more.
fn with_maker(before: Option<&bool>, seen: &Seen) -> bool
    ensures { result ≡ and_shown (option_copied before.entry) seen.now }
{
    match before {
        Some(before) => *before && is_both(seen),
        None => is_both(seen),
    }
}

impl Makings {
    /// No command came to a folder.
    pub fn new(alloc: Global) -> Makings
        ensures { result.seen.entries ≡ [] }
    {
        Makings {
            seen: IndexMap::new(alloc),
        }
    }

    /// Notes how a command came to a folder in one recording more.
    ///
    /// # Errors
    /// [`AllocError`] only where an allocation was refused.
    pub fn note(&mut self, making: &Making) -> Result<(), AllocError>
        ensures { OnOk result ((key : Key) → get key_eq self.new.seen key
            ≡ seen_with (get key_eq self.old.seen) making.now key) }
    {
        let key = (making.folder.0, making.maker);
        let seen = with_making(self.seen.get(&key), making);
        self.seen.insert(key, seen)?;
        Ok(())
    }

    /// For each folder whether each of its makers was seen to make it in one recording, and to find it in another one,
    /// and did the same besides in each recording.
    ///
    /// # Errors
    /// [`AllocError`] only where an allocation was refused.
    pub fn shown(&self, alloc: Global) -> Result<Shown, AllocError>
        ensures { IfOk result (λ shown. (folder : ℕ) → get nat_eq shown.folders folder
            ≡ are_shown (makers_of folder self.now.seen.entries)) }
    {
        let mut folders = IndexMap::new(alloc);
        for (key, seen) in &self.seen {
            let is_shown = with_maker(folders.get(&key.0), seen);
            folders.insert(key.0, is_shown)?;
        }
        Ok(Shown { folders })
    }
}

impl Shown {
    /// Whether that is so of a folder. It is not so of one to which no command came.
    pub fn has(&self, folder: Id) -> bool
        ensures { result ≡ unwrap_or (get nat_eq self.now.folders folder.0) false }
    {
        match self.folders.get(&folder.0) {
            Some(shown) => *shown,
            None => false,
        }
    }
}
