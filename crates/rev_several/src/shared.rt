//! Which recordings have which things.
ghost use Rattle.std.specs.Prelude.{◌≡◌, ◌<◌, [], length, nat_eq, not, replicate, IfOk, OnOk};
ghost use Rattle.indexmap.specs.IndexSet.{contains, insert_index, insert_key};
ghost use Rattle.rev_several.specs.Holders.{AreHolders, lists_of, noted, with_holder};

use indexmap::IndexSet;
use rev_baseline::Id;
use std::alloc::{AllocError, Global};

/// That a recording has a thing.
#[derive(Clone, Copy)]
pub(crate) struct Note {
    // The place of the thing among all.
    place: usize,
    // The number of the recording.
    recording: u32,
}

/// Which recordings have which things. A thing has a stable name, and is there once, at the place at which it was noted
/// first. Recordings have numbers.
pub struct Shared {
    names: IndexSet<u64>,
    notes: Vec<Note>,
}

// Written, since a derived drop is proved again at each exit of each caller.
impl Drop for Shared {
    fn drop(self) {
        let Shared {
            names: _names,
            notes: _notes,
        } = self;
    }
}

// As many empty lists.
fn empty_lists(alloc: Global, count: usize) -> Result<Vec<Vec<u32>>, AllocError>
    ensures { IfOk result (λ lists. lists_of lists.items ≡ replicate count []) }
{
    let mut lists = Vec::new(alloc);
    for number in 0..count {
        prove!(number < count);
        lists.push(Vec::new(alloc))?;
    }
    Ok(lists)
}

// Adds a recording to the list of a place.
fn put(lists: &mut Vec<Vec<u32>>, place: usize, recording: u32) -> Result<(), AllocError>
    requires { place < length lists.old.items }
    ensures { OnOk result (lists_of lists.new.items ≡ with_holder (lists_of lists.old.items) place recording) }
{
    lists[place].push(recording)?;
    Ok(())
}

impl Shared {
    /// No things.
    pub fn new(alloc: Global) -> Shared
        ensures names { result.names.keys ≡ [] }
        ensures notes { result.notes.items ≡ [] }
    {
        Shared {
            names: IndexSet::new(alloc),
            notes: Vec::new(alloc),
        }
    }

    /// Notes that a recording has a thing, and says whether it is the first one that has it. The caller notes a thing of
    /// a recording once.
    ///
    /// # Errors
    /// [`AllocError`] only where an allocation was refused.
    pub fn note(&mut self, name: Id, recording: u32) -> Result<bool, AllocError>
        ensures is_new { IfOk result (λ is_new. is_new ≡ not (contains nat_eq self.old.names name.0)) }
        ensures names { OnOk result (self.new.names.keys ≡ insert_key nat_eq self.old.names.keys name.0) }
        ensures notes { OnOk result (self.new.notes.items
            ≡ noted self.old.notes.items (insert_index nat_eq self.old.names name.0) recording) }
    {
        let (place, is_new) = self.names.insert_full(name.0)?;
        self.notes.push(Note { place, recording })?;
        Ok(is_new)
    }

    /// The recordings that have each thing, in the order in which they were noted. The things stand in their places.
    ///
    /// # Errors
    /// [`AllocError`] only where an allocation was refused.
    pub fn holders(&self, alloc: Global) -> Result<Vec<Vec<u32>>, AllocError>
        ensures { IfOk result (λ lists. AreHolders self.now.notes.items (length self.now.names.keys)
            (lists_of lists.items)) }
    {
        let mut lists = empty_lists(alloc, self.names.len())?;
        for note in &self.notes {
            if note.place < lists.len() {
                put(&mut lists, note.place, note.recording)?;
            }
        }
        Ok(lists)
    }
}
