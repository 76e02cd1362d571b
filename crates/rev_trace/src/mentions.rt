//! Listed paths, each kept once.
ghost use Rattle.std.specs.Prelude.{◌≡◌, ◌∷◌, [], ◌||◌, ◌<◌, false, slice_get, Some, IfOk, IfSome, bytes_eq};
ghost use Rattle.std.specs.List.{IsDistinct};
ghost use Rattle.std.specs.Cmp.Lexicographic.{nat_list_eq_equiv};
ghost use Rattle.std.specs.Cmp.Rules.{comparing, hashing};
ghost use Rattle.std.proofs.Common.{ap, rules};
ghost use Rattle.std.proofs.lemmas.Slice.Eq.{bytes_eq-Decides};
ghost use Rattle.rev_fields.specs.Faults.{Answers};
ghost use Rattle.rev_fields.specs.Lines.{path_of, paths_of};
ghost use Rattle.rev_fields.specs.Parts.{lent_of};
ghost use Rattle.rev_trace.specs.Mentioned.{IsMentioned};
ghost use Rattle.indexmap.specs.IndexMap.{index_map_len, keys};

use indexmap::{Equivalent, IndexMap};
use rev_cells::Names;
use rev_events::ListedPaths;
use rev_fields::{LineFault, path};
use rev_paths::{Name, same_bytes};
use std::alloc::{AllocError, Global};
use std::borrow::CowSlice;
use std::hash::{Hash, Hasher};

// A path as it is looked up: by its text, of which no name is made for it.
#[derive(Clone, Copy, PartialEq, Eq)]
struct Mention<'a> {
    text: &'a [u8],
}

impl Hash for Mention<'_> {
    // As a name of these bytes.
    ghost hash_input = { λ m. m.text.now ∷ [] };

    ghost respects_eq = { Prim.search (hashing, rules) };

    fn hash<H: Hasher>(&self, state: &mut H) {
        state.write(self.text);
    }
}

impl Equivalent<Name> for Mention<'_> {
    ghost equivalent = { λ m name. bytes_eq m.text.now name };

    ghost respects_hash = { λ m name same. ap (λ text. text ∷ []) ((bytes_eq-Decides m.text.now name).0 same) };

    ghost respects_eq = { λ m. nat_list_eq_equiv.congr m.text.now };

    fn equivalent(&self, name: &Name) -> bool {
        same_bytes(self.text, name.as_bytes())
    }
}

// Which path was mentioned right after each, the last time. Lists mostly repeat what stands in those before them, so the
// next mention is guessed by it, and looked up only where the guess is wrong.
struct Followers {
    // The place of the follower of the path at each place.
    after: Vec<usize>,
    // The place of the path that was mentioned last.
    last: usize,
}

impl Drop for Followers {
    fn drop(self) {
        let Followers {
            after: _after,
            last: _last,
        } = self;
    }
}

impl Followers {
    // No paths.
    fn new(alloc: Global) -> Followers {
        Followers {
            after: Vec::new(alloc),
            last: 0,
        }
    }

    // The place that is mentioned next, as far as it can be guessed.
    fn guess(&self) -> Option<usize> {
        match self.after.get(self.last) {
            Some(place) => Some(*place),
            None => None,
        }
    }

    // Notes that the path at a place was mentioned.
    fn note(&mut self, place: usize) {
        if let Some(after) = self.after.get_mut(self.last) {
            *after = place;
        }
        self.last = place;
    }

    // Notes a mention of a path that is one more.
    fn grow(&mut self) -> Result<(), AllocError> {
        let place = self.after.len();
        self.after.push(0)?;
        self.note(place);
        Ok(())
    }
}

/// The paths that lists have mentioned so far, each once, and beside each the number of the list that mentioned it last.
/// A later mention shares the bytes of the first, since the same header is listed by thousands of edges. A path that a
/// list mentions twice is known by that number.
pub(crate) struct Mentions {
    last_lists: IndexMap<Name, u32>,
    list: u32,
    followers: Followers,
}

impl Drop for Mentions {
    fn drop(self) {
        let Mentions {
            last_lists: _last_lists,
            list: _list,
            followers: _followers,
        } = self;
    }
}

// An equal name, which is what its own bytes name.
fn once_more(name: &Name) -> Result<Name, AllocError>
    ensures equal { IfOk result (λ copy. copy ≡ name.now) }
    ensures named { path_of name.now ≡ Ok name.now }
{
    let _canonical = name.as_bytes();
    name.copy()
}

// Whether one of the two holds.
fn either(one: bool, other: bool) -> bool
    ensures { result ≡ (one || other) }
{
    one || other
}

impl Mentions {
    /// No paths. It takes no memory.
    pub(crate) fn new(alloc: Global) -> Mentions {
        Mentions {
            last_lists: IndexMap::new(alloc),
            list: 0,
            followers: Followers::new(alloc),
        }
    }

    // The path at a place, mentioned by the list, and whether the list mentioned it before.
    fn mention_at(&mut self, place: usize) -> Result<(Name, bool), AllocError>
        requires { place < index_map_len self.old.last_lists }
        ensures path { IfOk result (λ m. slice_get (keys self.old.last_lists) place ≡ Some m.0) }
        ensures named { IfOk result (λ m. path_of m.0 ≡ Ok m.0) }
        ensures list { self.new.list ≡ self.old.list }
        ensures mentioned { IfOk result (λ m. IsMentioned self.old.last_lists.entries self.new.last_lists.entries
            self.old.list m.0 m.1) }
    {
        let list = self.list;
        let (name, last) = self.last_lists.pair_mut(place);
        let again = *last == list;
        *last = list;
        let path = once_more(name)?;
        Ok((path, again))
    }

    // A path, mentioned by the list, and whether the list mentioned it before.
    fn mention_path(&mut self, path: Name) -> Result<(Name, bool), AllocError>
        ensures path { IfOk result (λ m. m.0 ≡ path) }
        ensures list { self.new.list ≡ self.old.list }
        ensures mentioned { IfOk result (λ m. IsMentioned self.old.last_lists.entries self.new.last_lists.entries
            self.old.list m.0 m.1) }
    {
        if let Some(place) = self.last_lists.get_index_of(&path) {
            self.followers.note(place);
            return self.mention_at(place);
        }
        let own = path.copy()?;
        self.followers.grow()?;
        self.last_lists.insert(path, self.list)?;
        Ok((own, false))
    }

    // The place of the path that has this text, where it follows again what it followed the last time.
    fn guessed(&self, text: &[u8]) -> Option<usize>
        ensures within { IfSome result (λ place. place < index_map_len self.now.last_lists) }
        ensures text { IfSome result (λ place. slice_get (keys self.now.last_lists) place ≡ Some text.now) }
    {
        let Some(place) = self.followers.guess() else {
            return None;
        };
        let Some((name, _)) = self.last_lists.get_index(place) else {
            return None;
        };
        if same_bytes(text, name.as_bytes()) {
            return Some(place);
        }
        None
    }

    // The path that a text names, mentioned by the list, and whether the list mentioned it before.
    fn mention(&mut self, alloc: Global, text: &[u8]) -> Result<(Name, bool), LineFault>
        ensures path { Answers result (λ m. m.0) (path_of text.now) }
        ensures list { self.new.list ≡ self.old.list }
        ensures mentioned { IfOk result (λ m. IsMentioned self.old.last_lists.entries self.new.last_lists.entries
            self.old.list m.0 m.1) }
    {
        if let Some(place) = self.guessed(text) {
            self.followers.note(place);
            return Ok(self.mention_at(place)?);
        }
        if let Some(place) = self.last_lists.get_index_of(Mention { text }) {
            self.followers.note(place);
            return Ok(self.mention_at(place)?);
        }
        let path = path(alloc, text)?;
        Ok(self.mention_path(path)?)
    }

    // The paths that the texts of a list name, and whether it mentions one more than once.
    fn mentioned(
        &mut self,
        alloc: Global,
        texts: &[CowSlice<'_, u8>],
    ) -> Result<(Vec<Name>, bool), LineFault>
        ensures paths { Answers result (λ m. m.0.items) (paths_of (lent_of texts.now)) }
        ensures once { IfOk result (λ m. m.1 ≡ false → IsDistinct bytes_eq m.0.items) }
    {
        self.list = self.list.saturating_add(1);
        let mut names = Vec::with_capacity(alloc, texts.len())?;
        let mut repeats = false;
        for text in texts {
            let (name, again) = self.mention(alloc, text)?;
            names.push(name)?;
            repeats = either(repeats, again);
        }
        Ok((names, repeats))
    }

    /// The paths that the texts of a record name.
    pub(crate) fn paths(
        &mut self,
        alloc: Global,
        texts: &[CowSlice<'_, u8>],
    ) -> Result<Vec<Name>, LineFault>
        ensures { Answers result (λ names. names.items) (paths_of (lent_of texts.now)) }
    {
        let (names, _) = self.mentioned(alloc, texts)?;
        Ok(names)
    }

    /// The paths that the texts of a list name.
    pub(crate) fn listed(
        &mut self,
        alloc: Global,
        texts: &[CowSlice<'_, u8>],
    ) -> Result<ListedPaths, LineFault>
        ensures { Answers result (λ paths. paths) (paths_of (lent_of texts.now)) }
    {
        let (names, repeats) = self.mentioned(alloc, texts)?;
        let names = Names::new(names)?;
        if repeats {
            return Ok(ListedPaths::new(names));
        }
        Ok(ListedPaths::distinct(names))
    }
}
