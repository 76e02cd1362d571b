//! Which findings are known, and which are ignored.
ghost use Rattle.std.specs.Prelude.{◌≡◌, ◌+◌, ◌∷◌, [], List, ℕ, bytes_eq, codes, filter, map, nat_eq, position, take, Some, None, IfOk, OnOk, IsErrOf};
ghost use Rattle.std.specs.List.{filter_map, list_any};
ghost use Rattle.indexmap.specs.IndexSet.{insert_all};
ghost use Rattle.rev_fields.specs.Lines.{lines_of};
ghost use Rattle.rev_fields.specs.Parts.{slices_of};
ghost use Rattle.rev_filters.specs.Patterns.{is_hidden as is_hidden_of};
ghost use Rattle.rev_filters.specs.Texts.{patterns_of};
ghost use Rattle.rev_baseline.specs.Baselines.{behind_head, id_in as id_of, ignored_of, is_odd as is_odd_of, known_of, pattern_in as pattern_of, words_of};

use crate::faults::{Fault, FaultKind, ReadFault};
use crate::id::Id;
use crate::lines::{id_in, is_odd, pattern_in, words};
use indexmap::IndexSet;
use rev_fields::parts_at;
use rev_filters::{Filters, MAX_BYTES, is_hidden};
use std::alloc::{AllocError, Global};

// The first line.
const HEAD: &[u8] = b"rebug-baseline 1";

/// Findings that are known, and patterns of paths: findings about these paths are ignored.
#[derive(Drop)]
pub struct Baseline {
    known: IndexSet<u64>,
    ignored: Vec<Filters>,
}

// A fault at a line.
fn fault(kind: FaultKind, line: u64) -> ReadFault {
    ReadFault::Numbered(Fault { kind, line })
}

// The place of the first line that is none of those that may stand there.
fn first_odd(alloc: Global, lines: &[&[u8]]) -> Result<Option<usize>, AllocError>
    ensures { IfOk result (λ place. place ≡ position is_odd_of (slices_of lines.now)) }
{
    for (place, line) in lines.iter().enumerate() {
        if is_odd(alloc, line)? {
            return Ok(Some(place));
        }
    }
    Ok(None)
}

// The findings that lines know.
fn ids_in(alloc: Global, lines: &[&[u8]]) -> Result<Vec<u64>, AllocError>
    ensures { IfOk result (λ ids. ids.items
        ≡ filter_map (λ line. id_of (words_of line)) (slices_of lines.now)) }
{
    let mut ids = Vec::new(alloc);
    for line in lines {
        if let Some(id) = id_in(&words(alloc, line)?) {
            ids.push(id)?;
        }
    }
    Ok(ids)
}

// The same, each once.
fn set_of(alloc: Global, ids: &[u64]) -> Result<IndexSet<u64>, AllocError>
    ensures { IfOk result (λ set. set.keys ≡ insert_all nat_eq [] ids.now) }
{
    let mut set = IndexSet::new(alloc);
    for id in ids {
        set.insert(*id)?;
    }
    Ok(set)
}

// The filter of a pattern that stands at a line.
fn filter_of(alloc: Global, pattern: &[u8], line: u64) -> Result<Filters, ReadFault>
    ensures { IfOk result (λ filters. filters ≡ patterns_of pattern.now) }
{
    match rev_filters::read(alloc, pattern) {
        Ok(filters) => Ok(filters),
        Err(rev_filters::ReadFault::Memory) => Err(ReadFault::Memory),
        Err(rev_filters::ReadFault::Numbered(_)) => Err(fault(FaultKind::Syntax, line)),
    }
}

// The filters of the patterns that lines ignore, behind the first line.
fn filters_in(alloc: Global, lines: &[&[u8]]) -> Result<Vec<Filters>, ReadFault>
    ensures { IfOk result (λ filters. filters.items ≡ ignored_of (slices_of lines.now)) }
{
    let mut filters = Vec::new(alloc);
    for (place, line) in lines.iter().enumerate() {
        if let Some(pattern) = pattern_in(&words(alloc, line)?) {
            let number = u64::saturating_add(place as u64, 2);
            filters.push(filter_of(alloc, pattern, number)?)?;
        }
    }
    Ok(filters)
}

// How many bytes the patterns have that lines ignore.
fn pattern_bytes(alloc: Global, lines: &[&[u8]]) -> Result<usize, AllocError> {
    let mut bytes = 0usize;
    for line in lines {
        if let Some(pattern) = pattern_in(&words(alloc, line)?) {
            bytes = usize::saturating_add(bytes, pattern.len());
        }
    }
    Ok(bytes)
}

impl Baseline {
    /// A baseline that knows no finding and ignores no path.
    pub fn nothing(alloc: Global) -> Baseline
        ensures known { result.known.keys ≡ [] }
        ensures ignored { result.ignored.items ≡ [] }
    {
        Baseline {
            known: IndexSet::new(alloc),
            ignored: Vec::new(alloc),
        }
    }

    /// Reads a baseline. Its first line is `rebug-baseline 1`. Each other line is of one of these:
    ///
    /// - An empty line, or one that begins with `#`, says nothing.
    /// - A line whose first word is the 16 hexadecimal digits of a name says that this finding is known. What follows
    ///   after a space is for people.
    /// - `--ignore PATTERN REASON` says that findings about the paths that the pattern hides are ignored. The pattern
    ///   has the form of one in a file of filters ([`rev_filters::read`]).
    ///
    /// The last line may lack its LF. It takes time linear in the bytes, up to hashing.
    ///
    /// # Errors
    /// [`ReadFault::Numbered`] with the first fault of the text. [`ReadFault::Memory`] only where an allocation was
    /// refused.
    pub fn read(alloc: Global, text: &[u8]) -> Result<Baseline, ReadFault>
        ensures head { OnOk result (take 1 (lines_of text.now) ≡ codes "rebug-baseline 1" ∷ []) }
        ensures lines { OnOk result (position is_odd_of (behind_head text.now) ≡ None) }
        ensures known { IfOk result (λ b. b.known.keys ≡ known_of (behind_head text.now)) }
        ensures ignored { IfOk result (λ b. b.ignored.items ≡ ignored_of (behind_head text.now)) }
    {
        let lines = parts_at(alloc, text, b'\n')?;
        let Some((head, rest)) = lines.split_first() else {
            return Err(fault(FaultKind::Syntax, 1));
        };
        if *head != HEAD {
            return Err(fault(FaultKind::Syntax, 1));
        }
        if let Some(place) = first_odd(alloc, rest)? {
            return Err(fault(FaultKind::Syntax, u64::saturating_add(place as u64, 2)));
        }
        let known = set_of(alloc, &ids_in(alloc, rest)?)?;
        let ignored = filters_in(alloc, rest)?;
        if pattern_bytes(alloc, rest)? > MAX_BYTES {
            return Err(fault(FaultKind::Long, 0));
        }
        Ok(Baseline { known, ignored })
    }

    /// Forgets which findings are known. It ignores the same paths as before.
    pub fn forget(&mut self)
        ensures known { self.new.known.keys ≡ [] }
        ensures ignored { self.new.ignored ≡ self.old.ignored }
    {
        self.known.clear();
    }

    /// Whether the finding of a name is known.
    pub fn knows(&self, id: Id) -> bool
        ensures { result ≡ list_any (nat_eq id.0) self.now.known.keys }
    {
        self.known.contains(&id.0)
    }

    /// Whether findings about a path are ignored.
    ///
    /// # Errors
    /// [`AllocError`] only where an allocation was refused.
    pub fn ignores(&self, alloc: Global, path: &[u8]) -> Result<bool, AllocError>
        ensures { IfOk result (λ ignored. ignored
            ≡ list_any (λ (f : List (List ℕ)). is_hidden_of f path.now) self.now.ignored.items) }
    {
        is_hidden(alloc, &self.ignored, path)
    }
}
