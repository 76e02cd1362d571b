//! Reads a depfile.
ghost use Rattle.std.specs.Prelude.{◌≡◌, ◌<◌, ℕ, ◌⊎◌, All, length, List, [], map, None, Some, true, false, bytes_eq, IfOk, IfErr, OnOk, MatchOption};
ghost use Rattle.std.specs.List.{list_any, flat_map};
ghost use Rattle.indexmap.specs.IndexSet.{insert_key, insert_all};
ghost use Rattle.rev_depfile.specs.declared.fault.DepfileFault.TheVariants.{LongPath, Memory};
ghost use Rattle.rev_depfile.specs.Lines.{is_line_end, parts, word_at, words};
ghost use Rattle.rev_depfile.specs.Slices.{texts};
ghost use Rattle.rev_depfile.specs.Value.{first_fault, first_fault_in, is_long, is_output, line_at, line_fault, line_paths, long_fault, path_of, prerequisites, rule_fault};

use crate::fault::DepfileFault;
use crate::sign::Sign;
use crate::signs::text_signs;
use crate::words::{colon_place, line_len, part_words, word_bytes};
use indexmap::IndexSet;
use rev_paths::{Name, PathFault};
use std::alloc::{AllocError, Global};

// The offset of the first byte of a word.
fn word_at(word: &[Sign]) -> u64
    ensures { result ≡ word_at word.now }
{
    match word {
        [] => 0,
        [first, ..] => first.at as u64,
    }
}

// Where a line with a separating colon begins.
fn line_at(targets: &[&[Sign]], colon: &Sign) -> u64
    ensures { result ≡ line_at (texts targets.now) colon.now }
{
    match targets {
        [] => colon.at as u64,
        [first, ..] => word_at(first),
    }
}

// The name of a word, or none where the word is too long.
fn word_name(alloc: Global, word: &[Sign]) -> Result<Option<Name>, AllocError>
    requires { 0 < length word.now }
    ensures name { IfOk result (λ found.
        MatchOption found (is_long word.now ≡ true)
        (λ name. (is_long word.now ≡ false) × (name ≡ path_of word.now))) }
{
    let text = word_bytes(alloc, word)?;
    match Name::new(alloc, &text) {
        Ok(name) => Ok(Some(name)),
        Err(PathFault::LongPath) => Ok(None),
        Err(PathFault::Memory) => Err(AllocError),
        Err(PathFault::EmptyPath) => unreachable!(),
    }
}

// Names, for look-ups.
fn name_set(alloc: Global, names: &[Name]) -> Result<IndexSet<Name>, AllocError>
    ensures names { IfOk result (λ set. (path : List ℕ)
        → list_any (bytes_eq path) set.keys ≡ list_any (bytes_eq path) names.now) }
{
    let mut set = IndexSet::new(alloc);
    for name in names {
        set.insert(name.copy()?)?;
    }
    Ok(set)
}

// Whether a target is an output.
fn is_output(alloc: Global, outputs: &IndexSet<Name>, target: &[Sign]) -> Result<bool, AllocError>
    requires { 0 < length target.now }
    ensures output { IfOk result (λ answer. answer ≡ is_output outputs.now.keys target.now) }
{
    match word_name(alloc, target)? {
        None => Ok(false),
        Some(name) => Ok(outputs.contains(&name)),
    }
}

// Whether some target is an output.
fn names_output(
    alloc: Global,
    outputs: &IndexSet<Name>,
    targets: &[&[Sign]],
) -> Result<bool, AllocError>
    requires { All (λ target. 0 < length target.now) targets.now }
    ensures output { IfOk result (λ answer. answer ≡ list_any (is_output outputs.now.keys) (texts targets.now)) }
{
    for target in targets {
        if is_output(alloc, outputs, target)? {
            return Ok(true);
        }
    }
    Ok(false)
}

// Adds a prerequisite where it is not yet there.
fn add_prerequisite(
    alloc: Global,
    found: &mut IndexSet<Name>,
    word: &[Sign],
) -> Result<(), DepfileFault>
    requires { 0 < length word.now }
    ensures path { OnOk result (found.new.keys ≡ insert_key bytes_eq found.old.keys (path_of word.now)) }
    ensures short { OnOk result (is_long word.now ≡ false) }
    ensures fault { IfErr result (λ fault. (fault ≡ Memory)
        ⊎ ((is_long word.now ≡ true) × (fault ≡ LongPath (word_at word.now)))) }
{
    match word_name(alloc, word)? {
        None => Err(DepfileFault::LongPath(word_at(word))),
        Some(name) => {
            found.insert(name)?;
            Ok(())
        }
    }
}

// Adds the prerequisites that are not yet there.
fn add_prerequisites(
    alloc: Global,
    found: &mut IndexSet<Name>,
    words: &[&[Sign]],
) -> Result<(), DepfileFault>
    requires { All (λ word. 0 < length word.now) words.now }
    ensures paths { OnOk result (found.new.keys
        ≡ insert_all bytes_eq found.old.keys (map path_of (texts words.now))) }
    ensures short { OnOk result (long_fault (texts words.now) ≡ None) }
    ensures fault { IfErr result (λ fault. (fault ≡ Memory) ⊎ (long_fault (texts words.now) ≡ Some fault)) }
{
    for word in words {
        add_prerequisite(alloc, found, word)?;
    }
    Ok(())
}

// Reads what stands behind the separating colon of a line.
fn read_rule(
    alloc: Global,
    outputs: &IndexSet<Name>,
    targets: &[&[Sign]],
    colon: &Sign,
    rest: &[Sign],
    found: &mut IndexSet<Name>,
) -> Result<(), DepfileFault>
    requires { All (λ target. 0 < length target.now) targets.now }
    ensures paths { OnOk result (found.new.keys
        ≡ insert_all bytes_eq found.old.keys (map path_of (words rest.now))) }
    ensures sound { OnOk result (rule_fault outputs.now.keys (texts targets.now) colon.now (words rest.now)
        ≡ None) }
    ensures fault { IfErr result (λ fault. (fault ≡ Memory)
        ⊎ (rule_fault outputs.now.keys (texts targets.now) colon.now (words rest.now)
        ≡ Some fault)) }
{
    let prerequisites = part_words(alloc, rest)?;
    if prerequisites.is_empty() {
        return Ok(());
    }
    if !names_output(alloc, outputs, targets)? {
        return Err(DepfileFault::OtherTarget(line_at(targets, colon)));
    }
    add_prerequisites(alloc, found, &prerequisites)
}

// Reads a line.
fn read_line(
    alloc: Global,
    outputs: &IndexSet<Name>,
    line: &[Sign],
    found: &mut IndexSet<Name>,
) -> Result<(), DepfileFault>
    ensures paths { OnOk result (found.new.keys ≡ insert_all bytes_eq found.old.keys (line_paths line.now)) }
    ensures sound { OnOk result (line_fault outputs.now.keys line.now ≡ None) }
    ensures fault { IfErr result (λ fault. (fault ≡ Memory)
        ⊎ (line_fault outputs.now.keys line.now ≡ Some fault)) }
{
    let (before, from) = line.split_at(colon_place(line));
    let targets = part_words(alloc, before)?;
    match from.split_first() {
        Some((colon, rest)) => read_rule(alloc, outputs, &targets, colon, rest, found),
        None => match targets.first() {
            None => Ok(()),
            Some(word) => Err(DepfileFault::NoColon(word_at(word))),
        },
    }
}

// Reads all lines.
fn read_lines(
    alloc: Global,
    outputs: &IndexSet<Name>,
    signs: &[Sign],
) -> Result<IndexSet<Name>, DepfileFault>
    ensures paths { IfOk result (λ found. found.keys
        ≡ insert_all bytes_eq [] (flat_map line_paths (parts is_line_end signs.now))) }
    ensures sound { OnOk result (first_fault_in outputs.now.keys (parts is_line_end signs.now) ≡ None) }
    ensures fault { IfErr result (λ fault. (fault ≡ Memory)
        ⊎ (first_fault_in outputs.now.keys (parts is_line_end signs.now) ≡ Some fault)) }
{
    let mut found = IndexSet::new(alloc);
    let mut rest = signs;
    loop {
        let (line, tail) = rest.split_at(line_len(rest));
        read_line(alloc, outputs, line, &mut found)?;
        match tail.split_first() {
            None => return Ok(found),
            Some((_, after)) => rest = after,
        }
    }
}

// The names of a set, in their order.
fn names_in_order(alloc: Global, set: IndexSet<Name>) -> Result<Vec<Name>, AllocError>
    ensures names { IfOk result (λ names. names.items ≡ set.keys) }
{
    set.into_iter().collect(alloc)
}

/// The prerequisites that a depfile lists for an edge with these outputs: those of all lines, as canonical paths, each
/// where it is mentioned first. The time is linear in the bytes and in the outputs, up to hashing.
///
/// # Errors
/// The first fault of the text, lines in order. [`DepfileFault::NoColon`]: a line has words and no separating colon.
/// [`DepfileFault::OtherTarget`]: a line has prerequisites and no target that is an output.
/// [`DepfileFault::LongPath`]: a prerequisite has more than 4,096 bytes. [`DepfileFault::Memory`] only where an
/// allocation was refused.
pub fn read(alloc: Global, bytes: &[u8], outputs: &[Name]) -> Result<Vec<Name>, DepfileFault>
    ensures value { IfOk result (λ names. names.items ≡ prerequisites bytes.now) }
    ensures sound { OnOk result (first_fault outputs.now bytes.now ≡ None) }
    ensures fault { IfErr result (λ fault. (fault ≡ Memory) ⊎ (first_fault outputs.now bytes.now ≡ Some fault)) }
{
    let signs = text_signs(alloc, bytes)?;
    let outputs = name_set(alloc, outputs)?;
    let found = read_lines(alloc, &outputs, &signs)?;
    Ok(names_in_order(alloc, found)?)
}
