//! The paths of a statement.
ghost use Rattle.std.specs.Prelude.{◌≡◌, ◌<◌, ◌++◌, ◌||◌, not, filter, length, List, ℕ, Ok, MatchResult, IfOk, IfSome, OnOk};
ghost use Rattle.rev_paths.specs.Mentions.{first_mentions};
ghost use Rattle.rev_scopes.specs.Scopes.{variable_in};
ghost use Rattle.rev_scopes.specs.Expansion.{expanded, in_block};
ghost use Rattle.rev_manifest.specs.Answers.{IsFault};
ghost use Rattle.rev_manifest.specs.Names.{name_of, names_of, without, has_path};

use crate::fault::{FaultKind, Place, ReadFault};
use indexmap::IndexSet;
use rev_paths::{Name, PathFault, Paths};
use rev_scopes::{Bindings, Scopes, ValueFault, expand_in_block};
use rev_syntax::{Piece, Text};
use std::alloc::{AllocError, Global};

/// The canonical name of a path, or its fault.
pub(crate) fn name_of(alloc: Global, place: Place, path: &[u8]) -> Result<Name, ReadFault>
    ensures { MatchResult result
        (λ name. name_of place path.now ≡ Ok name)
        (λ fault. IsFault fault (name_of place path.now)) }
{
    match Name::new(alloc, path) {
        Ok(name) => Ok(name),
        Err(PathFault::Memory) => Err(ReadFault::Memory),
        Err(PathFault::EmptyPath) => Err(place.fault(FaultKind::EmptyPath)),
        Err(PathFault::LongPath) => Err(place.fault(FaultKind::LongPath)),
    }
}

/// Each name once, at its first place.
pub(crate) fn first_mentions(alloc: Global, names: Vec<Name>) -> Result<Vec<Name>, AllocError>
    ensures { IfOk result (λ once. once.items ≡ first_mentions names.items) }
{
    if names.len() < 2 {
        return Ok(names);
    }
    let mut seen = IndexSet::new(alloc);
    let mut once = Vec::new(alloc);
    for name in &names {
        if seen.insert(name.copy()?)? {
            once.push(name.copy()?)?;
        }
    }
    Ok(once)
}

/// Adds names to a set.
pub(crate) fn add_names(set: &mut IndexSet<Name>, names: &[Name]) -> Result<(), AllocError>
    ensures { OnOk result ((path : List ℕ)
        → has_path set.new.keys path ≡ (has_path set.old.keys path || has_path names.now path)) }
{
    for name in names {
        set.insert(name.copy()?)?;
    }
    Ok(())
}

/// Adds the names that are not in a set.
pub(crate) fn push_others(
    others: &mut Vec<Name>,
    set: &IndexSet<Name>,
    names: &[Name],
) -> Result<(), AllocError>
    ensures { OnOk result (others.new.items
        ≡ others.old.items ++ filter (λ path. not (has_path set.now.keys path)) names.now) }
{
    for name in names {
        if !set.contains(name) {
            others.push(name.copy()?)?;
        }
    }
    Ok(())
}

// The bytes of a text that stands for itself, as most paths do.
fn literal<'a>(text: &Text<'a>) -> Option<&'a [u8]>
    ensures { IfSome result (λ bytes. (look_up : List ℕ → List ℕ) → expanded look_up text.now ≡ bytes.now) }
{
    let (piece, rest) = text.first_piece()?;
    if !rest.is_empty() {
        return None;
    }
    match piece {
        Piece::Literal(bytes) => Some(bytes),
        Piece::Variable(_) => None,
    }
}

// The canonical name of a text, or its fault. Variables are looked up in a block and then in a scope.
fn path_of(
    alloc: Global,
    place: Place,
    text: &Text<'_>,
    block: &Bindings,
    scopes: &Scopes,
    scope: usize,
) -> Result<Name, ReadFault>
    requires { scope < length scopes.now }
    ensures { MatchResult result
        (λ name. name_of place (expanded (in_block block.now (variable_in scopes.now scope)) text.now) ≡ Ok name)
        (λ fault. IsFault fault (name_of place (expanded (in_block block.now (variable_in scopes.now scope)) text.now))) }
{
    if let Some(path) = literal(text) {
        return name_of(alloc, place, path);
    }
    match expand_in_block(alloc, text.copy(), block, scopes, scope) {
        Ok(path) => name_of(alloc, place, &path),
        Err(ValueFault::Memory) => Err(ReadFault::Memory),
        Err(ValueFault::TooLarge) => Err(place.fault(FaultKind::LongPath)),
        Err(ValueFault::NeedsItself) => unreachable!(),
    }
}

/// The canonical names of texts, or the fault of the leftmost path that has one. Variables are looked up in a block and
/// then in a scope. Equal names share the bytes of the first of them.
pub(crate) fn names_of(
    alloc: Global,
    paths: &mut Paths,
    place: Place,
    texts: &[Text<'_>],
    block: &Bindings,
    scopes: &Scopes,
    scope: usize,
) -> Result<Vec<Name>, ReadFault>
    requires { scope < length scopes.now }
    ensures { MatchResult result
        (λ names. names_of place (in_block block.now (variable_in scopes.now scope)) texts.now ≡ Ok names.items)
        (λ fault. IsFault fault (names_of place (in_block block.now (variable_in scopes.now scope)) texts.now)) }
{
    let mut names = Vec::with_capacity(alloc, texts.len())?;
    for text in texts {
        let name = path_of(alloc, place, text, block, scopes, scope)?;
        names.push(paths.share(name)?)?;
    }
    Ok(names)
}

/// The canonical name of a text, whose variables are looked up in a scope, or its fault.
pub(crate) fn name_in_scope(
    alloc: Global,
    place: Place,
    text: &Text<'_>,
    scopes: &Scopes,
    scope: usize,
) -> Result<Name, ReadFault>
    requires { scope < length scopes.now }
    ensures { MatchResult result
        (λ name. name_of place (expanded (variable_in scopes.now scope) text.now) ≡ Ok name)
        (λ fault. IsFault fault (name_of place (expanded (variable_in scopes.now scope) text.now))) }
{
    let name = path_of(alloc, place, text, &Bindings::new(alloc), scopes, scope)?;
    Ok(name)
}

/// The canonical names of texts, whose variables are looked up in a scope, or the fault of the leftmost path that has
/// one.
pub(crate) fn names_in_scope(
    alloc: Global,
    paths: &mut Paths,
    place: Place,
    texts: &[Text<'_>],
    scopes: &Scopes,
    scope: usize,
) -> Result<Vec<Name>, ReadFault>
    requires { scope < length scopes.now }
    ensures { MatchResult result
        (λ names. names_of place (variable_in scopes.now scope) texts.now ≡ Ok names.items)
        (λ fault. IsFault fault (names_of place (variable_in scopes.now scope) texts.now)) }
{
    let names = names_of(
        alloc,
        paths,
        place,
        texts,
        &Bindings::new(alloc),
        scopes,
        scope,
    )?;
    Ok(names)
}

/// The names that are not among others.
pub(crate) fn without(
    alloc: Global,
    others: &[Name],
    names: Vec<Name>,
) -> Result<Vec<Name>, AllocError>
    ensures { IfOk result (λ left. left.items ≡ without others.now names.items) }
{
    if names.is_empty() {
        return Ok(names);
    }
    let mut set = IndexSet::new(alloc);
    add_names(&mut set, others)?;
    let mut left = Vec::new(alloc);
    push_others(&mut left, &set, &names)?;
    Ok(left)
}
