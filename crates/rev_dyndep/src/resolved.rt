//! Whether a manifest is another one with what dyndep files say.
ghost use Rattle.std.specs.Prelude.{◌≡◌, ◌++◌, ◌∷◌, ◌&&◌, List, bytes_eq, is_none, IfOk, OnOk};
ghost use Rattle.rev_manifest.specs.Builds.{BuildValue};
ghost use Rattle.std.specs.List.{list_any};
ghost use Rattle.rev_dyndep.specs.Resolved.{are_resolved, is_resolved, same_edge, same_flags, same_line, same_place, same_pool, same_texts, speaks_of, with_told};

use crate::told::Told;
use rev_manifest::{Build, Manifest};
use rev_paths::Name;
use std::alloc::{AllocError, Global};

// Whether a path is among others.
fn has_path(paths: &[Name], path: &Name) -> bool
    ensures { result ≡ list_any (bytes_eq path.now) paths.now }
{
    for other in paths {
        if path == other {
            return true;
        }
    }
    false
}

/// Whether a statement speaks of an edge: it begins with an output of the edge.
pub(crate) fn speaks_of(told: &Told, build: &Build) -> bool
    ensures { result ≡ speaks_of told.now build.now }
{
    has_path(build.explicit_outs(), told.output()) || has_path(build.implicit_outs(), told.output())
}

// Adds paths behind others.
fn push_all(names: &mut Vec<Name>, more: &[Name]) -> Result<(), AllocError>
    ensures { OnOk result (names.new.items ≡ names.old.items ++ more.now) }
{
    for name in more {
        names.push(name.copy()?)?;
    }
    Ok(())
}

// Paths and others behind them.
fn joined(alloc: Global, first: &[Name], more: &[Name]) -> Result<Vec<Name>, AllocError>
    ensures { IfOk result (λ names. names.items ≡ first.now ++ more.now) }
{
    let mut names = Vec::new(alloc);
    push_all(&mut names, first)?;
    push_all(&mut names, more)?;
    Ok(names)
}

// The same build line.
fn same_line(one: &Build, other: &Build) -> bool
    ensures { result ≡ same_line one.now other.now }
{
    one.explicit_outs() == other.explicit_outs()
        && one.implicit_outs() == other.implicit_outs()
        && one.explicit() == other.explicit()
        && one.implicit() == other.implicit()
        && one.order_only() == other.order_only()
        && one.validations() == other.validations()
}

// The same command, depfile and response file.
fn same_texts(one: &Build, other: &Build) -> bool
    ensures { result ≡ same_texts one.now other.now }
{
    one.command() == other.command()
        && one.depfile() == other.depfile()
        && one.rspfile() == other.rspfile()
}

// The same pool.
fn same_pool(one: Option<u32>, other: Option<u32>) -> bool
    ensures { result ≡ same_pool one other }
{
    match (one, other) {
        (None, None) => true,
        (Some(one), Some(other)) => one == other,
        _ => false,
    }
}

// The same place and pool.
fn same_place(one: &Build, other: &Build) -> bool
    ensures { result ≡ same_place one.now other.now }
{
    one.file() == other.file() && one.line() == other.line() && same_pool(one.pool(), other.pool())
}

// The same flags.
fn same_flags(one: &Build, restat: bool, other: &Build) -> bool
    ensures { result ≡ same_flags (record one.now { restat = restat }) other.now }
{
    one.phony() == other.phony()
        && one.keeps_deps() == other.keeps_deps()
        && restat == other.restat()
        && one.generator() == other.generator()
}

// The same edge.
fn same_edge(one: &Build, other: &Build) -> bool
    ensures { result ≡ same_edge one.now other.now }
{
    same_line(one, other)
        && same_texts(one, other)
        && same_flags(one, one.restat(), other)
        && same_place(one, other)
}

// The build line of an edge with what a statement says of it.
fn is_told_line(
    alloc: Global,
    told: &Told,
    plain: &Build,
    found: &Build,
) -> Result<bool, AllocError>
    ensures { IfOk result (λ it. it ≡ same_line (with_told told.now plain.now) found.now) }
{
    let outputs = joined(alloc, plain.implicit_outs(), told.outputs())?;
    let inputs = joined(alloc, plain.implicit(), told.inputs())?;
    Ok(
        plain.explicit_outs() == found.explicit_outs()
            && outputs.as_slice() == found.implicit_outs()
            && plain.explicit() == found.explicit()
            && inputs.as_slice() == found.implicit()
            && plain.order_only() == found.order_only()
            && plain.validations() == found.validations(),
    )
}

// Whether an edge is another one with what a statement says of it.
fn is_told_edge(
    alloc: Global,
    told: &Told,
    plain: &Build,
    found: &Build,
) -> Result<bool, AllocError>
    ensures { IfOk result (λ it. it ≡ same_edge (with_told told.now plain.now) found.now) }
{
    Ok(
        is_told_line(alloc, told, plain, found)?
            && same_texts(plain, found)
            && same_flags(plain, plain.restat() || told.restat(), found)
            && same_place(plain, found),
    )
}

// Whether an edge is the next that is meant, and the statements that are left behind it.
fn step<'a>(
    alloc: Global,
    told: &'a [Told],
    plain: &Build,
    found: &Build,
) -> Result<(bool, &'a [Told]), AllocError>
    ensures { IfOk result (λ it. (edges others : List BuildValue) → are_resolved told.now (plain.now ∷ edges) (found.now ∷ others)
        ≡ (it.0 && are_resolved it.1.now edges others)) }
{
    if let Some((first, more)) = told.split_first() {
        if speaks_of(first, plain) {
            return Ok((is_told_edge(alloc, first, plain, found)?, more));
        }
    }
    Ok((same_edge(plain, found), told))
}

/// The place of the first edge that is not the one of its place among others with what a statement says of it; none
/// where each edge is, and each statement speaks of one. It is the number of edges where edges or statements are left
/// over. The statements stand in the order of the edges that they speak of.
///
/// # Errors
/// [`AllocError`] only where an allocation was refused.
pub fn first_other(
    alloc: Global,
    told: &[Told],
    plain: &[Build],
    found: &[Build],
) -> Result<Option<usize>, AllocError>
    ensures { IfOk result (λ other. is_none other ≡ are_resolved told.now plain.now found.now) }
{
    let mut statements = told;
    let mut edges = plain;
    let mut others = found;
    while let Some((edge, more)) = edges.split_first() {
        let place = plain.len().saturating_sub(edges.len());
        let Some((other, left)) = others.split_first() else {
            return Ok(Some(place));
        };
        let (is_same, behind) = step(alloc, statements, edge, other)?;
        if !is_same {
            return Ok(Some(place));
        }
        statements = behind;
        edges = more;
        others = left;
    }
    if statements.is_empty() && others.is_empty() {
        return Ok(None);
    }
    Ok(Some(plain.len()))
}

/// Whether a manifest is another one with what dyndep files say. Each edge that a statement speaks of has the
/// statement's paths last and its `restat`. Every other edge is as it was, and so are the defaults. The statements
/// stand in the order of the edges that they speak of, and each of them speaks of one.
///
/// # Errors
/// [`AllocError`] only where an allocation was refused.
pub fn is_resolved(
    alloc: Global,
    plain: &Manifest,
    told: &[Told],
    found: &Manifest,
) -> Result<bool, AllocError>
    ensures { IfOk result (λ it. it ≡ is_resolved plain.now told.now found.now) }
{
    Ok(
        plain.defaults() == found.defaults()
            && first_other(alloc, told, plain.builds(), found.builds())?.is_none(),
    )
}
