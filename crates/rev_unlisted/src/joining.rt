//! What edges list, with the names of one file joined.
ghost use Rattle.std.specs.Prelude.{◌≡◌, ◌<◌, ◌++◌, length, map, IfOk, OnOk};
ghost use Rattle.std.specs.List.{range_with_len};
ghost use Rattle.rev_graph.specs.Graph.{build_at};
ghost use Rattle.rev_places.specs.Names.{own_names_in};
ghost use Rattle.rev_unlisted.specs.Found.{names_of};
ghost use Rattle.rev_unlisted.specs.Joined.{chosen_at, chosen_of, extended_in, extended_of};

use indexmap::IndexMap;
use rev_graph::Graph;
use rev_paths::Name;
use rev_places::push_own_names;
use std::alloc::{AllocError, Global};

// The own names of the files that count for an edge by another name.
fn own_names(
    alloc: Global,
    graph: &Graph,
    names: &IndexMap<Name, Name>,
    list: &[Name],
    edge: u32,
) -> Result<Vec<Name>, AllocError>
    requires { edge < length graph.now.manifest.builds }
    ensures { IfOk result (λ found. found.items
        ≡ own_names_in names.now.entries ((build_at graph.now.manifest.builds edge).explicit
        ++ (build_at graph.now.manifest.builds edge).implicit ++ list.now)) }
{
    let inputs = graph.inputs(edge);
    let mut found = Vec::new(alloc);
    push_own_names(names, inputs.explicit, &mut found)?;
    push_own_names(names, inputs.implicit, &mut found)?;
    push_own_names(names, list, &mut found)?;
    Ok(found)
}

// Adds names.
fn push_all(names: &[Name], all: &mut Vec<Name>) -> Result<(), AllocError>
    ensures { OnOk result (all.new.items ≡ all.old.items ++ names.now) }
{
    for name in names {
        all.push(name.copy()?)?;
    }
    Ok(())
}

// A list with more names behind it; empty where there are none.
fn extended(alloc: Global, list: &[Name], more: &[Name]) -> Result<Vec<Name>, AllocError>
    ensures { IfOk result (λ all. all.items ≡ extended_of list.now more.now) }
{
    let mut all = Vec::new(alloc);
    if more.is_empty() {
        return Ok(all);
    }
    push_all(list, &mut all)?;
    push_all(more, &mut all)?;
    Ok(all)
}

// What an edge lists with the own names of files behind it; empty where none of them is counted by another name.
fn extended_list(
    alloc: Global,
    graph: &Graph,
    names: &IndexMap<Name, Name>,
    list: &[Name],
    edge: u32,
) -> Result<Vec<Name>, AllocError>
    requires { edge < length graph.now.manifest.builds }
    ensures { IfOk result (λ all. all.items ≡ extended_of list.now
        (own_names_in names.now.entries ((build_at graph.now.manifest.builds edge).explicit
        ++ (build_at graph.now.manifest.builds edge).implicit ++ list.now))) }
{
    let more = own_names(alloc, graph, names, list, edge)?;
    extended(alloc, list, &more)
}

/// For each edge what it lists with the own names of the files behind it that count for the edge by another name; empty
/// where none does. `lists` has for each edge what it lists.
///
/// # Errors
/// [`AllocError`] only where an allocation was refused.
pub(crate) fn extended_lists(
    alloc: Global,
    graph: &Graph,
    names: &IndexMap<Name, Name>,
    lists: &[&[Name]],
) -> Result<Vec<Vec<Name>>, AllocError>
    requires { length lists.now ≡ length graph.now.manifest.builds }
    ensures { IfOk result (λ all. map (λ each. each.items) all.items
        ≡ extended_in graph.now.manifest.builds (names_of lists.now) names.now.entries) }
{
    let mut all = Vec::new(alloc);
    for edge in 0..graph.edges() {
        all.push(extended_list(alloc, graph, names, lists[edge as usize], edge)?)?;
    }
    Ok(all)
}

// A list, or what it was extended to.
fn chosen<'a>(list: &'a [Name], extended: &'a [Name]) -> &'a [Name]
    ensures { result.now ≡ chosen_of list.now extended.now }
{
    if extended.is_empty() { list } else { extended }
}

/// For each edge what it lists, or what its list was extended to.
///
/// # Errors
/// [`AllocError`] only where an allocation was refused.
pub(crate) fn joined_lists<'a>(
    alloc: Global,
    lists: &[&'a [Name]],
    extended: &'a [Vec<Name>],
) -> Result<Vec<&'a [Name]>, AllocError>
    requires { length extended.now ≡ length lists.now }
    ensures { IfOk result (λ all. names_of all.items
        ≡ map (chosen_at (names_of lists.now) (map (λ each. each.items) extended.now))
        (range_with_len 0 (length lists.now))) }
{
    let mut all = Vec::new(alloc);
    for edge in 0..lists.len() {
        all.push(chosen(lists[edge], extended[edge].as_slice()))?;
    }
    Ok(all)
}
