//! The findings about one file: of the edge that has it as an output, or of the commands that look at it.
ghost use Rattle.std.specs.Prelude.{◌≡◌, ◌<◌, ◌≤◌, ◌↔◌, ◌⊎◌, ℕ, List, None, true, length, slice_index_or, All, Contains, IfSome, OnOk};
ghost use Rattle.rev_graph.specs.Graph.{producer_of};
ghost use Rattle.rev_ranks.specs.Graph.{graph_of};
ghost use Rattle.rev_observed.specs.CommandValues.{CommandValue};
ghost use Rattle.rev_conflicts.specs.Ranges.{has_path, is_in};
ghost use Rattle.rev_conflicts.specs.Tables.{AreNexts};
ghost use Rattle.rev_undeclared.specs.Tables.{Adds, IsAnothersAt, IsAnothersWhere, IsKeyBy, IsLookAt, IsLookWhere};
ghost use Rattle.rev_undeclared.specs.Undeclared.{IsOutputOf, path_at};

use crate::found::Found;
use crate::kind::{Undeclared, UndeclaredKind};
use crate::telling::Stronger;
use rev_conflicts::{Place, Table, look_at};
use rev_graph::Graph;
use rev_observed::{Command, Kind, PathRange};
use rev_paths::{Name, Paths};
use std::alloc::AllocError;

// Adds the findings about a user, a file and each of these commands, which leave it.
fn add_makers(
    edges: &[u32],
    user: u32,
    path: u64,
    kind: UndeclaredKind,
    commands: &[u64],
    found: &mut Found,
) -> Result<(), AllocError>
    requires { All (λ c. c < length edges.now) commands.now }
    ensures { OnOk result ((k : List ℕ) → Contains found.new k
        ↔ (Contains found.old k ⊎ IsKeyBy edges.now user path kind commands.now k)) }
{
    for command in commands {
        let maker = edges[*command as usize];
        if maker != user {
            found.add(&Undeclared {
                kind,
                maker,
                user,
                path,
                made_by: *command,
            })?;
        }
    }
    Ok(())
}

// The edge with a command that has a path as an output.
fn owner(graph: &Graph, path: &Name) -> Option<u32>
    ensures { (owner : ℕ) → (result ≡ Some owner) ↔ IsOutputOf graph.now.manifest.builds path.now owner }
{
    let producer = graph.producer(path)?;
    if graph.is_phony(producer) {
        return None;
    }
    Some(producer)
}

// Adds the findings about a file that is an edge's output.
fn add_anothers_at(
    graph: &Graph,
    paths: &Paths,
    edges: &[u32],
    stronger: &Stronger,
    path: u64,
    commands: &[u64],
    found: &mut Found,
) -> Result<(), AllocError>
    requires path { path < length paths.now }
    requires commands { All (λ c. c < length edges.now) commands.now }
    ensures { OnOk result ((k : List ℕ) → Contains found.new k ↔ (Contains found.old k
        ⊎ IsAnothersAt graph.now.manifest.builds paths.now edges.now stronger.now path commands.now k)) }
{
    if let Some(owner) = owner(graph, paths.path(path)) {
        if !stronger.has(owner, path) {
            add_makers(
                edges,
                owner,
                path,
                UndeclaredKind::Anothers,
                commands,
                found,
            )?;
        }
    }
    Ok(())
}

/// Adds the findings about files that are outputs of edges. `lists` has the commands that leave the file of each path.
///
/// # Errors
/// [`AllocError`] only where an allocation was refused.
pub(crate) fn add_anothers(
    graph: &Graph,
    paths: &Paths,
    edges: &[u32],
    stronger: &Stronger,
    lists: &[Vec<u64>],
    found: &mut Found,
) -> Result<(), AllocError>
    requires each { length lists.now ≡ length paths.now }
    requires within { All (λ v. All (λ c. c < length edges.now) v.items) lists.now }
    ensures { OnOk result ((k : List ℕ) → Contains found.new k ↔ (Contains found.old k
        ⊎ IsAnothersWhere graph.now.manifest.builds paths.now edges.now stronger.now (graph_of lists.now)
        (length paths.now) k)) }
{
    for path in 0..paths.len() {
        let commands = lists[path as usize].as_slice();
        add_anothers_at(graph, paths, edges, stronger, path, commands, found)?;
    }
    Ok(())
}

// Adds the findings about a file at which a user's command looks, and about these commands, which leave it.
fn add_look(
    graph: &Graph,
    paths: &Paths,
    edges: &[u32],
    stronger: &Stronger,
    user: u32,
    used_by: u64,
    used: &Command,
    path: u64,
    commands: &[u64],
    found: &mut Found,
) -> Result<(), AllocError>
    requires path { path < length paths.now }
    requires commands { All (λ c. c < length edges.now) commands.now }
    ensures { OnOk result ((k : List ℕ) → Contains found.new k ↔ (Contains found.old k
        ⊎ IsLookAt graph.now.manifest.builds paths.now edges.now stronger.now user used_by used.now path
        commands.now k)) }
{
    if graph.producer(paths.path(path)).is_some() {
        return Ok(());
    }
    if stronger.has(user, path) {
        return Ok(());
    }
    if let Some(look) = look_at(used, Place::File(path)) {
        let kind = UndeclaredKind::LookedAt { look, used_by };
        add_makers(edges, user, path, kind, commands, found)?;
    }
    Ok(())
}

// Adds the findings about the files of a range.
fn add_range(
    graph: &Graph,
    paths: &Paths,
    edges: &[u32],
    stronger: &Stronger,
    user: u32,
    used_by: u64,
    used: &Command,
    left: &Table,
    range: &PathRange,
    found: &mut Found,
) -> Result<(), AllocError>
    requires each { length left.now.lists.items ≡ length paths.now }
    requires within { All (λ v. All (λ c. c < length edges.now) v.items) left.now.lists.items }
    requires nexts { AreNexts (graph_of left.now.lists.items) left.now.nexts.items }
    ensures { OnOk result (Adds found.old found.new
        (IsLookWhere graph.now.manifest.builds paths.now edges.now stronger.now (graph_of left.now.lists.items) user
        used_by used.now (λ path. path < length paths.now))
        (IsLookWhere graph.now.manifest.builds paths.now edges.now stronger.now (graph_of left.now.lists.items) user
        used_by used.now (λ path. is_in path range.now ≡ true))) }
{
    let count = paths.len();
    if u64::from(range.first) >= count {
        return Ok(());
    }
    let mut path = left.nexts[range.first as usize];
    while path < count && path <= u64::from(range.last) {
        let commands = left.lists[path as usize].as_slice();
        add_look(
            graph, paths, edges, stronger, user, used_by, used, path, commands, found,
        )?;
        path = left.nexts[path as usize + 1];
    }
    Ok(())
}

// Adds the findings about the files of ranges.
fn add_ranges(
    graph: &Graph,
    paths: &Paths,
    edges: &[u32],
    stronger: &Stronger,
    user: u32,
    used_by: u64,
    used: &Command,
    left: &Table,
    ranges: &[PathRange],
    found: &mut Found,
) -> Result<(), AllocError>
    requires each { length left.now.lists.items ≡ length paths.now }
    requires within { All (λ v. All (λ c. c < length edges.now) v.items) left.now.lists.items }
    requires nexts { AreNexts (graph_of left.now.lists.items) left.now.nexts.items }
    ensures { OnOk result (Adds found.old found.new
        (IsLookWhere graph.now.manifest.builds paths.now edges.now stronger.now (graph_of left.now.lists.items) user
        used_by used.now (λ path. path < length paths.now))
        (IsLookWhere graph.now.manifest.builds paths.now edges.now stronger.now (graph_of left.now.lists.items) user
        used_by used.now (λ path. has_path ranges.now path ≡ true))) }
{
    for range in ranges {
        add_range(
            graph, paths, edges, stronger, user, used_by, used, left, range, found,
        )?;
    }
    Ok(())
}

/// Adds the findings about the files at which a user's command looks, and which no edge has as an output. `left` has
/// for each path the commands that leave its file.
///
/// # Errors
/// [`AllocError`] only where an allocation was refused.
pub(crate) fn add_looks(
    graph: &Graph,
    paths: &Paths,
    edges: &[u32],
    stronger: &Stronger,
    user: u32,
    used_by: u64,
    used: &Command,
    left: &Table,
    found: &mut Found,
) -> Result<(), AllocError>
    requires each { length left.now.lists.items ≡ length paths.now }
    requires within { All (λ v. All (λ c. c < length edges.now) v.items) left.now.lists.items }
    requires nexts { AreNexts (graph_of left.now.lists.items) left.now.nexts.items }
    ensures { OnOk result (Adds found.old found.new
        (IsLookWhere graph.now.manifest.builds paths.now edges.now stronger.now (graph_of left.now.lists.items) user
        used_by used.now (λ path. path < length paths.now))
        (IsLookWhere graph.now.manifest.builds paths.now edges.now stronger.now (graph_of left.now.lists.items) user
        used_by used.now (λ path. path < length paths.now))) }
{
    add_ranges(
        graph,
        paths,
        edges,
        stronger,
        user,
        used_by,
        used,
        left,
        used.paths(Kind::Reads),
        found,
    )?;
    add_ranges(
        graph,
        paths,
        edges,
        stronger,
        user,
        used_by,
        used,
        left,
        used.paths(Kind::Misses),
        found,
    )?;
    add_ranges(
        graph,
        paths,
        edges,
        stronger,
        user,
        used_by,
        used,
        left,
        used.paths(Kind::Stats),
        found,
    )?;
    Ok(())
}
