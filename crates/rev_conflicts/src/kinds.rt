//! The kinds of conflicts.
ghost use Rattle.std.specs.Prelude.{◌≡◌, ◌<◌, ◌&&◌, [], length, not, All, IfOk, slice_index_or};
ghost use Rattle.std.specs.List.{filter_map};
ghost use Rattle.rev_graph.specs.Graph.{producer_of, successor_lists};
ghost use Rattle.rev_ranks.specs.Graph.{graph_of};
ghost use Rattle.rev_waits.specs.Waits.{AreWaitedFor, waits};
ghost use Rattle.rev_conflicts.specs.Conflicts.{change_at as change_of, changes_file as changes_file_of, is_by, runs_first as runs_first_of, kind_back as back_of, kind_by as kind_of, kind_of_look as look_kind_of, is_content as is_content_of};
ghost use Rattle.rev_conflicts.specs.Tables.{AreEarly, IsMet, IsNamed, kind_told, scene, with_kind};
ghost use Rattle.rev_conflicts.specs.declared.place.Place.TheVariants.{File, Entries};

use crate::conflict::{Change, Conflict, ConflictKind, Look};
use crate::doing::{changes_file, does, look_at};
use crate::place::Place;
use crate::told::Told;
use rev_graph::Graph;
use rev_observed::{Command, Kind};
use rev_paths::{Name, Paths};
use rev_races::{no_search, search_for};
use std::alloc::{AllocError, Global};

// Whether an edge makes the path of a number.
fn makes(graph: &Graph, paths: &Paths, edge: u32, path: u64) -> bool
    requires { path < length paths.now }
    ensures { result ≡ is_by edge (producer_of graph.now.manifest.builds (slice_index_or paths.now path [])) }
{
    match graph.producer(paths.path(path)) {
        Some(producer) => producer == edge,
        None => false,
    }
}

// What a command does with a file that it touches.
fn change_of_file(graph: &Graph, paths: &Paths, edge: u32, command: &Command, path: u64) -> Change
    requires { path < length paths.now }
    ensures { result ≡ change_of graph.now.manifest.builds paths.now edge command.now (File path) }
{
    if does(command, Kind::Writes, path) {
        if makes(graph, paths, edge, path) {
            Change::Output
        } else if does(command, Kind::Edits, path) {
            Change::Edit
        } else {
            Change::Undeclared
        }
    } else if does(command, Kind::Deletes, path) {
        Change::Delete
    } else {
        Change::Temporary
    }
}

// What a command does at a place that it touches.
fn change_at(graph: &Graph, paths: &Paths, edge: u32, command: &Command, place: Place) -> Change
    requires { IsNamed (length paths.now) place }
    ensures { result ≡ change_of graph.now.manifest.builds paths.now edge command.now place }
{
    match place {
        Place::File(path) => change_of_file(graph, paths, edge, command, path),
        Place::Entries(_) => Change::Entry,
    }
}

// Whether a look tells the content, or that there was none.
fn is_content(look: Look) -> bool
    ensures { result ≡ is_content_of look }
{
    match look {
        Look::Read | Look::Miss => true,
        Look::Stat | Look::List => false,
    }
}

// What holds of the next build, where the maker waits for the user.
fn kind_back(look: Look, change: Change) -> Option<ConflictKind>
    ensures { result ≡ back_of look change }
{
    match change {
        Change::Output => Some(ConflictKind::Cycle { look }),
        Change::Edit | Change::Undeclared | Change::Delete => {
            if is_content(look) {
                Some(ConflictKind::Unstable { look, change })
            } else {
                None
            }
        }
        Change::Temporary | Change::Entry => None,
    }
}

// The kind of a look, where there is one.
fn kind_of_look(back: bool, change: Change, look: Option<Look>) -> Option<ConflictKind>
    ensures { result ≡ look_kind_of back change look }
{
    let look = look?;
    if back {
        kind_back(look, change)
    } else {
        Some(ConflictKind::Race { look, change })
    }
}

// The kind of what is told: whether the maker waits for the user, whether both leave the file, and whether that is told
// of these two in this order, what the maker does, and how the user looks at it.
fn kind_by(
    back: bool,
    both: bool,
    once: bool,
    change: Change,
    look: Option<Look>,
) -> Option<ConflictKind>
    ensures { result ≡ kind_of back both once change look }
{
    if back {
        return kind_of_look(true, change, look);
    }
    if both {
        return if once {
            Some(ConflictKind::Clash)
        } else {
            None
        };
    }
    kind_of_look(false, change, look)
}

// Whether the maker waits for an edge. `waited` has the edges that it waits for.
fn waits_for(graph: &Graph, waited: &[bool], maker: u32, edge: u32) -> bool
    requires edge { edge < length graph.now.manifest.builds }
    requires waited { AreWaitedFor graph.now.manifest.builds maker waited.now }
    ensures { result ≡ waits graph.now.manifest.builds maker edge }
{
    let _edges = graph.edges();
    let _maker = maker;
    waited[edge as usize]
}

// Whether an edge runs before all else.
fn runs_first(graph: &Graph, files: &[Name], early: &[bool], edge: u32) -> bool
    requires edge { edge < length graph.now.manifest.builds }
    requires early { AreEarly graph.now.manifest.builds files.now early.now }
    ensures { result ≡ runs_first_of graph.now.manifest.builds files.now edge }
{
    let _files = files.len();
    let _edges = graph.edges();
    early[edge as usize]
}

// Whether the user leaves the file of a place too, and does not run before all else.
fn leaves_too(
    graph: &Graph,
    files: &[Name],
    early: &[bool],
    user: u32,
    used: &Command,
    place: Place,
) -> bool
    requires user { user < length graph.now.manifest.builds }
    requires early { AreEarly graph.now.manifest.builds files.now early.now }
    ensures { result ≡ (changes_file_of used.now place
        && not (runs_first_of graph.now.manifest.builds files.now user)) }
{
    if !changes_file(used, place) {
        return false;
    }
    !runs_first(graph, files, early, user)
}

// The kind of what is told, where there is one. `waited` has the edges that the maker waits for.
fn kind(
    graph: &Graph,
    files: &[Name],
    paths: &Paths,
    commands: &[Command],
    edges: &[u32],
    hidden: &[bool],
    early: &[bool],
    waited: &[bool],
    told: &Told,
) -> Option<ConflictKind>
    requires early { AreEarly graph.now.manifest.builds files.now early.now }
    requires edges { All (λ e. e < length graph.now.manifest.builds) edges.now }
    requires each { length edges.now ≡ length commands.now }
    requires waited { AreWaitedFor graph.now.manifest.builds told.now.maker waited.now }
    requires met { IsMet graph.now.manifest.builds early.now edges.now paths.now hidden.now commands.now told.now }
    ensures { result ≡ kind_told
        (scene graph.now.manifest.builds files.now paths.now commands.now edges.now hidden.now) told.now }
{
    let _edges = edges.len();
    let _hidden = hidden.len();
    let made = &commands[told.made_by as usize];
    let used = &commands[told.used_by as usize];
    let back = waits_for(graph, waited, told.maker, told.user);
    let both = leaves_too(graph, files, early, told.user, used, told.place);
    let change = change_at(graph, paths, told.maker, made, told.place);
    let look = look_at(used, told.place);
    kind_by(back, both, told.maker < told.user, change, look)
}

/// The conflicts with their kinds, each that has one, in the same order: one search for each maker, where those of a
/// maker stand together.
///
/// # Errors
/// [`AllocError`] only where an allocation was refused.
pub(crate) fn with_kinds(
    alloc: Global,
    graph: &Graph,
    steps: &[Vec<u32>],
    files: &[Name],
    paths: &Paths,
    commands: &[Command],
    edges: &[u32],
    hidden: &[bool],
    early: &[bool],
    told: &[Told],
) -> Result<Vec<Conflict>, AllocError>
    requires early { AreEarly graph.now.manifest.builds files.now early.now }
    requires edges { All (λ e. e < length graph.now.manifest.builds) edges.now }
    requires each { length edges.now ≡ length commands.now }
    requires steps { graph_of steps.now ≡ successor_lists graph.now.manifest.builds }
    requires met { All (IsMet graph.now.manifest.builds early.now edges.now paths.now hidden.now commands.now) told.now }
    ensures { IfOk result (λ conflicts. conflicts.items ≡ filter_map (with_kind
        (scene graph.now.manifest.builds files.now paths.now commands.now edges.now hidden.now)) told.now) }
{
    let mut search = no_search(alloc);
    let mut conflicts = Vec::new(alloc);
    for one in told {
        search_for(alloc, graph, steps, one.maker, &mut search)?;
        let found = kind(
            graph,
            files,
            paths,
            commands,
            edges,
            hidden,
            early,
            &search.waited,
            one,
        );
        if let Some(kind) = found {
            conflicts.push(Conflict {
                kind,
                maker: one.maker,
                user: one.user,
                place: one.place,
                made_by: one.made_by,
                used_by: one.used_by,
            })?;
        }
    }
    Ok(conflicts)
}
