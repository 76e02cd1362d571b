//! The findings about files that commands leave.
ghost use Rattle.std.specs.Prelude.{◌≡◌, ◌<◌, Some, length, map, All, IfOk};
ghost use Rattle.std.specs.List.{AllByRecursion};
ghost use Rattle.rev_observed.specs.Joins.{edge_of};
ghost use Rattle.rev_observed.specs.Observations.{outputs_of};
ghost use Rattle.rev_conflicts.specs.Tables.{AreEarly, scene};
ghost use Rattle.rev_undeclared.specs.Answer.{AreUndeclared};
ghost use Rattle.rev_undeclared.specs.Tables.{AreFound};

use crate::found::Found;
use crate::kind::Undeclared;
use crate::left::left_lists;
use crate::looks::{add_anothers, add_looks};
use crate::telling::{Stronger, told_by};
use rev_conflicts::{Conflict, early_edges, with_nexts};
use rev_graph::Graph;
use rev_manifest::Build;
use rev_observed::{Command, Observation};
use rev_paths::{Name, Paths};
use std::alloc::{AllocError, Global};

// The findings about files that commands leave, without those of a user and a file that `stronger` has.
fn found_in(
    alloc: Global,
    graph: &Graph,
    files: &[Name],
    builds: &[Build],
    paths: &Paths,
    commands: &[Command],
    edges: &[u32],
    hidden: &[bool],
    early: &[bool],
    stronger: &Stronger,
) -> Result<Vec<Undeclared>, AllocError>
    requires edges { All (λ e. e < length graph.now.manifest.builds) edges.now }
    requires each { length edges.now ≡ length commands.now }
    requires hidden { length hidden.now ≡ length paths.now }
    requires early { AreEarly graph.now.manifest.builds files.now early.now }
    ensures { IfOk result (λ told. AreFound (scene graph.now.manifest.builds files.now paths.now commands.now edges.now
        hidden.now) builds.now stronger.now told.items) }
{
    let _files = files.len();
    let _edges = graph.edges();
    let lists = left_lists(alloc, builds, paths, hidden, early, commands, edges)?;
    let left = with_nexts(alloc, lists)?;
    let mut found = Found::new(alloc);
    add_anothers(graph, paths, edges, stronger, &left.lists, &mut found)?;
    for (number, command) in commands.iter().enumerate() {
        add_looks(
            graph,
            paths,
            edges,
            stronger,
            edges[number],
            number as u64,
            command,
            &left,
            &mut found,
        )?;
    }
    found.into_told(alloc)
}

/// The findings about files that commands leave though no output of theirs declares them. Each finding stands once, in
/// the order of the numbers of the maker's edge, of the user's edge, of the path, and of the commands.
///
/// `files` are those from which the manifest was read. An edge that makes one of them runs before all else, so it is
/// the maker of no finding. `builds` are the edges of the graph as the manifest has them: a command leaves its depfile
/// and its response file, and neither of these needs to be declared. `edges` has the edge of each command of the
/// observation, as [`rev_observed::edges`] gives them. `hidden` has a mark for each path about which there is to be no
/// finding. `conflicts` is the answer of [`rev_conflicts::conflicts`]: where a conflict is about a user and a file, the
/// answer has nothing about that user and that file.
///
/// The call notes first who leaves which file. Then it goes, for each command, through the files that some command
/// leaves and at which this one looks. It takes time linear in the observation and in the answer, up to logarithms and
/// to the number of commands that leave one file.
///
/// # Errors
/// [`AllocError`] only where an allocation was refused.
pub fn undeclared_files(
    alloc: Global,
    graph: &Graph,
    files: &[Name],
    builds: &[Build],
    observation: &Observation,
    edges: &[u32],
    hidden: &[bool],
    conflicts: &[Conflict],
) -> Result<Vec<Undeclared>, AllocError>
    requires edges { map Some edges.now ≡ map (edge_of graph.now.manifest.builds) (outputs_of observation.now.commands) }
    requires within { AllByRecursion (λ edge. edge < length graph.now.manifest.builds) edges.now }
    requires hidden { length hidden.now ≡ length observation.now.paths }
    ensures { IfOk result (λ undeclared. AreUndeclared (scene graph.now.manifest.builds files.now observation.now.paths
        observation.now.commands edges.now hidden.now) builds.now conflicts.now undeclared.items) }
{
    let stronger = told_by(alloc, conflicts)?;
    let paths = observation.paths();
    let commands = observation.commands();
    let early = early_edges(alloc, graph, files)?;
    found_in(
        alloc, graph, files, builds, paths, commands, edges, hidden, &early, &stronger,
    )
}
