//! What a command is said to have read.
ghost use Rattle.std.specs.Prelude.{◌≡◌, ◌<◌, None, Some, bytes_eq, length, IfOk, IsErrOf, OnOk};
ghost use Rattle.rev_graph.specs.Graph.{build_at};
ghost use Rattle.rev_events.specs.declared.refusal.Refusal.{Refusal};
ghost use Rattle.rev_events.specs.Edge.{listed as listed_by};
ghost use Rattle.rev_events.specs.Refusal.{bad_depfile};
ghost use Rattle.rev_paths.specs.Mentions.{first_mentions};
ghost use Rattle.indexmap.specs.IndexSet.{insert_all};

use crate::edge::all_outputs;
use crate::event::Listing;
use crate::fault::Fault;
use crate::listed_paths::ListedPaths;
use crate::refusal::Refusal;
use indexmap::IndexSet;
use rev_cells::Names;
use rev_depfile::{DepfileFault, read};
use rev_graph::Graph;
use rev_paths::Name;
use std::alloc::{AllocError, Global};

// Adds names to a set, each where it is mentioned first.
fn add_names(set: &mut IndexSet<Name>, paths: &[Name]) -> Result<(), AllocError>
    ensures { OnOk result (set.new.keys ≡ insert_all bytes_eq set.old.keys paths.now) }
{
    for path in paths {
        set.insert(path.copy()?)?;
    }
    Ok(())
}

// The names of a set, in their order.
fn names_in_order(alloc: Global, set: IndexSet<Name>) -> Result<Vec<Name>, AllocError>
    ensures { IfOk result (λ names. names.items ≡ set.keys) }
{
    set.into_iter().collect(alloc)
}

// The paths, each where it is mentioned first. A list without a repeated path is shared. Where that is known of it, no
// path is looked up.
fn mentioned(alloc: Global, paths: &ListedPaths) -> Result<Names, AllocError>
    ensures { IfOk result (λ names. names ≡ first_mentions paths.now) }
{
    if paths.are_distinct() {
        return Ok(paths.names().copy()?);
    }
    let listed = paths.as_slice();
    let mut set = IndexSet::new(alloc);
    add_names(&mut set, listed)?;
    if set.len() == listed.len() {
        return Ok(paths.names().copy()?);
    }
    let names = names_in_order(alloc, set)?;
    Ok(Names::new(names)?)
}

/// The paths that an edge's command read, by what is said of them. A depfile is read once.
///
/// # Errors
/// [`Fault::Refused`] with the first fault of the depfile, [`Fault::Memory`].
pub(crate) fn listed(
    alloc: Global,
    graph: &Graph,
    edge: u32,
    listing: &Listing,
) -> Result<Names, Fault>
    requires { edge < length graph.now.manifest.builds }
    ensures paths { IfOk result (λ paths. paths ≡ listed_by listing.now) }
    ensures accepted { OnOk result (bad_depfile (build_at graph.now.manifest.builds edge) listing.now ≡ None) }
    ensures refused { (r : Refusal) → IsErrOf result (Fault.Refused r)
        → bad_depfile (build_at graph.now.manifest.builds edge) listing.now ≡ Some r }
{
    match listing {
        Listing::Nothing => Ok(Names::new(Vec::new(alloc))?),
        Listing::Depfile(text) => {
            let outputs = all_outputs(alloc, graph, edge)?;
            match read(alloc, text.as_slice(), &outputs) {
                Ok(paths) => Ok(Names::new(paths)?),
                Err(DepfileFault::Memory) => Err(Fault::Memory),
                Err(DepfileFault::NoColon(at)) => Err(Fault::Refused(Refusal::Depfile(30, at))),
                Err(DepfileFault::OtherTarget(at)) => Err(Fault::Refused(Refusal::Depfile(31, at))),
                Err(DepfileFault::LongPath(at)) => Err(Fault::Refused(Refusal::Depfile(32, at))),
            }
        }
        Listing::Paths(paths) => Ok(mentioned(alloc, paths)?),
    }
}
