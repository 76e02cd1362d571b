//! Patches that put the maker of a path after its user.
ghost use Rattle.std.specs.Prelude.{◌≡◌, ◌⊎◌, ◌<◌, ◌↔◌, Contains, length, IfOk, IfSome, IsTrue};
ghost use Rattle.std.specs.Option.{option_copied};
ghost use Rattle.rev_manifest.specs.Seen.{seen_files};
ghost use Rattle.rev_graph.specs.Fault.{IsFaultless};
ghost use Rattle.rev_graph.specs.Graph.{build_at, outputs_of};
ghost use Rattle.rev_waits.specs.Waits.{Waits};
ghost use Rattle.rev_patched.specs.Orders.{patched};
ghost use Rattle.rev_patched.specs.Provoked.{IsRefusedAsOrdered, OfPatch, SayProvoked};

use crate::orders::{Order, writable_output};
use crate::patching::patch_for;
use rev_graph::{Graph, GraphFault};
use rev_manifest::Manifest;
use rev_patch::Change;
use rev_paths::Name;
use rev_waits::{steps, waited_for};
use std::alloc::{AllocError, Global};

/// The answer to the wish that a maker runs after a user.
#[derive(Debug, Drop)]
pub enum Provoked {
    /// A patch: the changed lines of each file.
    Patch(Vec<Vec<Change>>),
    /// No patch, since the two are one edge, or the user waits for the maker.
    Ordered,
    /// No patch, since a build line can name no output of the user.
    Unwritable,
    /// No patch, since the changed files do not say the manifest with this order and nothing else, or the manifest
    /// lacks these edges or has no graph.
    Unsound,
}

// Whether two edges are one, or the user waits for the maker.
fn are_ordered(alloc: Global, graph: &Graph, user: u32, maker: u32) -> Result<bool, AllocError>
    requires user { user < length graph.now.manifest.builds }
    requires maker { maker < length graph.now.manifest.builds }
    ensures { IfOk result (λ ordered. IsTrue ordered
        ↔ ((user ≡ maker) ⊎ Waits graph.now.manifest.builds user maker)) }
{
    if user == maker {
        return Ok(true);
    }
    let steps = steps(alloc, graph)?;
    let waited = waited_for(alloc, graph, &steps, user)?;
    Ok(waited[maker as usize])
}

// The first output of an edge that can be written on a build line, if one can.
fn output_of(manifest: &Manifest, edge: u32) -> Option<&Name>
    requires { edge < length manifest.now.builds }
    ensures { IfSome (option_copied result) (Contains (outputs_of (build_at manifest.now.builds edge))) }
{
    writable_output(&manifest.builds()[edge as usize])
}

// The patch that puts an output of the user on the maker's line.
fn patch_with(
    alloc: Global,
    files: &[(Vec<u8>, Vec<u8>)],
    old: &Manifest,
    graph: &Graph,
    user: u32,
    maker: u32,
    path: &Name,
) -> Result<Option<Vec<Vec<Change>>>, AllocError>
    requires same { graph.now.manifest ≡ old.now }
    requires maker { maker < length old.now.builds }
    requires apart { ((user ≡ maker) ⊎ Waits old.now.builds user maker) → ⊥ }
    requires output { Contains (outputs_of (build_at old.now.builds user)) path.now }
    ensures { IfOk result (λ found. IfSome found (λ changes.
        SayProvoked old.now user maker (patched (seen_files files.now) changes.items))) }
{
    let _edges = graph.edges();
    let _producer = graph.producer(path);
    let order = Order { edge: maker, path };
    let found = patch_for(alloc, files, old, &[order])?;
    Ok(found)
}

// What has the maker come behind the user, where the user does not wait for it.
fn provoked_apart(
    alloc: Global,
    files: &[(Vec<u8>, Vec<u8>)],
    old: &Manifest,
    graph: &Graph,
    user: u32,
    maker: u32,
) -> Result<Provoked, AllocError>
    requires same { graph.now.manifest ≡ old.now }
    requires user { user < length old.now.builds }
    requires maker { maker < length old.now.builds }
    requires apart { ((user ≡ maker) ⊎ Waits old.now.builds user maker) → ⊥ }
    ensures patch { IfOk result (OfPatch (λ changes.
        SayProvoked old.now user maker (patched (seen_files files.now) changes))) }
    ensures apart { IfOk result (λ provoked. IsRefusedAsOrdered provoked → ⊥) }
{
    let Some(path) = output_of(old, user) else {
        return Ok(Provoked::Unwritable);
    };
    match patch_with(alloc, files, old, graph, user, maker, path)? {
        Some(changes) => Ok(Provoked::Patch(changes)),
        None => Ok(Provoked::Unsound),
    }
}

// What has the maker come behind the user, in a manifest that has a graph.
fn provoked_in(
    alloc: Global,
    files: &[(Vec<u8>, Vec<u8>)],
    old: &Manifest,
    graph: &Graph,
    user: u32,
    maker: u32,
) -> Result<Provoked, AllocError>
    requires same { graph.now.manifest ≡ old.now }
    ensures patch { IfOk result (OfPatch (λ changes.
        SayProvoked old.now user maker (patched (seen_files files.now) changes))) }
    ensures ordered { user < length old.now.builds → maker < length old.now.builds → IfOk result (λ provoked.
        IsRefusedAsOrdered provoked ↔ ((user ≡ maker) ⊎ Waits old.now.builds user maker)) }
{
    let edges = graph.edges();
    if user >= edges || maker >= edges {
        return Ok(Provoked::Unsound);
    }
    if are_ordered(alloc, graph, user, maker)? {
        return Ok(Provoked::Ordered);
    }
    provoked_apart(alloc, files, old, graph, user, maker)
}

/// A patch with which the maker of a path runs after its user in each build. It adds an output of the user to the
/// maker's order-only inputs. `files` are the files from which the manifest was read.
///
/// In the patched manifest the maker waits for the user, no edge waits for itself, and all else is as it was. The patch
/// would make a cycle exactly where the two are one edge or the user waits for the maker, and the answer is
/// [`Provoked::Ordered`] there.
///
/// # Errors
/// [`AllocError`] only where an allocation was refused.
pub fn provoke(
    alloc: Global,
    files: &[(Vec<u8>, Vec<u8>)],
    old: &Manifest,
    user: u32,
    maker: u32,
) -> Result<Provoked, AllocError>
    ensures patch { IfOk result (OfPatch (λ changes.
        SayProvoked old.now user maker (patched (seen_files files.now) changes))) }
    // Of two edges it is refused as ordered exactly where the two are one, or the user waits for the maker.
    ensures ordered { IsFaultless old.now.builds → user < length old.now.builds → maker < length old.now.builds
        → IfOk result (λ provoked. IsRefusedAsOrdered provoked ↔ ((user ≡ maker) ⊎ Waits old.now.builds user maker)) }
{
    match Graph::build(alloc, old) {
        Ok(graph) => provoked_in(alloc, files, old, &graph, user, maker),
        Err(fault) => match &fault {
            GraphFault::Memory => Err(AllocError),
            _ => Ok(Provoked::Unsound),
        },
    }
}
