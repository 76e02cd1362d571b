//! Whether files say a manifest with added outputs, inputs and orders, and nothing else.
ghost use Rattle.std.specs.Prelude.{◌≡◌, ◌++◌, length, IfOk, IsTrue};
ghost use Rattle.rev_manifest.specs.Seen.{seen_files};
ghost use Rattle.rev_graph.specs.Fault.{IsFaultless};
ghost use Rattle.rev_patched.specs.Amended.{IsAmended, IsAmendedBy, amends_edge, amends_from, amends_inputs, amends_manifest, amends_outputs, stays};
ghost use Rattle.rev_patched.specs.Orders.{ordered_paths};
ghost use Rattle.rev_patched.specs.Same.{AreListed};

use crate::amending::Amendments;
use crate::check::is_faultless;
use crate::orders::{Order, lists_of};
use crate::same::{are_joined, same_place, same_pools, same_rule, without_ordered};
use rev_manifest::{Build, Manifest, ReadFault};
use rev_paths::Name;
use std::alloc::{AllocError, Global};

fn amends_outputs(edge: &Build, outputs: &[Name], other: &Build) -> bool
    ensures { result ≡ amends_outputs edge.now outputs.now other.now }
{
    edge.explicit_outs() == other.explicit_outs()
        && are_joined(edge.implicit_outs(), outputs, other.implicit_outs())
}

fn amends_inputs(edge: &Build, inputs: &[Name], orders: &[Name], other: &Build) -> bool
    ensures { result ≡ amends_inputs edge.now inputs.now orders.now other.now }
{
    edge.explicit() == other.explicit()
        && are_joined(edge.implicit(), inputs, other.implicit())
        && are_joined(edge.order_only(), orders, other.order_only())
        && edge.validations() == other.validations()
}

// Whether an edge is another one with these implicit outputs, implicit inputs and order-only inputs.
fn amends_edge(
    edge: &Build,
    outputs: &[Name],
    inputs: &[Name],
    orders: &[Name],
    other: &Build,
) -> bool
    ensures { result ≡ amends_edge edge.now outputs.now inputs.now orders.now other.now }
{
    amends_outputs(edge, outputs, other)
        && amends_inputs(edge, inputs, orders, other)
        && same_rule(edge, other)
        && same_place(edge, other)
}

// Whether edges are others with what stands in their lists.
fn amends_listed(
    outputs: &[Vec<Name>],
    inputs: &[Vec<Name>],
    orders: &[Vec<Name>],
    edges: &[Build],
    others: &[Build],
    outs: &[Order<'_>],
    ins: &[Order<'_>],
    ords: &[Order<'_>],
) -> bool
    requires outputs { length outputs.now ≡ length edges.now }
    requires inputs { length inputs.now ≡ length edges.now }
    requires orders { length orders.now ≡ length edges.now }
    requires outs { AreListed (length edges.now) outs.now outputs.now }
    requires ins { AreListed (length edges.now) ins.now inputs.now }
    requires ords { AreListed (length edges.now) ords.now orders.now }
    ensures { result ≡ amends_from 0 outs.now ins.now ords.now edges.now others.now }
{
    if edges.len() != others.len() {
        return false;
    }
    for (place, edge) in edges.iter().enumerate() {
        if !amends_edge(
            edge,
            &outputs[place],
            &inputs[place],
            &orders[place],
            &others[place],
        ) {
            return false;
        }
    }
    true
}

// Whether edges are others with additions.
fn amends_edges(
    alloc: Global,
    outs: &[Order<'_>],
    ins: &[Order<'_>],
    ords: &[Order<'_>],
    edges: &[Build],
    others: &[Build],
) -> Result<bool, AllocError>
    ensures { IfOk result (λ same. same ≡ amends_from 0 outs.now ins.now ords.now edges.now others.now) }
{
    let outputs = lists_of(alloc, edges.len(), outs)?;
    let inputs = lists_of(alloc, edges.len(), ins)?;
    let orders = lists_of(alloc, edges.len(), ords)?;
    Ok(amends_listed(&outputs, &inputs, &orders, edges, others, outs, ins, ords))
}

// Whether what is built where nothing is named stays: the same but for the paths that are added as inputs, and for those
// that are added as outputs.
fn stays(
    alloc: Global,
    outs: &[Order<'_>],
    ins: &[Order<'_>],
    ords: &[Order<'_>],
    old: &[Name],
    new: &[Name],
) -> Result<bool, AllocError>
    ensures { IfOk result (λ same. same
        ≡ stays (ordered_paths outs.now) (ordered_paths ins.now) (ordered_paths ords.now) old.now new.now) }
{
    if new == old {
        return Ok(true);
    }
    let left = without_ordered(alloc, ins, old)?;
    let left = without_ordered(alloc, ords, &left)?;
    let others = without_ordered(alloc, outs, new)?;
    Ok(others.as_slice() == left.as_slice())
}

// Whether one manifest is another with additions and nothing else.
fn amends_manifest(
    alloc: Global,
    outs: &[Order<'_>],
    ins: &[Order<'_>],
    ords: &[Order<'_>],
    old: &Manifest,
    new: &Manifest,
) -> Result<bool, AllocError>
    ensures { IfOk result (λ same. same ≡ amends_manifest outs.now ins.now ords.now old.now new.now) }
{
    if !same_pools(old.pools(), new.pools()) {
        return Ok(false);
    }
    if !amends_edges(alloc, outs, ins, ords, old.builds(), new.builds())? {
        return Ok(false);
    }
    stays(alloc, outs, ins, ords, old.defaults(), new.defaults())
}

// Whether a manifest is another one with additions, and nothing else.
fn is_amendment(
    alloc: Global,
    outs: &[Order<'_>],
    ins: &[Order<'_>],
    ords: &[Order<'_>],
    old: &Manifest,
    new: &Manifest,
) -> Result<bool, AllocError>
    ensures { IfOk result (λ amended. IsTrue amended → IsAmended old.now new.now outs.now ins.now ords.now) }
{
    let same = amends_manifest(alloc, outs, ins, ords, old, new)?;
    Ok(same)
}

// Whether a manifest that was read is another one with additions, and no edge of it waits for itself.
fn is_sound(
    alloc: Global,
    outs: &[Order<'_>],
    ins: &[Order<'_>],
    ords: &[Order<'_>],
    old: &Manifest,
    new: &Manifest,
) -> Result<bool, AllocError>
    ensures amended { IfOk result (λ sound. IsTrue sound → IsAmended old.now new.now outs.now ins.now ords.now) }
    ensures faultless { IfOk result (λ sound. IsTrue sound → IsFaultless new.now.builds) }
{
    if !is_amendment(alloc, outs, ins, ords, old, new)? {
        return Ok(false);
    }
    is_faultless(alloc, new)
}

/// Whether these files, each a name and its content, say the manifest `old` with these additions and nothing else, each
/// output has one producer, and no edge of that manifest waits for itself.
///
/// # Errors
/// [`AllocError`] only where an allocation was refused.
pub(crate) fn is_amended(
    alloc: Global,
    files: &[(Vec<u8>, Vec<u8>)],
    old: &Manifest,
    amendments: &Amendments<'_>,
) -> Result<bool, AllocError>
    ensures { IfOk result (λ amended. IsTrue amended → IsAmendedBy old.now amendments.now.outputs.items
        amendments.now.inputs.items amendments.now.orders.items (seen_files files.now)) }
{
    let (outs, ins, ords) = (
        amendments.outputs.as_slice(),
        amendments.inputs.as_slice(),
        amendments.orders.as_slice(),
    );
    match rev_manifest::read(alloc, files) {
        Ok(new) => is_sound(alloc, outs, ins, ords, old, &new),
        Err(ReadFault::Memory) => Err(AllocError),
        Err(ReadFault::Manifest(_fault)) => Ok(false),
    }
}
