//! Whether files say a manifest with added orders and nothing else.
ghost use Rattle.std.specs.Prelude.{◌≡◌, ◌↔◌, IfOk, IsTrue};
ghost use Rattle.rev_manifest.specs.Seen.{seen_files};
ghost use Rattle.rev_graph.specs.Fault.{IsFaultless};
ghost use Rattle.rev_patched.specs.Orders.{IsOrdered, IsPatched};

use crate::orders::Order;
use crate::same::same_manifest;
use rev_graph::{Graph, GraphFault};
use rev_manifest::{Manifest, ReadFault};
use std::alloc::{AllocError, Global};

// Whether a manifest is another one with orders, and nothing else.
fn is_ordered(
    alloc: Global,
    old: &Manifest,
    new: &Manifest,
    orders: &[Order<'_>],
) -> Result<bool, AllocError>
    ensures { IfOk result (λ ordered. IsTrue ordered ↔ IsOrdered old.now new.now orders.now) }
{
    let same = same_manifest(alloc, orders, old, new)?;
    Ok(same)
}

/// Whether the edges of a manifest make a graph.
///
/// # Errors
/// [`AllocError`] only where an allocation was refused.
pub(crate) fn is_faultless(alloc: Global, manifest: &Manifest) -> Result<bool, AllocError>
    ensures { IfOk result (λ faultless. IsTrue faultless ↔ IsFaultless manifest.now.builds) }
{
    match Graph::build(alloc, manifest) {
        Ok(_graph) => Ok(true),
        Err(fault) => match &fault {
            GraphFault::Memory => Err(AllocError),
            _ => Ok(false),
        },
    }
}

// Whether a manifest that was read is another one with orders, and no edge of it waits for itself.
fn is_sound(
    alloc: Global,
    old: &Manifest,
    new: &Manifest,
    orders: &[Order<'_>],
) -> Result<bool, AllocError>
    ensures ordered { IfOk result (λ sound. IsTrue sound → IsOrdered old.now new.now orders.now) }
    ensures faultless { IfOk result (λ sound. IsTrue sound → IsFaultless new.now.builds) }
    ensures whole { IfOk result (λ sound. IsOrdered old.now new.now orders.now → IsFaultless new.now.builds
        → IsTrue sound) }
{
    if !is_ordered(alloc, old, new, orders)? {
        return Ok(false);
    }
    is_faultless(alloc, new)
}

/// Whether these files, each a name and its content, say the manifest `old` with these order-only inputs and nothing
/// else, and no edge of that manifest waits for itself. Time and memory are linear in the files and the orders.
///
/// # Errors
/// [`AllocError`] only where an allocation was refused.
pub fn is_patched(
    alloc: Global,
    files: &[(Vec<u8>, Vec<u8>)],
    old: &Manifest,
    orders: &[Order<'_>],
) -> Result<bool, AllocError>
    ensures { IfOk result (λ patched. IsTrue patched ↔ IsPatched old.now orders.now (seen_files files.now)) }
{
    match rev_manifest::read(alloc, files) {
        Ok(new) => is_sound(alloc, old, &new, orders),
        Err(ReadFault::Memory) => Err(AllocError),
        Err(ReadFault::Manifest(_fault)) => Ok(false),
    }
}
