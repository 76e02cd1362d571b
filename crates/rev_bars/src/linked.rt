//! What an event rests on, and what rests on it.
ghost use Rattle.std.specs.Prelude.{◌≡◌, IfOk};
ghost use Rattle.rev_bars.specs.Links.{links_of};

use rev_held::{Link, dependents, links_on, links_to, needed};
use rev_history::History;
use std::alloc::{AllocError, Global};

/// The dependences of an event, in the order of their numbers: first on earlier kept events, then those of later kept
/// events on it. Each has the first cell through which the two are linked. There are none where the event is not kept.
///
/// # Errors
/// [`AllocError`] only where an allocation was refused.
pub fn links(alloc: Global, history: &History, number: u32) -> Result<Vec<Link>, AllocError>
    ensures { IfOk result (λ links. links.items ≡ links_of history.now.timeline number) }
{
    let earlier = needed(alloc, history, number)?;
    let later = dependents(alloc, history, number)?;
    let mut links = links_to(alloc, history, &earlier, number)?;
    let mut behind = links_on(alloc, history, number, &later)?;
    links.append(&mut behind)?;
    Ok(links)
}
