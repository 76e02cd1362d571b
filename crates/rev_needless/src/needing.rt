//! Ways from a target to each command that it needs.
use crate::known::Known;
use crate::marks::mark_at;
use crate::searching::{Kept, open_up};
use crate::walking::is_out;
use std::alloc::{AllocError, Global};
use std::mem;

// The order by which a node was found: whose it is, and its place in the list of that node.
#[derive(Clone, Copy)]
struct Found {
    user: u32,
    place: u32,
}

// A search from a target to all that it needs, by as few orders that are left out as can be.
struct Needs {
    // For each node that was found the order that led to it.
    found: Vec<Option<Found>>,
    // The nodes that were found, and whose orders are still to be followed.
    open: Vec<u32>,
    // Orders that are left out: by them one goes on once nothing is open.
    later: Vec<(u32, Found)>,
}

// Written, since a derived drop is proved again at each exit of each caller.
impl Drop for Needs {
    fn drop(self) {
        let Needs {
            found: _found,
            open: _open,
            later: _later,
        } = self;
    }
}

impl Needs {
    // Finds a node by an order, unless it was found before.
    fn find(&mut self, node: u32, order: Found) -> Result<(), AllocError> {
        let Some(known) = self.found.get_mut(node as usize) else {
            return Ok(());
        };
        if known.is_some() {
            return Ok(());
        }
        *known = Some(order);
        self.open.push(node)?;
        Ok(())
    }

    // Follows the orders of a node.
    fn follow(
        &mut self,
        steps: &[Vec<u32>],
        gone: &[Vec<bool>],
        node: u32,
    ) -> Result<(), AllocError> {
        let Some(nexts) = steps.get(node as usize) else {
            return Ok(());
        };
        for (place, next) in nexts.iter().enumerate() {
            let order = Found {
                user: node,
                place: u32::try_from(place).unwrap_or(u32::MAX),
            };
            if is_out(gone, node, place) {
                self.later.push((*next, order))?;
            } else {
                self.find(*next, order)?;
            }
        }
        Ok(())
    }

    // Goes on by the orders that are left out.
    fn go_on(&mut self, alloc: Global) -> Result<(), AllocError> {
        let later = mem::replace(&mut self.later, Vec::new(alloc));
        for (node, order) in &later {
            self.find(*node, *order)?;
        }
        Ok(())
    }

    // One step of the search: whether it goes on.
    fn step(
        &mut self,
        alloc: Global,
        steps: &[Vec<u32>],
        gone: &[Vec<bool>],
    ) -> Result<bool, AllocError> {
        match self.open.pop() {
            Some(node) => {
                self.follow(steps, gone, node)?;
                Ok(true)
            }
            None => {
                self.go_on(alloc)?;
                Ok(!self.open.is_empty())
            }
        }
    }

    // The order that led to a node.
    fn order_to(&self, node: u32) -> Option<Found> {
        match self.found.get(node as usize) {
            Some(found) => *found,
            None => None,
        }
    }
}

// What a target needs.
fn needs_of(
    alloc: Global,
    steps: &[Vec<u32>],
    gone: &[Vec<bool>],
    target: u32,
) -> Result<Needs, AllocError> {
    let mut needs = Needs {
        found: vec![in alloc; None; steps.len()]?,
        open: Vec::new(alloc),
        later: Vec::new(alloc),
    };
    needs.follow(steps, gone, target)?;
    for _ in 0..u64::MAX {
        let goes_on = needs.step(alloc, steps, gone)?;
        if !goes_on {
            break;
        }
    }
    Ok(needs)
}

// The nodes that a target waits for by the orders that stay.
struct Reached {
    marks: Vec<bool>,
    open: Vec<u32>,
}

impl Drop for Reached {
    fn drop(self) {
        let Reached {
            marks: _marks,
            open: _open,
        } = self;
    }
}

impl Reached {
    // The marks of the nodes.
    fn into_marks(self) -> Vec<bool> {
        let Reached { marks, open: _open } = self;
        marks
    }

    // Goes on from the nodes that are open.
    fn spread(&mut self, steps: &[Vec<u32>], gone: &[Vec<bool>]) -> Result<(), AllocError> {
        for _ in 0..u64::MAX {
            let Some(node) = self.open.pop() else {
                break;
            };
            open_nexts(steps, gone, node, &mut self.marks, &mut self.open)?;
        }
        Ok(())
    }

    // Keeps the orders on the way to a node from where the target waits already, and opens the nodes on it.
    fn keep_way(&mut self, needs: &Needs, kept: &mut Kept, last: u32) -> Result<(), AllocError> {
        let mut node = last;
        for _ in 0..needs.found.len() {
            if mark_at(&self.marks, node as usize) {
                break;
            }
            let Some(order) = needs.order_to(node) else {
                break;
            };
            kept.put(order.user, order.place as usize, false);
            open_up(&mut self.marks, &mut self.open, node)?;
            node = order.user;
        }
        Ok(())
    }
}

/// Opens all that a node waits for directly, without the orders that are left out.
///
/// # Errors
/// [`AllocError`] only where an allocation was refused.
pub(crate) fn open_nexts(
    steps: &[Vec<u32>],
    gone: &[Vec<bool>],
    node: u32,
    marks: &mut Vec<bool>,
    open: &mut Vec<u32>,
) -> Result<(), AllocError> {
    let Some(nexts) = steps.get(node as usize) else {
        return Ok(());
    };
    for (place, next) in nexts.iter().enumerate() {
        if !is_out(gone, node, place) {
            open_up(marks, open, *next)?;
        }
    }
    Ok(())
}

/// A mark for each of some nodes and for all that they wait for, without the orders that are left out.
///
/// # Errors
/// [`AllocError`] only where an allocation was refused.
pub fn waited_by(
    alloc: Global,
    steps: &[Vec<u32>],
    gone: &[Vec<bool>],
    nodes: &[u32],
) -> Result<Vec<bool>, AllocError> {
    let reached = reached_from(alloc, steps, gone, nodes)?;
    Ok(reached.into_marks())
}

// Some nodes and all that they wait for, without the orders that are left out.
fn reached_from(
    alloc: Global,
    steps: &[Vec<u32>],
    gone: &[Vec<bool>],
    nodes: &[u32],
) -> Result<Reached, AllocError> {
    let mut reached = Reached {
        marks: vec![in alloc; false; steps.len()]?,
        open: Vec::new(alloc),
    };
    for node in nodes {
        open_up(&mut reached.marks, &mut reached.open, *node)?;
    }
    reached.spread(steps, gone)?;
    Ok(reached)
}

// Keeps a way from a target to each command that it needs. A command for which others wait comes behind these, since a
// way to one of them mostly is one to it.
fn keep_target(
    alloc: Global,
    known: &Known,
    order: &[u32],
    target: u32,
    kept: &mut Kept,
) -> Result<(), AllocError> {
    let targets = [target];
    let needs = needs_of(alloc, &known.steps, kept.gone(), target)?;
    let mut reached = reached_from(alloc, &known.steps, kept.gone(), &targets)?;
    for node in order.iter().rev() {
        let place = *node as usize;
        if mark_at(&known.commands, place) && !mark_at(&reached.marks, place) {
            reached.keep_way(&needs, kept, *node)?;
            reached.spread(&known.steps, kept.gone())?;
        }
    }
    Ok(())
}

/// Keeps a way from each target to each command that it needs.
///
/// # Errors
/// [`AllocError`] only where an allocation was refused.
pub(crate) fn keep_targets(
    alloc: Global,
    known: &Known,
    order: &[u32],
    kept: &mut Kept,
) -> Result<(), AllocError> {
    for target in &known.targets {
        keep_target(alloc, known, order, *target, kept)?;
    }
    Ok(())
}
