//! Orders that stay since something asks for them.
use crate::known::Known;
use crate::marks::mark_at;
use crate::needing::{open_nexts, waited_by};
use crate::searching::{Kept, Search};
use crate::walking::{
    BITS, in_order, is_out, makers_by, makers_in, move_on, own_bits, part_up_to, place_at,
    waited_bits,
};
use std::alloc::{AllocError, Global};

/// Keeps each order below an unseen command, and each order above one.
///
/// # Errors
/// [`AllocError`] only where an allocation was refused.
pub(crate) fn keep_unseen(alloc: Global, known: &Known, kept: &mut Kept) -> Result<(), AllocError> {
    let none = Vec::new(alloc);
    let below = waited_by(alloc, &known.steps, &none, &known.unseen)?;
    let above = kept.waiting_for(alloc, &known.unseen)?;
    for (node, nexts) in known.steps.iter().enumerate() {
        keep_around(kept, &below, &above, node, nexts);
    }
    Ok(())
}

// Keeps the orders of a node that stand below or above an unseen command.
fn keep_around(kept: &mut Kept, below: &[bool], above: &[bool], node: usize, nexts: &[u32]) {
    let number = u32::try_from(node).unwrap_or(u32::MAX);
    for (place, next) in nexts.iter().enumerate() {
        if mark_at(below, node) || mark_at(above, *next as usize) {
            kept.put(number, place, false);
        }
    }
}

// For each of some makers those who have it in their list, and do not wait for it without the orders that are left out.
// `places` has for each list in order where its part begins, and moves on behind the part.
fn unmet_of(
    alloc: Global,
    known: &Known,
    order: &[u32],
    gone: &[Vec<bool>],
    lists: &[Vec<u32>],
    places: &mut Vec<usize>,
    makers: &[u32],
) -> Result<Vec<Vec<u32>>, AllocError> {
    let own = own_bits(alloc, known.steps.len(), makers)?;
    let bits = waited_bits(alloc, order, &known.steps, gone, &own)?;
    let mut unmet = Vec::new(alloc);
    for _ in 0..makers.len() {
        unmet.push(Vec::new(alloc))?;
    }
    let last = makers.last().copied().unwrap_or(0);
    for (user, list) in lists.iter().enumerate() {
        let part = part_up_to(list, place_at(places, user), last);
        move_on(places, user, part.len());
        let here = bits.get(user).copied().unwrap_or(0);
        let lost = makers_by(alloc, part, &own, here, false)?;
        add_user(
            &mut unmet,
            makers,
            &lost,
            u32::try_from(user).unwrap_or(u32::MAX),
        )?;
    }
    Ok(unmet)
}

// Adds a user to the list of each maker that was lost.
fn add_user(
    unmet: &mut Vec<Vec<u32>>,
    makers: &[u32],
    lost: &[u32],
    user: u32,
) -> Result<(), AllocError> {
    for maker in lost {
        if let Some(place) = makers.iter().position(|other| *other == *maker) {
            if let Some(users) = unmet.get_mut(place) {
                users.push(user)?;
            }
        }
    }
    Ok(())
}

// Keeps a way to a maker from each of some users.
fn keep_ways(
    alloc: Global,
    users: &[u32],
    maker: u32,
    search: &mut Search,
    kept: &mut Kept,
) -> Result<(), AllocError> {
    if users.is_empty() {
        return Ok(());
    }
    search.find(alloc, kept, maker, users)?;
    for user in users {
        search.keep_way(kept, *user, maker);
    }
    Ok(())
}

// Keeps a way to each maker from those who have it in their list.
fn keep_block(
    alloc: Global,
    known: &Known,
    order: &[u32],
    lists: &[Vec<u32>],
    places: &mut Vec<usize>,
    makers: &[u32],
    search: &mut Search,
    kept: &mut Kept,
) -> Result<(), AllocError> {
    let unmet = unmet_of(alloc, known, order, kept.gone(), lists, places, makers)?;
    for (place, users) in unmet.iter().enumerate() {
        if let Some(maker) = makers.get(place) {
            keep_ways(alloc, users, *maker, search, kept)?;
        }
    }
    Ok(())
}

/// Keeps a way from each node to each one in its list, where there is one.
///
/// # Errors
/// [`AllocError`] only where an allocation was refused.
pub(crate) fn keep_conflicts(
    alloc: Global,
    known: &Known,
    order: &[u32],
    kept: &mut Kept,
) -> Result<(), AllocError> {
    let makers = makers_in(alloc, known.steps.len(), &known.conflicts)?;
    let lists = in_order(alloc, &known.conflicts)?;
    let mut places = vec![in alloc; 0usize; lists.len()]?;
    let mut search = Search::new(alloc, known.steps.len())?;
    for block in makers.chunks(BITS) {
        keep_block(
            alloc,
            known,
            order,
            &lists,
            &mut places,
            block,
            &mut search,
            kept,
        )?;
    }
    Ok(())
}

// How many orders of a node stay, and whether one of them may go.
fn staying(may_go: &[Vec<bool>], gone: &[Vec<bool>], node: u32, orders: usize) -> (usize, bool) {
    let mut count: usize = 0;
    let mut has_one = false;
    for place in 0..orders {
        if !is_out(gone, node, place) {
            count = count.saturating_add(1);
            has_one = has_one || is_out(may_go, node, place);
        }
    }
    (count, has_one)
}

// A mark for each node that one of the nodes behind the orders of a node waits for, without the orders that are left
// out.
fn behind_nexts(
    alloc: Global,
    steps: &[Vec<u32>],
    gone: &[Vec<bool>],
    node: u32,
    nexts: &[u32],
) -> Result<Vec<bool>, AllocError> {
    let mut marks = vec![in alloc; false; steps.len()]?;
    let mut open = Vec::new(alloc);
    for (place, next) in nexts.iter().enumerate() {
        if !is_out(gone, node, place) {
            open_nexts(steps, gone, *next, &mut marks, &mut open)?;
        }
    }
    for _ in 0..u64::MAX {
        let Some(next) = open.pop() else {
            break;
        };
        open_nexts(steps, gone, next, &mut marks, &mut open)?;
    }
    Ok(marks)
}

// Leaves out each order of a node that may go and beside which another way leads to the same node.
fn leave_out_of(
    alloc: Global,
    steps: &[Vec<u32>],
    may_go: &[Vec<bool>],
    node: u32,
    nexts: &[u32],
    kept: &mut Kept,
) -> Result<(), AllocError> {
    let (count, has_one) = staying(may_go, kept.gone(), node, nexts.len());
    if count < 2 || !has_one {
        return Ok(());
    }
    let mut others = behind_nexts(alloc, steps, kept.gone(), node, nexts)?;
    for (place, next) in nexts.iter().enumerate() {
        if is_out(kept.gone(), node, place) {
            continue;
        }
        if is_out(may_go, node, place) && mark_at(&others, *next as usize) {
            kept.put(node, place, true);
        }
        // The next order that leads to the same node has this one beside it.
        if let Some(mark) = others.get_mut(*next as usize) {
            *mark = true;
        }
    }
    Ok(())
}

/// Leaves out each order that may go and beside which another way leads to the same node. Nothing changes by that in who
/// waits for whom.
///
/// # Errors
/// [`AllocError`] only where an allocation was refused.
pub(crate) fn leave_out_doubles(
    alloc: Global,
    known: &Known,
    may_go: &[Vec<bool>],
    kept: &mut Kept,
) -> Result<(), AllocError> {
    for (node, nexts) in known.steps.iter().enumerate() {
        let number = u32::try_from(node).unwrap_or(u32::MAX);
        leave_out_of(alloc, &known.steps, may_go, number, nexts, kept)?;
    }
    Ok(())
}
