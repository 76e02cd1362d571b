//! Nodes in order, and which makers each of them waits for.
use crate::graphs::is_graph;
use crate::marks::mark_at;
use rev_ranks::{RankFault, leading_to, ranks};
use std::alloc::{AllocError, Global};

// How many makers a number has a bit for.
pub(crate) const BITS: usize = 64;

/// The nodes, each behind those that it waits for; none where a node waits for itself, or a number in the lists
/// is not that of a list.
///
/// # Errors
/// [`AllocError`] only where an allocation was refused.
pub(crate) fn makers_first(
    alloc: Global,
    steps: &[Vec<u32>],
) -> Result<Option<Vec<u32>>, AllocError> {
    let holds = is_graph(steps);
    if !holds {
        return Ok(None);
    }
    let numbers = match ranks(alloc, steps) {
        Ok(numbers) => numbers,
        Err(RankFault::Memory) => return Err(AllocError),
        Err(RankFault::Cycle(_)) => return Ok(None),
    };
    let mut ranked = Vec::with_capacity(alloc, numbers.len())?;
    for (node, rank) in numbers.iter().enumerate() {
        ranked.push((*rank, u32::try_from(node).unwrap_or(u32::MAX)))?;
    }
    ranked.sort_unstable();
    let mut order = Vec::with_capacity(alloc, ranked.len())?;
    for (_, node) in &ranked {
        order.push(*node)?;
    }
    Ok(Some(order))
}

/// Whether an order is left out: that at a place of a node's list.
pub(crate) fn is_out(gone: &[Vec<bool>], node: u32, place: usize) -> bool {
    match gone.get(node as usize) {
        Some(marks) => mark_at(marks, place),
        None => false,
    }
}

// The number of a node; 0 of what is none.
fn number_at(numbers: &[u64], node: u32) -> u64 {
    match numbers.get(node as usize) {
        Some(number) => *number,
        None => 0,
    }
}

/// The bits of some makers: for each node the bit of its place among them. The first 64 makers have one.
///
/// # Errors
/// [`AllocError`] only where an allocation was refused.
pub(crate) fn own_bits(
    alloc: Global,
    nodes: usize,
    makers: &[u32],
) -> Result<Vec<u64>, AllocError> {
    let mut own = vec![in alloc; 0u64; nodes]?;
    let mut bit = 1u64;
    for maker in makers.iter().take(BITS) {
        if let Some(number) = own.get_mut(*maker as usize) {
            *number = bit;
        }
        bit = bit.wrapping_mul(2);
    }
    Ok(own)
}

// The bits of what a node waits for, by those of the nodes that it waits for directly.
fn bits_behind(
    steps: &[Vec<u32>],
    gone: &[Vec<bool>],
    own: &[u64],
    bits: &[u64],
    node: u32,
) -> u64 {
    let mut found = 0u64;
    let Some(nexts) = steps.get(node as usize) else {
        return found;
    };
    for (place, next) in nexts.iter().enumerate() {
        if !is_out(gone, node, place) {
            found = found | (number_at(own, *next) | number_at(bits, *next));
        }
    }
    found
}

/// For each node the bits of the makers that it waits for without the orders that are left out. `order` has each node
/// behind those that it waits for, and `own` the bit of each maker.
///
/// # Errors
/// [`AllocError`] only where an allocation was refused.
pub(crate) fn waited_bits(
    alloc: Global,
    order: &[u32],
    steps: &[Vec<u32>],
    gone: &[Vec<bool>],
    own: &[u64],
) -> Result<Vec<u64>, AllocError> {
    let mut bits = vec![in alloc; 0u64; steps.len()]?;
    for node in order {
        let found = bits_behind(steps, gone, own, &bits, *node);
        if let Some(number) = bits.get_mut(*node as usize) {
            *number = found;
        }
    }
    Ok(bits)
}

/// Of the makers in a list those that have a bit, and whose bit is or is not among some bits.
///
/// # Errors
/// [`AllocError`] only where an allocation was refused.
pub(crate) fn makers_by(
    alloc: Global,
    makers: &[u32],
    own: &[u64],
    bits: u64,
    are_in: bool,
) -> Result<Vec<u32>, AllocError> {
    let mut found = Vec::new(alloc);
    for maker in makers {
        let bit = number_at(own, *maker);
        if bit != 0 && (bit & bits != 0) == are_in {
            found.push(*maker)?;
        }
    }
    Ok(found)
}

/// The lists, each in the order of its numbers.
///
/// # Errors
/// [`AllocError`] only where an allocation was refused.
pub(crate) fn in_order(alloc: Global, lists: &[Vec<u32>]) -> Result<Vec<Vec<u32>>, AllocError> {
    let mut sorted = Vec::with_capacity(alloc, lists.len())?;
    for list in lists {
        let mut copy = Vec::from_slice(alloc, list)?;
        copy.sort_unstable();
        sorted.push(copy)?;
    }
    Ok(sorted)
}

/// The part of a list in order that begins at a place and has the numbers up to a last one.
pub(crate) fn part_up_to(list: &[u32], from: usize, last: u32) -> &[u32] {
    let (_, rest) = list.split_at(from.min(list.len()));
    let count = rest.iter().take_while(|number| **number <= last).count();
    rest.split_at(count.min(rest.len())).0
}

/// The number at a place; 0 where there is none.
pub(crate) fn place_at(places: &[usize], place: usize) -> usize {
    match places.get(place) {
        Some(number) => *number,
        None => 0,
    }
}

/// Moves the number at a place on.
pub(crate) fn move_on(places: &mut Vec<usize>, place: usize, by: usize) {
    if let Some(number) = places.get_mut(place) {
        *number = number.saturating_add(by);
    }
}

/// All of so many nodes that stand in the lists, each once, in the order of their numbers.
///
/// # Errors
/// [`AllocError`] only where an allocation was refused.
pub(crate) fn makers_in(
    alloc: Global,
    nodes: usize,
    lists: &[Vec<u32>],
) -> Result<Vec<u32>, AllocError> {
    let mut marks = vec![in alloc; false; nodes]?;
    for list in lists {
        for maker in list {
            if let Some(mark) = marks.get_mut(*maker as usize) {
                *mark = true;
            }
        }
    }
    let mut makers = Vec::new(alloc);
    for (node, mark) in marks.iter().enumerate() {
        if *mark {
            makers.push(u32::try_from(node).unwrap_or(u32::MAX))?;
        }
    }
    Ok(makers)
}

/// For each node those nodes of its list that it waits for, in the order of their numbers. `lists` has a list for each
/// node.
///
/// # Errors
/// [`AllocError`] only where an allocation was refused.
pub fn waited_among(
    alloc: Global,
    steps: &[Vec<u32>],
    lists: &[Vec<u32>],
) -> Result<Vec<Vec<u32>>, AllocError> {
    let mut among = Vec::with_capacity(alloc, lists.len())?;
    for _ in 0..lists.len() {
        among.push(Vec::new(alloc))?;
    }
    let Some(order) = makers_first(alloc, steps)? else {
        return Ok(among);
    };
    let makers = makers_in(alloc, steps.len(), lists)?;
    let sorted = in_order(alloc, lists)?;
    let mut places = vec![in alloc; 0usize; lists.len()]?;
    for block in makers.chunks(BITS) {
        add_waited(
            alloc,
            steps,
            &order,
            &sorted,
            &mut places,
            block,
            &mut among,
        )?;
    }
    Ok(among)
}

// Adds to the list of each node those of some makers in its list that it waits for. `places` has for each list in order
// where its part begins, and moves on behind the part.
fn add_waited(
    alloc: Global,
    steps: &[Vec<u32>],
    order: &[u32],
    lists: &[Vec<u32>],
    places: &mut Vec<usize>,
    makers: &[u32],
    among: &mut Vec<Vec<u32>>,
) -> Result<(), AllocError> {
    let own = own_bits(alloc, steps.len(), makers)?;
    let none = Vec::new(alloc);
    let bits = waited_bits(alloc, order, steps, &none, &own)?;
    let last = makers.last().copied().unwrap_or(0);
    for (node, list) in lists.iter().enumerate() {
        let part = part_up_to(list, place_at(places, node), last);
        move_on(places, node, part.len());
        let here = bits.get(node).copied().unwrap_or(0);
        if here != 0 && !part.is_empty() {
            let waited = makers_by(alloc, part, &own, here, true)?;
            add_all(among, node, &waited)?;
        }
    }
    Ok(())
}

/// For each node that has a mark those of some makers that it waits for. A node without a mark has an empty list.
///
/// # Errors
/// [`AllocError`] only where an allocation was refused.
pub fn waited_of(
    alloc: Global,
    steps: &[Vec<u32>],
    users: &[bool],
    makers: &[u32],
) -> Result<Vec<Vec<u32>>, AllocError> {
    let mut waited = Vec::with_capacity(alloc, steps.len())?;
    for _ in 0..steps.len() {
        waited.push(Vec::new(alloc))?;
    }
    let Some(order) = makers_first(alloc, steps)? else {
        return Ok(waited);
    };
    let none = Vec::new(alloc);
    for block in makers.chunks(BITS) {
        let own = own_bits(alloc, steps.len(), block)?;
        let bits = waited_bits(alloc, &order, steps, &none, &own)?;
        for (node, here) in bits.iter().enumerate() {
            if mark_at(users, node) && *here != 0 {
                let found = makers_by(alloc, block, &own, *here, true)?;
                add_all(&mut waited, node, &found)?;
            }
        }
    }
    Ok(waited)
}

// How many makers of a block commands wait for, all commands together.
fn waits_in_block(commands: &[bool], bits: &[u64]) -> u64 {
    let mut count = 0u64;
    for (node, here) in bits.iter().enumerate() {
        if mark_at(commands, node) {
            count = count.saturating_add(u64::from(here.count_ones()));
        }
    }
    count
}

/// How many pairs of commands are ordered: one waits for the other, without the orders that have a mark. It is 0 where
/// a node waits for itself.
///
/// # Errors
/// [`AllocError`] only where an allocation was refused.
pub fn count_waits(
    alloc: Global,
    steps: &[Vec<u32>],
    gone: &[Vec<bool>],
    commands: &[bool],
) -> Result<u64, AllocError> {
    let Some(order) = makers_first(alloc, steps)? else {
        return Ok(0);
    };
    let mut makers = Vec::new(alloc);
    for (node, is_command) in commands.iter().enumerate() {
        if *is_command {
            makers.push(u32::try_from(node).unwrap_or(u32::MAX))?;
        }
    }
    let mut count = 0u64;
    for block in makers.chunks(BITS) {
        let own = own_bits(alloc, steps.len(), block)?;
        let bits = waited_bits(alloc, &order, steps, gone, &own)?;
        count = count.saturating_add(waits_in_block(commands, &bits));
    }
    Ok(count)
}

// Adds nodes to the list at a place.
fn add_all(lists: &mut Vec<Vec<u32>>, place: usize, nodes: &[u32]) -> Result<(), AllocError> {
    if let Some(list) = lists.get_mut(place) {
        list.extend_from_slice(nodes)?;
    }
    Ok(())
}

/// A mark for each node that has a mark among `goals`, or waits for a node that has one. Where a number in the lists is
/// not that of a list, or there are not as many marks as lists, it is the marks themselves.
///
/// # Errors
/// [`AllocError`] only where an allocation was refused.
pub fn leading(alloc: Global, steps: &[Vec<u32>], goals: &[bool]) -> Result<Vec<bool>, AllocError> {
    let holds = is_graph(steps);
    if !holds {
        return Vec::from_slice(alloc, goals);
    }
    if goals.len() != steps.len() {
        return Vec::from_slice(alloc, goals);
    }
    leading_to(alloc, steps, goals)
}
