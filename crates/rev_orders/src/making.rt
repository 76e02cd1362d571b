//! Ways to make an order out of wishes. What they make is checked before it counts as an order.
use std::alloc::{AllocError, Global};
use std::cmp::Reverse;
use std::collections::BinaryHeap;

/// The number at a place, 0 where there is none.
pub(crate) fn number_at(numbers: &[usize], place: usize) -> usize {
    if place < numbers.len() {
        numbers[place]
    } else {
        0
    }
}

/// Whether the mark at a place is set.
pub(crate) fn is_set(marks: &[bool], place: usize) -> bool {
    place < marks.len() && marks[place]
}

/// The nodes that wait for nothing any more, and how many nodes each other one waits for.
#[derive(Drop)]
struct Taking {
    left: Vec<usize>,
    ready: BinaryHeap<Reverse<(bool, usize, usize)>>,
}

impl Taking {
    // A node can be taken. What is no command comes before all commands.
    fn open(&mut self, node: usize, commands: &[bool], ranks: &[usize]) -> Result<(), AllocError> {
        let key = (is_set(commands, node), number_at(ranks, node), node);
        self.ready.push(Reverse(key))?;
        Ok(())
    }

    // A node that another one waited for was taken.
    fn release(
        &mut self,
        node: usize,
        commands: &[bool],
        ranks: &[usize],
    ) -> Result<(), AllocError> {
        if node >= self.left.len() {
            return Ok(());
        }
        let left = self.left[node].saturating_sub(1);
        self.left[node] = left;
        if left == 0 {
            self.open(node, commands, ranks)?;
        }
        Ok(())
    }
}

// How many nodes each node waits for, and those that wait for none.
fn begun(
    alloc: Global,
    before: &[Vec<u32>],
    commands: &[bool],
    ranks: &[usize],
) -> Result<Taking, AllocError> {
    let mut taking = Taking {
        left: Vec::with_capacity(alloc, before.len())?,
        ready: BinaryHeap::new(alloc),
    };
    for node in 0..before.len() {
        let count = before[node].len();
        taking.left.push(count)?;
        if count == 0 {
            taking.open(node, commands, ranks)?;
        }
    }
    Ok(taking)
}

/// The nodes in an order: always the command of the least rank is taken that waits for nothing any more.
pub(crate) fn by_rank(
    alloc: Global,
    before: &[Vec<u32>],
    after: &[Vec<u32>],
    commands: &[bool],
    ranks: &[usize],
) -> Result<Vec<usize>, AllocError> {
    let mut taking = begun(alloc, before, commands, ranks)?;
    let mut nodes = Vec::with_capacity(alloc, before.len())?;
    for _ in 0..before.len() {
        let Some(Reverse((_, _, node))) = taking.ready.pop() else {
            break;
        };
        nodes.push(node)?;
        if node < after.len() {
            for user in &after[node] {
                taking.release(*user as usize, commands, ranks)?;
            }
        }
    }
    Ok(nodes)
}

/// A rank for each node: its place in a list, and behind all of these where it does not stand there.
pub(crate) fn ranks_in(
    alloc: Global,
    nodes: &[usize],
    count: usize,
) -> Result<Vec<usize>, AllocError> {
    let mut ranks = vec![in alloc; nodes.len(); count]?;
    for (rank, node) in nodes.iter().enumerate() {
        if *node < ranks.len() {
            ranks[*node] = rank;
        }
    }
    Ok(ranks)
}

/// The nodes of a list, the last one first.
pub(crate) fn backwards(alloc: Global, nodes: &[usize]) -> Result<Vec<usize>, AllocError> {
    let mut found = Vec::with_capacity(alloc, nodes.len())?;
    for k in 0..nodes.len() {
        found.push(nodes[nodes.len() - 1 - k])?;
    }
    Ok(found)
}

/// The nodes of each list by their numbers, the least one first.
pub(crate) fn sorted_lists(
    alloc: Global,
    lists: &[Vec<u32>],
    numbers: &[usize],
) -> Result<Vec<Vec<usize>>, AllocError> {
    let mut sorted = Vec::with_capacity(alloc, lists.len())?;
    for list in lists {
        let mut keyed = Vec::with_capacity(alloc, list.len())?;
        for node in list {
            keyed.push((number_at(numbers, *node as usize), *node as usize))?;
        }
        keyed.sort()?;
        sorted.push(seconds(alloc, &keyed)?)?;
    }
    Ok(sorted)
}

// The second part of each pair.
fn seconds(alloc: Global, pairs: &[(usize, usize)]) -> Result<Vec<usize>, AllocError> {
    let mut found = Vec::with_capacity(alloc, pairs.len())?;
    for (_, second) in pairs {
        found.push(*second)?;
    }
    Ok(found)
}

// A walk from nodes to all that they wait for, which leaves a node behind those.
#[derive(Drop)]
struct Walk {
    met: Vec<bool>,
    // The nodes on the way, each with the place of the next one of its list.
    way: Vec<(usize, usize)>,
    left: Vec<usize>,
}

impl Walk {
    // Meets a node, unless the walk has met it.
    fn meet(&mut self, node: usize) -> Result<(), AllocError> {
        if node < self.met.len() && !self.met[node] {
            self.met[node] = true;
            self.way.push((node, 0))?;
        }
        Ok(())
    }

    // Goes on from the node at the end of the way, or leaves it.
    fn go_on(&mut self, lists: &[Vec<usize>], node: usize, next: usize) -> Result<(), AllocError> {
        if node < lists.len() && next < lists[node].len() {
            self.way.push((node, next.saturating_add(1)))?;
            let other = lists[node][next];
            return self.meet(other);
        }
        self.left.push(node)?;
        Ok(())
    }
}

/// The nodes as they are wished, each behind all nodes of its list. The first nodes of a list come first.
pub(crate) fn by_walk(
    alloc: Global,
    lists: &[Vec<usize>],
    wished: &[usize],
) -> Result<Vec<usize>, AllocError> {
    let mut walk = Walk {
        met: vec![in alloc; false; lists.len()]?,
        way: Vec::new(alloc),
        left: Vec::with_capacity(alloc, lists.len())?,
    };
    for node in wished {
        walk.meet(*node)?;
        for _ in 0..u64::MAX {
            let Some((node, next)) = walk.way.pop() else {
                break;
            };
            walk.go_on(lists, node, next)?;
        }
    }
    let Walk {
        met: _met,
        way: _way,
        left,
    } = walk;
    Ok(left)
}
