//! Searches for the ways to a maker, over the orders against their direction.
use crate::walking::is_out;
use std::alloc::{AllocError, Global};
use std::mem;

// An order against its direction: who waits, and the place of the order in the list of that node.
#[derive(Clone, Copy)]
struct Back {
    user: u32,
    place: u32,
}

/// The way on from a node: the place of the order in its list, and the node to which it leads.
#[derive(Clone, Copy)]
struct Onward {
    place: u32,
    next: u32,
}

/// The orders of a build, and which of them are left out.
pub(crate) struct Kept {
    gone: Vec<Vec<bool>>,
    back: Vec<Vec<Back>>,
}

// Written, since a derived drop is proved again at each exit of each caller.
impl Drop for Kept {
    fn drop(self) {
        let Kept {
            gone: _gone,
            back: _back,
        } = self;
    }
}

impl Kept {
    /// All orders that may go are left out.
    ///
    /// # Errors
    /// [`AllocError`] only where an allocation was refused.
    pub(crate) fn new(
        alloc: Global,
        steps: &[Vec<u32>],
        may_go: &[Vec<bool>],
    ) -> Result<Kept, AllocError> {
        let mut gone = Vec::with_capacity(alloc, may_go.len())?;
        for marks in may_go {
            gone.push(Vec::from_slice(alloc, marks)?)?;
        }
        Ok(Kept {
            gone,
            back: back_of(alloc, steps)?,
        })
    }

    /// The marks of the orders that are left out.
    pub(crate) fn gone(&self) -> &[Vec<bool>] {
        &self.gone
    }

    /// The marks of the orders that are left out.
    pub(crate) fn into_gone(self) -> Vec<Vec<bool>> {
        let Kept { gone, back: _back } = self;
        gone
    }

    /// The order at a place of a node's list is left out, or stays.
    pub(crate) fn put(&mut self, node: u32, place: usize, is_out: bool) {
        if let Some(marks) = self.gone.get_mut(node as usize) {
            if let Some(mark) = marks.get_mut(place) {
                *mark = is_out;
            }
        }
    }

    /// A mark for each of some nodes and for all that wait for them, by all orders.
    ///
    /// # Errors
    /// [`AllocError`] only where an allocation was refused.
    pub(crate) fn waiting_for(
        &self,
        alloc: Global,
        nodes: &[u32],
    ) -> Result<Vec<bool>, AllocError> {
        let mut marks = vec![in alloc; false; self.back.len()]?;
        let mut open = Vec::new(alloc);
        for node in nodes {
            open_up(&mut marks, &mut open, *node)?;
        }
        for _ in 0..u64::MAX {
            let Some(node) = open.pop() else {
                break;
            };
            open_users(&self.back, node, &mut marks, &mut open)?;
        }
        Ok(marks)
    }
}

// The orders against their direction, for each node that is waited for.
fn back_of(alloc: Global, steps: &[Vec<u32>]) -> Result<Vec<Vec<Back>>, AllocError> {
    let mut back = Vec::with_capacity(alloc, steps.len())?;
    for _ in 0..steps.len() {
        back.push(Vec::new(alloc))?;
    }
    for (user, nexts) in steps.iter().enumerate() {
        add_back(&mut back, u32::try_from(user).unwrap_or(u32::MAX), nexts)?;
    }
    Ok(back)
}

// Adds the orders of a node.
fn add_back(back: &mut Vec<Vec<Back>>, user: u32, nexts: &[u32]) -> Result<(), AllocError> {
    for (place, next) in nexts.iter().enumerate() {
        if let Some(list) = back.get_mut(*next as usize) {
            list.push(Back {
                user,
                place: u32::try_from(place).unwrap_or(u32::MAX),
            })?;
        }
    }
    Ok(())
}

// Opens all that wait for a node directly.
fn open_users(
    back: &[Vec<Back>],
    node: u32,
    marks: &mut Vec<bool>,
    open: &mut Vec<u32>,
) -> Result<(), AllocError> {
    if let Some(list) = back.get(node as usize) {
        for one in list {
            open_up(marks, open, one.user)?;
        }
    }
    Ok(())
}

/// Gives a mark to a node, and opens it where it had none.
///
/// # Errors
/// [`AllocError`] only where an allocation was refused.
pub(crate) fn open_up(
    marks: &mut Vec<bool>,
    open: &mut Vec<u32>,
    node: u32,
) -> Result<(), AllocError> {
    let Some(mark) = marks.get_mut(node as usize) else {
        return Ok(());
    };
    if *mark {
        return Ok(());
    }
    *mark = true;
    open.push(node)?;
    Ok(())
}

/// A search from a maker to those who wait for it, by as few orders that are left out as can be. One search is used for
/// many makers, so that each of them costs what it finds alone.
pub(crate) struct Search {
    // For each node that was met the way on to the maker.
    onward: Vec<Option<Onward>>,
    // The nodes that were met.
    met: Vec<u32>,
    // The nodes that were met, and whose orders are still to be followed.
    open: Vec<u32>,
    // Orders that are left out and lead to a node that was met: by them one goes on once nothing is open.
    later: Vec<(u32, Onward)>,
    // A mark for each node that is sought and was not met yet, and how many these are.
    sought: Vec<bool>,
    missing: u64,
}

impl Drop for Search {
    fn drop(self) {
        let Search {
            onward: _onward,
            met: _met,
            open: _open,
            later: _later,
            sought: _sought,
            missing: _missing,
        } = self;
    }
}

impl Search {
    /// A search among so many nodes.
    ///
    /// # Errors
    /// [`AllocError`] only where an allocation was refused.
    pub(crate) fn new(alloc: Global, nodes: usize) -> Result<Search, AllocError> {
        Ok(Search {
            onward: vec![in alloc; None; nodes]?,
            met: Vec::new(alloc),
            open: Vec::new(alloc),
            later: Vec::new(alloc),
            sought: vec![in alloc; false; nodes]?,
            missing: 0,
        })
    }

    // Forgets what was found.
    fn clear(&mut self, alloc: Global) {
        for node in &self.met {
            if let Some(known) = self.onward.get_mut(*node as usize) {
                *known = None;
            }
        }
        self.met = Vec::new(alloc);
        self.open = Vec::new(alloc);
        self.later = Vec::new(alloc);
    }

    // Seeks some nodes, or no longer.
    fn seek(&mut self, nodes: &[u32], are_sought: bool) {
        self.missing = 0;
        for node in nodes {
            if let Some(mark) = self.sought.get_mut(*node as usize) {
                if are_sought && !*mark {
                    self.missing = self.missing.saturating_add(1);
                }
                *mark = are_sought;
            }
        }
    }

    // Whether a node was met. The maker itself counts as met by its first order only, which does no harm.
    fn is_met(&self, node: u32) -> bool {
        match self.onward.get(node as usize) {
            Some(onward) => onward.is_some(),
            None => true,
        }
    }

    // Counts a node that is sought.
    fn count(&mut self, node: u32) {
        if let Some(mark) = self.sought.get_mut(node as usize) {
            if *mark {
                *mark = false;
                self.missing = self.missing.saturating_sub(1);
            }
        }
    }

    // Meets a node.
    fn meet(&mut self, node: u32, onward: Onward) -> Result<(), AllocError> {
        if self.is_met(node) {
            return Ok(());
        }
        if let Some(known) = self.onward.get_mut(node as usize) {
            *known = Some(onward);
        }
        self.count(node);
        self.met.push(node)?;
        self.open.push(node)?;
        Ok(())
    }

    // Follows the orders that lead to a node.
    fn follow(&mut self, kept: &Kept, node: u32) -> Result<(), AllocError> {
        let Some(list) = kept.back.get(node as usize) else {
            return Ok(());
        };
        for back in list {
            let onward = Onward {
                place: back.place,
                next: node,
            };
            if is_out(&kept.gone, back.user, back.place as usize) {
                self.later.push((back.user, onward))?;
            } else {
                self.meet(back.user, onward)?;
            }
        }
        Ok(())
    }

    // Goes on by the orders that are left out.
    fn go_on(&mut self, alloc: Global) -> Result<(), AllocError> {
        let later = mem::replace(&mut self.later, Vec::new(alloc));
        for (node, onward) in &later {
            self.meet(*node, *onward)?;
        }
        Ok(())
    }

    // One step of the search: whether it goes on.
    fn step(&mut self, alloc: Global, kept: &Kept) -> Result<bool, AllocError> {
        if self.missing == 0 {
            return Ok(false);
        }
        match self.open.pop() {
            Some(node) => {
                self.follow(kept, node)?;
                Ok(true)
            }
            None => {
                self.go_on(alloc)?;
                Ok(!self.open.is_empty())
            }
        }
    }

    /// Seeks the ways to a maker from some users.
    ///
    /// # Errors
    /// [`AllocError`] only where an allocation was refused.
    pub(crate) fn find(
        &mut self,
        alloc: Global,
        kept: &Kept,
        maker: u32,
        users: &[u32],
    ) -> Result<(), AllocError> {
        self.clear(alloc);
        self.seek(users, true);
        self.follow(kept, maker)?;
        for _ in 0..u64::MAX {
            let goes_on = self.step(alloc, kept)?;
            if !goes_on {
                break;
            }
        }
        self.seek(users, false);
        Ok(())
    }

    /// Keeps the orders on the way from a node to the maker, where one was found.
    pub(crate) fn keep_way(&self, kept: &mut Kept, user: u32, maker: u32) {
        let mut node = user;
        for _ in 0..self.onward.len() {
            if node == maker {
                return;
            }
            match self.onward.get(node as usize).copied() {
                Some(Some(onward)) => {
                    kept.put(node, onward.place as usize, false);
                    node = onward.next;
                }
                _ => return,
            }
        }
    }
}
