//! The pairs of commands that some orders have left.
use crate::bits::Bits;
use crate::making::{is_set, number_at};
use crate::order::Order;
use std::alloc::{AllocError, Global};

/// The pairs that some orders have left. The commands are numbered as they stand in the first order.
pub(crate) struct Rest {
    // The commands by their numbers.
    commands: Vec<usize>,
    // For each node its number, if it is a command.
    numbers: Vec<Option<usize>>,
    // For each command those before it that it does not wait for, and that stood before it in each order.
    rows: Vec<Bits>,
    left: usize,
}

// Written, since a derived drop is proved again at each exit of each caller.
impl Drop for Rest {
    fn drop(self) {
        let Rest {
            commands: _commands,
            numbers: _numbers,
            rows: _rows,
            left: _left,
        } = self;
    }
}

/// For each command how many pairs wait for it to come before an earlier one, and how many for it to come behind a later
/// one.
#[derive(Drop)]
pub(crate) struct Wishes {
    pub(crate) earlier: Vec<usize>,
    pub(crate) later: Vec<usize>,
}

// The number of a command. A node that is none has no number.
fn number_of(numbers: &[Option<usize>], node: usize) -> Option<usize> {
    if node < numbers.len() {
        numbers[node]
    } else {
        None
    }
}

// The commands as they stand in an order.
fn commands_in(alloc: Global, nodes: &[usize], marks: &[bool]) -> Result<Vec<usize>, AllocError> {
    let mut commands = Vec::new(alloc);
    for node in nodes {
        if is_set(marks, *node) {
            commands.push(*node)?;
        }
    }
    Ok(commands)
}

// For each node its place among the commands, if it is one.
fn numbers_of(
    alloc: Global,
    commands: &[usize],
    nodes: usize,
) -> Result<Vec<Option<usize>>, AllocError> {
    let mut numbers = vec![in alloc; None; nodes]?;
    for (number, node) in commands.iter().enumerate() {
        if *node < numbers.len() {
            numbers[*node] = Some(number);
        }
    }
    Ok(numbers)
}

// Adds a node that is waited for, with all that it waits for.
fn add_waited(
    row: &mut Bits,
    node: usize,
    places: &[usize],
    numbers: &[Option<usize>],
    waited: &[Bits],
) {
    let place = number_at(places, node);
    if place < waited.len() {
        row.add_all(&waited[place]);
    }
    if let Some(number) = number_of(numbers, node) {
        row.add(number);
    }
}

// For each place of an order the commands that its node waits for.
fn waited_rows(
    alloc: Global,
    successors: &[Vec<u32>],
    first: &Order,
    numbers: &[Option<usize>],
) -> Result<Vec<Bits>, AllocError> {
    let mut waited = Vec::with_capacity(alloc, first.nodes().len())?;
    let mut before = 0usize;
    for node in first.nodes() {
        let mut row = Bits::below(alloc, before)?;
        if *node < successors.len() {
            for other in &successors[*node] {
                add_waited(&mut row, *other as usize, first.places(), numbers, &waited);
            }
        }
        if number_of(numbers, *node).is_some() {
            before = before.saturating_add(1);
        }
        waited.push(row)?;
    }
    Ok(waited)
}

// For each command those before it that it does not wait for.
fn unordered_rows(
    alloc: Global,
    waited: Vec<Bits>,
    nodes: &[usize],
    numbers: &[Option<usize>],
) -> Result<Vec<Bits>, AllocError> {
    let mut rows = Vec::with_capacity(alloc, nodes.len())?;
    let mut place = 0usize;
    for row in waited {
        let mut row = row;
        if let Some(number) = number_of(numbers, number_at(nodes, place)) {
            row.invert(number);
            rows.push(row)?;
        }
        place = place.saturating_add(1);
    }
    Ok(rows)
}

// How many numbers all rows have.
fn sum_of(rows: &[Bits]) -> usize {
    let mut sum = 0usize;
    for row in rows {
        sum = sum.saturating_add(row.len());
    }
    sum
}

impl Rest {
    /// The pairs that a first order leaves: all that are unordered.
    ///
    /// # Errors
    /// [`AllocError`] only where an allocation was refused.
    pub(crate) fn of(
        alloc: Global,
        successors: &[Vec<u32>],
        marks: &[bool],
        first: &Order,
    ) -> Result<Rest, AllocError> {
        let commands = commands_in(alloc, first.nodes(), marks)?;
        let numbers = numbers_of(alloc, &commands, successors.len())?;
        let waited = waited_rows(alloc, successors, first, &numbers)?;
        let rows = unordered_rows(alloc, waited, first.nodes(), &numbers)?;
        let left = sum_of(&rows);
        Ok(Rest {
            commands,
            numbers,
            rows,
            left,
        })
    }

    /// The commands as they stand in the first order.
    pub(crate) fn commands(&self) -> &[usize] {
        &self.commands
    }

    /// How many pairs are left.
    pub(crate) fn left(&self) -> usize {
        self.left
    }

    /// How many pairs would be left behind an order that has its nodes as they stand in a list.
    ///
    /// # Errors
    /// [`AllocError`] only where an allocation was refused.
    pub(crate) fn left_with(&self, alloc: Global, nodes: &[usize]) -> Result<usize, AllocError> {
        let mut passed = Bits::below(alloc, self.commands.len())?;
        let mut left = 0usize;
        for node in nodes {
            if let Some(number) = number_of(&self.numbers, *node) {
                if number < self.rows.len() {
                    left = left.saturating_add(self.rows[number].common(&passed));
                }
                passed.add(number);
            }
        }
        Ok(left)
    }

    /// Takes the pairs that an order has the other way round.
    ///
    /// # Errors
    /// [`AllocError`] only where an allocation was refused.
    pub(crate) fn take(&mut self, alloc: Global, nodes: &[usize]) -> Result<(), AllocError> {
        let mut passed = Bits::below(alloc, self.commands.len())?;
        for node in nodes {
            if let Some(number) = number_of(&self.numbers, *node) {
                if number < self.rows.len() {
                    self.rows[number].keep(&passed);
                }
                passed.add(number);
            }
        }
        self.left = sum_of(&self.rows);
        Ok(())
    }

    /// What the pairs that are left wait for.
    ///
    /// # Errors
    /// [`AllocError`] only where an allocation was refused.
    pub(crate) fn wishes(&self, alloc: Global) -> Result<Wishes, AllocError> {
        let mut earlier = Vec::with_capacity(alloc, self.rows.len())?;
        let mut later = vec![in alloc; 0; self.rows.len()]?;
        for row in &self.rows {
            earlier.push(row.len())?;
            row.count_into(&mut later);
        }
        Ok(Wishes { earlier, later })
    }
}
