//! Which waits of an edge another wait of the same edge brings with it.
use rev_graph::{Graph, edges_among};
use std::alloc::{AllocError, Global};

/// The edges that steps lead to from one edge.
#[derive(Drop)]
pub struct Reached {
    marks: Vec<bool>,
}

// Marks the edges that are not marked yet, and adds them to those whose steps are still to be followed.
fn add_open(edges: &[u32], marks: &mut [bool], open: &mut Vec<u32>) -> Result<(), AllocError> {
    for edge in edges {
        if let Some(mark) = marks.get_mut(*edge as usize) {
            if !*mark {
                *mark = true;
                open.push(*edge)?;
            }
        }
    }
    Ok(())
}

impl Reached {
    /// The edges that one step or more leads to from an edge. `steps` has for each edge those to which a step leads.
    ///
    /// # Errors
    /// [`AllocError`] only where an allocation was refused.
    pub fn new(alloc: Global, steps: &[Vec<u32>], from: u32) -> Result<Reached, AllocError> {
        let mut marks = vec![in alloc; false; steps.len()]?;
        let mut open = vec![in alloc; from]?;
        for _ in 0..usize::saturating_add(steps.len(), 1) {
            let Some(edge) = open.pop() else {
                return Ok(Reached { marks });
            };
            if let Some(next) = steps.get(edge as usize) {
                add_open(next, &mut marks, &mut open)?;
            }
        }
        Ok(Reached { marks })
    }

    /// Whether steps lead to an edge.
    pub fn has(&self, edge: u32) -> bool {
        self.marks.get(edge as usize).copied().unwrap_or(false)
    }
}

/// The edges that make inputs of each edge, by the kinds of inputs that count.
#[derive(Drop)]
pub struct Steps {
    // All but validations: an edge waits for these.
    all: Vec<Vec<u32>>,
    // Explicit and implicit inputs: where these change, Ninja runs the edge again.
    counted: Vec<Vec<u32>>,
}

/// A wait of an edge for the maker of an input.
#[derive(Clone, Copy, PartialEq, Eq, PartialOrd, Ord)]
pub struct WaitFor {
    /// The maker.
    pub maker: u32,
    /// Whether the input stands behind a `|`, so that Ninja runs the edge again where the input changes. Else it stands
    /// behind `||`.
    pub is_listed: bool,
}

/// What a wait brings with it.
#[derive(Drop)]
pub struct Brought {
    by: WaitFor,
    // What the maker waits for.
    waited: Reached,
    // What the maker runs again for.
    counted: Reached,
}

impl Steps {
    /// The steps of a graph.
    ///
    /// # Errors
    /// [`AllocError`] only where an allocation was refused.
    pub fn new(alloc: Global, graph: &Graph) -> Result<Steps, AllocError> {
        let mut all = Vec::new(alloc);
        let mut counted = Vec::new(alloc);
        for edge in 0..graph.edges() {
            all.push(edges_among(alloc, graph.producers(edge))?)?;
            counted.push(edges_among(alloc, graph.counted_producers(edge))?)?;
        }
        Ok(Steps { all, counted })
    }

    /// What a wait brings with it. It takes two searches of the graph.
    ///
    /// # Errors
    /// [`AllocError`] only where an allocation was refused.
    pub fn brought_by(&self, alloc: Global, by: WaitFor) -> Result<Brought, AllocError> {
        Ok(Brought {
            by,
            waited: Reached::new(alloc, &self.all, by.maker)?,
            counted: Reached::new(alloc, &self.counted, by.maker)?,
        })
    }
}

impl Brought {
    /// Whether another wait of the same edge is brought: its maker is one for which the maker of the wait waits. A wait
    /// behind a `|` is brought only by one behind a `|`, whose maker runs again for the other maker.
    pub fn has(&self, other: WaitFor) -> bool {
        if other.maker == self.by.maker {
            return false;
        }
        if other.is_listed {
            return self.by.is_listed && self.counted.has(other.maker);
        }
        self.waited.has(other.maker)
    }
}
