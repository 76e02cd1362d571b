//! A lane for each span.
ghost use Rattle.std.specs.Prelude.{◌≡◌, ◌<◌, ◌≤◌, ℕ, length, slice_index, IfOk, IfSome, OnOk};
ghost use Rattle.rev_lanes.specs.Lanes.{AreApart, AreWithin};

use crate::span::Span;
use std::alloc::{AllocError, Global};
use std::cmp::Reverse;
use std::collections::BinaryHeap;

/// The lanes of some spans.
#[derive(Drop)]
pub struct Lanes {
    /// The lane of each span, from 0.
    pub of: Vec<usize>,
    /// How many lanes there are.
    pub count: usize,
}

// The lanes as they are filled. `free` and `busy` only help to find a lane fast: whether a lane is free its end says.
#[derive(Drop)]
struct Filled {
    // The end of the last span of each lane.
    ends: Vec<u32>,
    // Lanes that are free, the least one at the top.
    free: BinaryHeap<Reverse<usize>>,
    // The other lanes with their ends, the first to end at the top.
    busy: BinaryHeap<Reverse<(u32, usize)>>,
}

impl Filled {
    // Moves the lanes that have ended by a time to those that are free.
    fn release(&mut self, time: u32) -> Result<(), AllocError>
        ensures { self.new.ends ≡ self.old.ends }
    {
        for _ in 0..self.busy.len() {
            match self.busy.peek() {
                Some(Reverse((end, _))) if *end <= time => {}
                _ => break,
            }
            if let Some(Reverse((_, lane))) = self.busy.pop() {
                self.free.push(Reverse(lane))?;
            }
        }
        Ok(())
    }

    // The least lane that is free at a time.
    fn take_free(&mut self, time: u32) -> Option<usize>
        ensures ends { self.new.ends ≡ self.old.ends }
        ensures free { IfSome result (λ lane. lane < length self.old.ends.items) }
        ensures ended { IfSome result (λ lane. slice_index self.old.ends.items lane ≤ time) }
    {
        let Reverse(lane) = self.free.pop()?;
        if lane < self.ends.len() && self.ends[lane] <= time {
            return Some(lane);
        }
        None
    }

    // Sets the end of a lane.
    fn extend(&mut self, lane: usize, to: u32) -> Result<(), AllocError>
        requires { lane < length self.old.ends.items }
        ensures count { OnOk result (length self.new.ends.items ≡ length self.old.ends.items) }
        ensures end { OnOk result (to ≤ slice_index self.new.ends.items lane) }
        ensures others { OnOk result ((k : ℕ) → k < length self.old.ends.items
            → slice_index self.old.ends.items k ≤ slice_index self.new.ends.items k) }
    {
        let end = self.ends[lane];
        let end = if end < to { to } else { end };
        self.ends[lane] = end;
        self.busy.push(Reverse((end, lane)))?;
        Ok(())
    }

    // Puts a span into the least lane that is free when it begins, or into one more lane, and gives the lane.
    fn put(&mut self, span: Span) -> Result<usize, AllocError>
        ensures lane { IfOk result (λ lane. lane < length self.new.ends.items) }
        ensures free { IfOk result (λ lane. lane < length self.old.ends.items
            → slice_index self.old.ends.items lane ≤ span.from) }
        ensures end { IfOk result (λ lane. span.to ≤ slice_index self.new.ends.items lane) }
        ensures count { OnOk result (length self.old.ends.items ≤ length self.new.ends.items) }
        ensures others { OnOk result ((k : ℕ) → k < length self.old.ends.items
            → slice_index self.old.ends.items k ≤ slice_index self.new.ends.items k) }
    {
        self.release(span.from)?;
        let lane = match self.take_free(span.from) {
            Some(lane) => lane,
            None => {
                let lane = self.ends.len();
                self.ends.push(span.to)?;
                lane
            }
        };
        self.extend(lane, span.to)?;
        Ok(lane)
    }
}

/// A lane for each span, in the order of the spans. Of two spans of one lane the one that is listed first ends before the
/// other one begins. A span that begins while all lanes are busy opens a lane; so where the spans are listed in the
/// order of their beginnings, there are as many lanes as spans are side by side at some moment.
///
/// # Errors
/// [`AllocError`] only where an allocation was refused.
pub fn lanes_of(alloc: Global, spans: &[Span]) -> Result<Lanes, AllocError>
    ensures each { IfOk result (λ lanes. length lanes.of.items ≡ length spans.now) }
    ensures within { IfOk result (λ lanes. AreWithin lanes.count lanes.of.items) }
    ensures apart { IfOk result (λ lanes. AreApart spans.now lanes.of.items) }
{
    let mut filled = Filled {
        ends: Vec::new(alloc),
        free: BinaryHeap::new(alloc),
        busy: BinaryHeap::new(alloc),
    };
    let mut of = Vec::new(alloc);
    for span in spans {
        of.push(filled.put(*span)?)?;
    }
    Ok(Lanes {
        of,
        count: filled.ends.len(),
    })
}
