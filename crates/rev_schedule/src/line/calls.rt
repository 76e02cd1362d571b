//! What a line is asked.
ghost use Rattle.std.specs.Prelude.{[], ◌≡◌, ◌∷◌, length, MatchOption, OnOk};
ghost use Rattle.std.specs.List.Sorted.{IsPermutation};
ghost use Rattle.rev_schedule.specs.Turns.{IsFirst};
ghost use Rattle.rev_schedule.specs.Lines.{line_items};

use crate::line::Line;
use std::alloc::{AllocError, Global};
use std::cmp::Reverse;
use std::collections::BinaryHeap;

impl Line {
    pub(crate) fn new(alloc: Global) -> Line
        ensures { line_items result ≡ [] }
    {
        Line {
            heap: BinaryHeap::new(alloc),
        }
    }

    pub(crate) fn len(&self) -> usize
        ensures { result ≡ length (line_items self.now) }
    {
        self.heap.len()
    }

    pub(crate) fn add(&mut self, turn: (u64, u32)) -> Result<(), AllocError>
        ensures { OnOk result (IsPermutation (turn ∷ line_items self.old) (line_items self.new)) }
    {
        self.heap.push(Reverse(turn))?;
        Ok(())
    }

    /// Takes the first one, if there is one.
    pub(crate) fn take(&mut self) -> Option<(u64, u32)>
        ensures { MatchOption result
            ((line_items self.old ≡ []) × (line_items self.new ≡ []))
            (λ turn. IsFirst turn (line_items self.old) (line_items self.new)) }
    {
        match self.heap.pop() {
            None => None,
            Some(Reverse(turn)) => Some(turn),
        }
    }
}
