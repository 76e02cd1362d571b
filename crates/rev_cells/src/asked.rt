//! Cells as they are looked up.
ghost use Rattle.std.proofs.Common.{ap};
ghost use Rattle.rev_cells.specs.Asked.{asked_cell};
ghost use Rattle.rev_cells.specs.Same.{cell_eq, cell_eq-exact, cell_eq_equiv};
ghost use Rattle.rev_cells.specs.declared.asked.Asked.TheVariants as asked;
ghost use Rattle.rev_cells.specs.declared.cell.Cell.TheVariants as cell;

use crate::cell::Cell;
use indexmap::Equivalent;
use rev_paths::Name;
use std::hash::Hash;

/// A cell as it is looked up: by a borrowed path, which is not copied for it.
#[derive(Clone, Copy, PartialEq, Eq, Hash)]
pub(crate) enum Asked<'a> {
    /// As [`Cell::Stamp`].
    Stamp(&'a Name),
    /// As [`Cell::Mark`].
    Mark(u32),
    /// As [`Cell::Job`].
    Job(u32),
    /// As [`Cell::Slot`].
    Slot(u32, u32),
    /// As [`Cell::Depth`].
    Depth(u32),
    /// As [`Cell::Built`].
    Built(&'a Name),
    /// As [`Cell::Deps`].
    Deps(&'a Name),
    /// As [`Cell::Halted`].
    Halted,
}

impl Equivalent<Cell> for Asked<'_> {
    ghost equivalent = { λ query. cell_eq (asked_cell query) };

    // Each is hashed as the cell that it asks for.
    ghost respects_hash = { elim [
      | asked.Stamp path ↦ λ other same. ap ⟦<Cell as Hash>⟧.hash_input (cell_eq-exact (cell.Stamp path.now) other same)
      | asked.Mark edge ↦ λ other same. ap ⟦<Cell as Hash>⟧.hash_input (cell_eq-exact (cell.Mark edge) other same)
      | asked.Job job ↦ λ other same. ap ⟦<Cell as Hash>⟧.hash_input (cell_eq-exact (cell.Job job) other same)
      | asked.Slot pool place ↦ λ other same. ap ⟦<Cell as Hash>⟧.hash_input (cell_eq-exact (cell.Slot pool place) other same)
      | asked.Depth pool ↦ λ other same. ap ⟦<Cell as Hash>⟧.hash_input (cell_eq-exact (cell.Depth pool) other same)
      | asked.Built path ↦ λ other same. ap ⟦<Cell as Hash>⟧.hash_input (cell_eq-exact (cell.Built path.now) other same)
      | asked.Deps path ↦ λ other same. ap ⟦<Cell as Hash>⟧.hash_input (cell_eq-exact (cell.Deps path.now) other same)
      | asked.Halted ↦ λ other same. ap ⟦<Cell as Hash>⟧.hash_input (cell_eq-exact cell.Halted other same)
    ] };

    ghost respects_eq = { λ query. cell_eq_equiv.congr (asked_cell query) };

    fn equivalent(&self, cell: &Cell) -> bool {
        match (*self, cell) {
            (Asked::Stamp(path), Cell::Stamp(other)) => *path == *other,
            (Asked::Mark(edge), Cell::Mark(other)) => edge == *other,
            (Asked::Job(job), Cell::Job(other)) => job == *other,
            (Asked::Slot(pool, place), Cell::Slot(other, at)) => pool == *other && place == *at,
            (Asked::Depth(pool), Cell::Depth(other)) => pool == *other,
            (Asked::Built(path), Cell::Built(other)) => *path == *other,
            (Asked::Deps(path), Cell::Deps(other)) => *path == *other,
            (Asked::Halted, Cell::Halted) => true,
            _ => false,
        }
    }
}
