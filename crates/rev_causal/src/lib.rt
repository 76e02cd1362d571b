//! The causal theory of undo: what it is for an event to depend on another, and what follows of undoing, redoing and
//! reordering events. It is proved once for every machine whose events ask and change only the cells of their
//! footprints.
//!
//! The theory is in `specs/`, and its proofs in `proofs/`; they know nothing of builds.
//!
//! - `Machine`: states, cells, events; an event's refusal, effect and footprint in a state; `IsLocal`, which is all
//!   that the theory rests on: what an event asks and does depends on the cells of its footprint alone.
//! - `Store`: a machine made from a table of events over a finite map of cells, and `IsLocalTable`, `IsLocalEvent`,
//!   what such a table, or one kind of event, owes.
//! - `History`: undo, redo and the cone by number, over lists in rising number.
//! - `Entries` and `Order`: equivalent lists, the cone as a least set.
//! - `OrderCheck`: whether two histories of the same events are equivalent.
//! - `Laws`: every law as a type, with its sentence.
//!
//! A contract cannot range over all machines, so the laws are contracts at one small machine, [`registers`]: the
//! functions of [`registers::laws`]. A crate with a machine of its own cites the same proofs at it.
#![tactic(auto)]

pub mod registers;
