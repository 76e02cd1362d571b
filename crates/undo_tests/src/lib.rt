//! The tests of the crates that undo, of what no run of a program shows: the theory's registers, the lists of histories,
//! how often they write, and the sentence about a lane that stopped. What a run shows is in tests/reports.
//!
//! They stand in a crate of their own because a crate's tests are proved together with the crate: here, nothing but the
//! tests is proved, over libraries that are.
#![tactic(auto)]

#[cfg(test)]
mod builds;
#[cfg(test)]
mod histories;
#[cfg(test)]
mod registers;
#[cfg(test)]
mod sentences;
