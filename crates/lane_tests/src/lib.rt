//! The tests of lanes on threads, each through what is public: lanes that hold one another by gates, wait for one
//! another, undo what others did, and are closed.
//!
//! They stand in a crate of their own because a crate's tests are proved together with the crate: here, nothing but the
//! tests is proved, over libraries that are.
#![tactic(auto)]

#[cfg(test)]
mod builds;
#[cfg(test)]
mod chain;
#[cfg(test)]
mod closing;
#[cfg(test)]
mod gates;
#[cfg(test)]
mod meetings;
#[cfg(test)]
mod threads;
#[cfg(test)]
mod turns;
