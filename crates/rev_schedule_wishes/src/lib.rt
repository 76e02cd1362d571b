//! What is asked of schedules, and the Ninja that ran a build: both read from texts.
#![tactic(auto)]

mod ninja;
mod wishes;

pub use ninja::{Ninja, Order, ninja_in};
pub use wishes::{
    Factor, Faster, PoolDepth, Waiting, WaitingFault, WishFault, faster_in, jobs_in, pool_in,
    sooner, waits_in,
};
