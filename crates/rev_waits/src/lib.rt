//! Which edges wait for which, which edges make a path, and what orders two edges.
#![tactic(auto)]

mod making;
mod mending;
mod waiting;

pub use making::{makers, phony_steps};
pub use mending::mend;
pub use waiting::{steps, waited_for};
