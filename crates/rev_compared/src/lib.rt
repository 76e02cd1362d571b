//! Two recorded builds side by side.
#![tactic(auto)]

mod alone;
mod differences;
mod earlier;
mod inverted;
mod lasts;
mod matching;
mod pairing;
mod sought;
mod statements;

pub use alone::{Moment, finished_alone, last_at, ran_alone, twin_at};
pub use differences::{Differences, compare_runs, end_of, stamps_of};
pub use earlier::made_earlier;
pub use inverted::first_inverted;
pub use lasts::{Ending, Last, last_runs, last_runs_before};
pub use matching::matched;
pub use pairing::{twin, twins};
pub use statements::{Changes, compare_statements, same_pools};
