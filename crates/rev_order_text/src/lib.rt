//! What another order of events makes, and the line that the script's word `order` writes of it.
#![tactic(auto)]

mod ordered;
mod orders;

pub use ordered::{Ordered, run_in_order};
pub use orders::order_text;
