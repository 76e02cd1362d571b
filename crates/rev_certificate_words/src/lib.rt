//! What stands in the way of a certificate and what it assumes, in words and as JSON.
#![tactic(auto)]

mod assumed;
mod causes;
mod kinds;
mod named;
mod objects;
mod standing;

pub use assumed::assumption_words;
pub use causes::flag_words;
pub use kinds::{assumption_kind, conflict_kind, obstacle_kind};
pub use named::{Actor, Named};
pub use objects::{AssumedObject, WayObject, assumption_object, obstacle_object};
pub use standing::obstacle_words;
