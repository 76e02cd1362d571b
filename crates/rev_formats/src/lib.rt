//! Findings in the formats that continuous integration reads, and as a baseline.
#![tactic(auto)]

mod annotations;
mod cases;
mod escapes;
mod item;
mod known;
mod results;

pub use annotations::github;
pub use cases::junit;
pub use escapes::{push_json, push_message, push_property, push_uri, push_xml};
pub use item::Item;
pub use known::baseline;
pub use results::sarif;
