//! Whether a recorded build is certain: what its readers give a certificate, which flags a user takes out of the way,
//! and the only way to the word.
#![tactic(auto)]

mod certainty;
mod judging;
mod known;
mod needing;
mod races;
mod saying;

pub use certainty::{Beside, Certainty, is_refused};
pub use judging::{Judged, Trusted, judge};
pub use known::{Known, certificate_of, known_of};
pub use needing::{idle_edges, last_targets, needed_edges};
pub use races::{is_named, unhidden};
pub use saying::{certificate_line, first_lines};
