//! Questions about a recorded build, and what they are answered, by numbers of events.
#![tactic(auto)]

mod advance;
mod answers;
mod causes;
mod commands;
mod each;
mod events;
mod found;
pub mod laws;
mod line;
mod listings;
mod past;
mod patterns;
mod queries;
mod query;
mod question;
mod reasons;
mod session;
mod spans;
mod users;

pub use answers::{
    Answer, Because, Deed, Needs, Readers, Span, Step, Tally, Wait, Way, Writers, has_answer,
};
pub use commands::would_cone;
pub use each::asked_each;
pub use found::{EdgeFound, Found, Rebuilt};
pub use line::{LineFault, texts_of};
pub use past::state_by;
pub use patterns::{Several, outputs_meant};
pub use query::Query;
pub use question::{EventName, Question, Reach, question_of};
pub use reasons::input_at;
pub use rev_held::Link;
pub use rev_history::Order;
pub use rev_looked::{Naming, Need, Site, User};
pub use rev_observed::Kind;
pub use rev_order_text::Ordered;
pub use rev_queries::{Chain, Place, Reading, Timed, time_at};
pub use session::{Reply, Session, answer_to, asked, only_asks};
