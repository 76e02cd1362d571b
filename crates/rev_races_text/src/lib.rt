//! The answer about a build's races, in words and as JSON.
#![tactic(auto)]

mod counts;
mod edges;
mod failed;
mod here;
mod ids;
mod json;
mod left_out;
mod names;
mod others;
mod race;
mod report;
mod words;

pub use counts::{Counted, Seen, Tally};
pub use edges::{Edge, LineIf, Sources, push_edge, push_made, push_placed};
pub use failed::{Failure, Printed, Remainder, Replayed, Suspect};
pub use here::HereLine;
pub use json::{happened_word, push_object, push_object_by};
pub use left_out::{Hidden, LeftOut};
pub use names::{Made, NameIf, Shown, Text, Written, WrittenIf};
pub use others::{Change, Clash, ClashLine, Hint, push_clash};
pub use race::{Evidence, ListedBefore, MendLine, More, NO_MEND, RaceFinding, Through};
pub use report::{Report, SOMETHING, UNKNOWN};
pub use rev_baseline::Id;
pub use rev_clashes::SideFile;
pub use rev_races::{Happened, Kind, Run, Story};
pub use rev_suspects::{Basis, Progress};
pub use words::race_words;
