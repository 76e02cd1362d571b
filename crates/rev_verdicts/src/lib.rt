//! What is answered of findings, in the form that the user asks for.
#![tactic(auto)]

mod answering;
mod certifying;
mod counting;
mod forms;
mod judging;
mod leaving;
mod objects;
mod outdated;
mod reported;
mod stating;

pub use answering::{Answer, Written};
pub use certifying::{CertificateAnswer, Found, Wish, certified, found_in, trust_in};
pub use forms::Form;
pub use leaving::{Choice, Leaving};
pub use reported::written_report;
