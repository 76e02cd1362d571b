//! What a certificate of a recorded build assures: one outcome under every schedule.
#![tactic(auto)]

pub mod laws;
