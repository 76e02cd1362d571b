//! One outcome of the histories of a build, in a world with folders and links.
#![tactic(auto)]

pub mod laws;
