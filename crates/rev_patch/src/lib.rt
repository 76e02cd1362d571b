//! Patches of manifests: order-only inputs added to build statements, in the form of `diff -u`.
#![tactic(auto)]

mod changes;
mod hunks;
mod lines;
mod made_by;
mod statement;

pub use changes::{Addition, Change, changed_text, changes_of, is_written};
pub use hunks::patch_text;
pub use made_by::{Author, author_of};
