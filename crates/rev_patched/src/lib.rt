//! Manifests to which order-only inputs were added, to mend a race or to make it happen.
#![tactic(auto)]

mod amended;
mod amending;
mod check;
pub mod laws;
mod orders;
mod patching;
mod provoking;
mod same;
mod spots;

pub use amending::{Amendments, amendments_for};
pub use check::is_patched;
pub use orders::{Order, writable_output};
pub use patching::patch_for;
pub use provoking::{Provoked, provoke};
