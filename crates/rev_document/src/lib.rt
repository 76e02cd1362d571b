//! Documents: what an answer says, as parts in their order, before it becomes words or JSON.
#![tactic(auto)]

mod bytes;
mod level;
mod part;
mod writer;

pub use bytes::Bytes;
pub use level::{Level, Shape, To};
pub use part::{Part, Place, Tone, Value};
pub use writer::{Document, Writer};
