//! Stretches of time.

/// A stretch of time.
#[derive(Clone, Copy, Debug, PartialEq, Eq)]
pub struct Span {
    /// When it begins, in milliseconds.
    pub from: u32,
    /// When it ends, in milliseconds.
    pub to: u32,
}
