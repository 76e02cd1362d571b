//! The outputs of a build line.
ghost use Rattle.std.specs.Prelude.{◌<◌, ◌+◌, length};

use crate::text::Text;

/// The outputs of a build line, which has at least one.
#[derive(Drop)]
pub(crate) struct Outputs<'a> {
    /// Those before `|`.
    pub(crate) outs: Vec<Text<'a>>,
    /// Those after `|`.
    pub(crate) implicit_outs: Vec<Text<'a>>,
    /// What follows the colon and its spaces.
    pub(crate) rest: &'a [u8],
    // There is an output.
    ghost has_output: { 0 < length outs.items + length implicit_outs.items },
}
