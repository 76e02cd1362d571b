//! The paths of a build line.
ghost use Rattle.std.specs.Prelude.{◌<◌, ◌++◌, length, bytes_eq};
ghost use Rattle.std.specs.List.{IsDistinct, IsDistinct-prop};

use rev_paths::Name;

/// The canonical paths of a build line.
#[derive(Drop)]
pub(crate) struct EdgePaths {
    /// The outputs before `|`, each once.
    pub(crate) outs: Vec<Name>,
    /// The outputs after `|` that are none of those, each once.
    pub(crate) implicit_outs: Vec<Name>,
    /// The inputs before `|`.
    pub(crate) ins: Vec<Name>,
    /// The inputs after `|`.
    pub(crate) implicit: Vec<Name>,
    /// The inputs after `||`.
    pub(crate) order_only: Vec<Name>,
    /// The paths after `|@`.
    pub(crate) validations: Vec<Name>,
    // There is an output, and none stands twice.
    ghost has_output: { 0 < length (outs.items ++ implicit_outs.items) },
    ghost once: { IsDistinct bytes_eq (outs.items ++ implicit_outs.items) } by { IsDistinct-prop bytes_eq (outs.items ++ implicit_outs.items) },
}
