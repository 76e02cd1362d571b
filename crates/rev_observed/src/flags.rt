//! Why a command was not observed whole.
ghost use Rattle.std.specs.Prelude.{◌≡◌};
ghost use Rattle.rev_observed.specs.Flags.{is_whole};

/// Why a command was not observed whole. What its lines say happened all the same, and there may be more.
#[derive(Clone, Copy, Debug, PartialEq, Eq)]
pub struct Flags {
    /// A process of it was still running when Ninja ended, or when the observation did.
    pub cut: bool,
    /// It spoke to another process by a socket, and what that one did for it is not here.
    pub server: bool,
    /// It changed its root, its mounts or its namespaces, so that paths there may lead elsewhere.
    pub namespace: bool,
    /// It used io_uring, by which files can be opened unseen.
    pub uring: bool,
    /// A path of it could not be told.
    pub unresolved: bool,
    /// Another edge has the same command, and which of the two runs was whose is not certain.
    pub twin: bool,
}

impl Flags {
    /// Whether the command was observed whole: no flag is set.
    pub fn is_whole(self) -> bool
        ensures { result ≡ is_whole self }
    {
        !(self.cut || self.server || self.namespace || self.uring || self.unresolved || self.twin)
    }
}
