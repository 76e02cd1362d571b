//! What a command did with paths, by kinds.
ghost use Rattle.std.specs.Prelude.{◌≡◌};
ghost use Rattle.rev_observed.specs.Kinds.{rank_of};

/// What a command did with a path. The kinds stand in the order of their lines.
#[derive(Clone, Copy, Debug, PartialEq, Eq)]
pub enum Kind {
    /// It read the content, ran it, made another name for it, or renamed it away, before it had written it itself.
    Reads,
    /// It asked only whether the path is there, or for its stamp.
    Stats,
    /// It asked for the path, which was not there.
    Misses,
    /// It read the entries of this folder.
    Lists,
    /// It made, emptied or changed what is there as the command ends.
    Writes,
    /// It opened what is there to change it without emptying it.
    Edits,
    /// It took away what it had not made.
    Deletes,
    /// It made the path, and took it away again.
    Temps,
    /// It made this folder, which is there as the command ends.
    Folders,
}

impl Kind {
    /// The place of the kind among the nine, from 0.
    pub fn rank(self) -> u8
        ensures { result ≡ rank_of self }
    {
        self as u8
    }
}
