//! One answer.

/// What a conflict says of two commands and an entry.
#[derive(Clone, Copy, Debug, PartialEq, Eq)]
pub enum Kind {
    /// Both leave something at the entry, and neither waits for the other.
    Clash,
    /// The user looks at a file that the maker leaves or takes away, and neither waits for the other.
    Race,
    /// The user looks at a folder that the maker makes or takes away, or makes one that the maker takes away, and
    /// neither waits for the other.
    Folder,
    /// The user passes or looks at a link that the maker makes, changes or takes away, and neither waits for the other.
    Link,
    /// The user looks at an output of the maker, and the maker waits for the user: no order mends it.
    Cycle,
    /// The maker waits for the user, and changes what the user saw: the next build shows the user another file.
    Unstable,
}

/// Two commands conflict.
#[derive(Clone, Copy, Debug, PartialEq, Eq)]
pub struct Conflict {
    /// How.
    pub kind: Kind,
    /// The number of the maker's command.
    pub made_by: u32,
    /// The number of the user's command.
    pub used_by: u32,
    /// The first entry at which the two conflict so.
    pub entry: u32,
    /// How many more such entries there are.
    pub others: u32,
}
