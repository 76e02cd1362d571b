//! What is assumed where it is certain.

/// What is assumed where it is certain. Users are commands of the scene, and entries are those of the observation, all
/// by their numbers.
#[derive(Clone, Copy, Debug, PartialEq, Eq)]
pub enum Assumption {
    /// The build is of the targets that were recorded.
    Targets,
    /// A command that sees the same does the same.
    SeesTheSame,
    /// Several commands make one folder, and none of them asks which of them did. `rev_entry_conflicts::ensurers` has
    /// the commands.
    Ensured {
        /// The folder.
        entry: u32,
    },
    /// A command asks for the stamp of what another one leaves, and only the content matters to it. Or it asks for a
    /// folder in which others change entries, and only that the folder is there matters to it.
    Stamps {
        /// The file, or the folder.
        entry: u32,
        /// Who asks.
        user: u32,
    },
    /// A command lists a folder in which a command leaves or makes an entry, and the order of the names does not matter
    /// to it.
    Order {
        /// The folder.
        folder: u32,
        /// Who lists it.
        user: u32,
    },
    /// A command reads a cache, which answers as the command would without it.
    Cached {
        /// The folder of the cache.
        folder: u32,
        /// Who reads it.
        user: u32,
    },
    /// A filter hides an entry that a command leaves or makes.
    HiddenEntry {
        /// The entry.
        entry: u32,
    },
    /// Commands had to do with a device, or with a file of procfs or sysfs, and what it showed them does not matter.
    HiddenPlace {
        /// Its number among what the observation hides.
        number: u32,
    },
    /// Several entries were names of one file, and no command asks how many names the file has.
    Names {
        /// The number of the set among the observation's.
        number: u32,
    },
}
