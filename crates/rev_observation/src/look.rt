//! How a command looked at an entry, and how it changed one.
ghost use Rattle.std.specs.Prelude.{◌≡◌};
ghost use Rattle.rev_observation.specs.Deeds.{change_rank, look_rank};

/// How a command looked at an entry. The looks stand in the order of their lines.
#[derive(Clone, Copy, Debug, PartialEq, Eq)]
pub enum Look {
    /// It read the content: opened the file to read, ran it, loaded it, made another name for it, or renamed it.
    Read,
    /// It asked for what `stat` shows of a file.
    Status,
    /// It asked whether it may read, change or run the file.
    Mode,
    /// It asked in another way, and a file was there.
    There,
    /// It asked for the entry, and a folder was there; or it made an entry in this folder.
    Folder,
    /// It asked for the entry, or came to it on a way, and a link to the line's text was there.
    Link,
    /// It asked for the entry, and nothing was there.
    Missing,
    /// It came to the entry on the way to one below it, and found a folder, or nothing.
    Passed,
    /// It read the names in this folder.
    Listed,
    /// It changed these entries of listed folders before it first read the folder's names.
    Own,
    /// It had the program of the line's text ask for this folder in order to search it.
    Searched,
    /// It looked at the entry after its own first change there.
    After,
}

/// How a command changed an entry. The changes stand in the order of their lines.
#[derive(Clone, Copy, Debug, PartialEq, Eq)]
pub enum Change {
    /// It made the file, emptied it, or put another in its place; the file is there at the end.
    Left,
    /// It changed content or mode of a file that was there before, or may have been; the file is there at the end.
    Edited,
    /// It took away a file or a link that was there before.
    Taken,
    /// It made a file, a link or a folder there, and took it away again.
    Temps,
    /// It made a link to the line's text, which is there at the end.
    Linked,
    /// It made a folder where nothing was; the folder is there at the end.
    Made,
    /// It tried to make a folder, and one was there.
    Found,
    /// It had the program of the line's text ask for this folder in order to make it where it is missing.
    Ensured,
    /// It took a folder away that was there before, or renamed it.
    Removed,
}

impl Look {
    /// The place of the look among the twelve, from 0.
    pub fn rank(self) -> u8
        ensures { result ≡ look_rank self }
    {
        self as u8
    }
}

impl Change {
    /// The place of the change among the nine, from 0.
    pub fn rank(self) -> u8
        ensures { result ≡ change_rank self }
    {
        self as u8
    }
}
