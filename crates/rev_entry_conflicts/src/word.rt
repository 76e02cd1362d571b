//! The words of an observation.
ghost use Rattle.std.specs.Prelude.{◌≡◌};
ghost use Rattle.rev_entry_conflicts.specs.Deeds.{is_of as is_of_word};

/// What a command did at an entry, as a line of an observation of version 2 says it.
#[derive(Clone, Copy, Debug, PartialEq, Eq)]
pub enum Word {
    /// It read the content.
    Read,
    /// It asked for what `stat` shows of a file.
    Status,
    /// It asked whether it may read, change or run the file.
    Mode,
    /// It asked in another way, and a file was there.
    There,
    /// It asked for the entry, and a folder was there; or it made an entry in this folder.
    Folder,
    /// It asked for the entry, or came to it on a way, and a link was there.
    Link,
    /// It asked for the entry, and nothing was there.
    Missing,
    /// It came to the entry on the way to one below it, and found a folder, or nothing.
    Passed,
    /// It read the names in this folder.
    Listed,
    /// It changed the entry before it first read the names of the folder that has it.
    Own,
    /// A program of it asked for this folder in order to search it.
    Searched,
    /// It looked at the entry after its own first change there.
    After,
    /// It made the file, emptied it, or put another in its place.
    Left,
    /// It changed a file that was there before, or may have been.
    Edited,
    /// It took away a file or a link.
    Taken,
    /// It made something there, and took it away again.
    Temp,
    /// It made a link, which is there at the end.
    Linked,
    /// It made a folder where nothing was.
    Made,
    /// It tried to make a folder, and one was there.
    Found,
    /// A program of it asked for this folder in order to make it where it is missing.
    Ensured,
    /// It took a folder away.
    Removed,
    /// Ninja made the folder before the command began, where it was missing.
    Prepared,
}

/// What words have in common.
#[derive(Clone, Copy, Debug, PartialEq, Eq)]
pub enum Act {
    /// The command leaves something or nothing at the entry.
    Leaves,
    /// What it leaves there is there at the end, or a file is gone.
    Stays,
    /// The folder is there from then on, and the command did not learn whether it was there before.
    Ensures,
    /// The command asks for the entry.
    Asks,
    /// It sees the content, or that nothing is there.
    Sees,
    /// It passes the entry on the way to one below it.
    Passes,
    /// It lists the folder.
    Lists,
    /// It changed the entry before it listed the folder that has it.
    Owns,
    /// Ninja ensured the folder before the command began.
    Began,
    /// It takes a folder away.
    Removes,
    /// It leaves a link.
    Links,
    /// It sees a link.
    SeesLink,
}

/// Whether a word says an act.
pub fn is_of(act: Act, word: Word) -> bool
    ensures { result ≡ is_of_word act word }
{
    match act {
        Act::Leaves => matches!(
            word,
            Word::Left | Word::Edited | Word::Taken | Word::Temp | Word::Linked | Word::Removed
        ),
        Act::Stays => matches!(word, Word::Left | Word::Edited | Word::Taken | Word::Linked),
        Act::Ensures => matches!(
            word,
            Word::Made | Word::Found | Word::Ensured | Word::Prepared
        ),
        Act::Asks => matches!(
            word,
            Word::Read
                | Word::Status
                | Word::Mode
                | Word::There
                | Word::Folder
                | Word::Link
                | Word::Missing
        ),
        Act::Sees => matches!(word, Word::Read | Word::Link | Word::Missing),
        Act::Passes => matches!(word, Word::Passed),
        Act::Lists => matches!(word, Word::Listed),
        Act::Owns => matches!(word, Word::Own),
        Act::Began => matches!(word, Word::Prepared),
        Act::Removes => matches!(word, Word::Removed),
        Act::Links => matches!(word, Word::Linked),
        Act::SeesLink => matches!(word, Word::Link),
    }
}
