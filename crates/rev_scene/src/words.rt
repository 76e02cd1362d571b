//! What the words of an observation are called in a scene.
ghost use Rattle.std.specs.Prelude.{◌≡◌};
ghost use Rattle.rev_scene.specs.Lines.{change_word as change_word_of, look_word as look_word_of, ninja_change as ninja_change_of, ninja_word as ninja_word_of, word_of as word_of_deed};

use rev_entry_conflicts::Word;
use rev_observation::{Change, Deed, Look};

// The word of a look.
fn look_word(look: Look) -> Word
    ensures { result ≡ look_word_of look }
{
    match look {
        Look::Read => Word::Read,
        Look::Status => Word::Status,
        Look::Mode => Word::Mode,
        Look::There => Word::There,
        Look::Folder => Word::Folder,
        Look::Link => Word::Link,
        Look::Missing => Word::Missing,
        Look::Passed => Word::Passed,
        Look::Listed => Word::Listed,
        Look::Own => Word::Own,
        Look::Searched => Word::Searched,
        Look::After => Word::After,
    }
}

// The word of a change.
fn change_word(change: Change) -> Word
    ensures { result ≡ change_word_of change }
{
    match change {
        Change::Left => Word::Left,
        Change::Edited => Word::Edited,
        Change::Taken => Word::Taken,
        Change::Temps => Word::Temp,
        Change::Linked => Word::Linked,
        Change::Made => Word::Made,
        Change::Found => Word::Found,
        Change::Ensured => Word::Ensured,
        Change::Removed => Word::Removed,
    }
}

/// The word of a command's deed, where a scene has one.
pub(crate) fn word_of(deed: Deed) -> Option<Word>
    ensures { result ≡ word_of_deed deed }
{
    match deed {
        Deed::Cached => None,
        Deed::Look(look) => Some(look_word(look)),
        Deed::Change(change) => Some(change_word(change)),
        Deed::Prepared => Some(Word::Prepared),
    }
}

// The word of a change of Ninja's own.
fn ninja_change(change: Change) -> Option<Word>
    ensures { result ≡ ninja_change_of change }
{
    match change {
        Change::Taken => None,
        Change::Temps => None,
        Change::Left => Some(Word::Left),
        Change::Edited => Some(Word::Edited),
        Change::Linked => Some(Word::Linked),
        Change::Made => Some(Word::Made),
        Change::Found => Some(Word::Found),
        Change::Ensured => Some(Word::Ensured),
        Change::Removed => Some(Word::Removed),
    }
}

/// The word of a deed of Ninja's own, where a scene has one.
pub(crate) fn ninja_word(deed: Deed) -> Option<Word>
    ensures { result ≡ ninja_word_of deed }
{
    match deed {
        Deed::Change(change) => ninja_change(change),
        Deed::Cached => None,
        Deed::Look(_) => None,
        Deed::Prepared => None,
    }
}
