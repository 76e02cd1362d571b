//! The words that lines begin with, and those of flags.
ghost use Rattle.std.specs.Prelude.{◌≡◌};
ghost use Rattle.rev_observation.specs.Words.{change_of, deed_of, flag_of, look_of, word_of};

use crate::deed::Deed;
use crate::flag::FlagKind;
use crate::look::{Change, Look};

/// What a line begins with.
#[derive(Clone, Copy, PartialEq, Eq)]
pub(crate) enum Word {
    /// `path`
    Path,
    /// `also`
    Also,
    /// `same`
    Same,
    /// `opening`
    Opening,
    /// `hidden`
    Hidden,
    /// `ninja`
    Ninja,
    /// `edge`
    Edge,
    /// `flag`
    Flag,
    /// The word of a deed.
    Deed(Deed),
    /// `outside`
    Outside,
    /// `end`
    End,
}

// The look whose word a text is.
fn look_of(text: &[u8]) -> Option<Look>
    ensures { result ≡ look_of text.now }
{
    if text == b"read".as_slice() {
        return Some(Look::Read);
    }
    if text == b"status".as_slice() {
        return Some(Look::Status);
    }
    if text == b"mode".as_slice() {
        return Some(Look::Mode);
    }
    if text == b"there".as_slice() {
        return Some(Look::There);
    }
    if text == b"folder".as_slice() {
        return Some(Look::Folder);
    }
    if text == b"link".as_slice() {
        return Some(Look::Link);
    }
    if text == b"missing".as_slice() {
        return Some(Look::Missing);
    }
    if text == b"passed".as_slice() {
        return Some(Look::Passed);
    }
    if text == b"listed".as_slice() {
        return Some(Look::Listed);
    }
    if text == b"own".as_slice() {
        return Some(Look::Own);
    }
    if text == b"searched".as_slice() {
        return Some(Look::Searched);
    }
    if text == b"after".as_slice() {
        return Some(Look::After);
    }
    None
}

// The change whose word a text is.
fn change_of(text: &[u8]) -> Option<Change>
    ensures { result ≡ change_of text.now }
{
    if text == b"left".as_slice() {
        return Some(Change::Left);
    }
    if text == b"edited".as_slice() {
        return Some(Change::Edited);
    }
    if text == b"taken".as_slice() {
        return Some(Change::Taken);
    }
    if text == b"temps".as_slice() {
        return Some(Change::Temps);
    }
    if text == b"linked".as_slice() {
        return Some(Change::Linked);
    }
    if text == b"made".as_slice() {
        return Some(Change::Made);
    }
    if text == b"found".as_slice() {
        return Some(Change::Found);
    }
    if text == b"ensured".as_slice() {
        return Some(Change::Ensured);
    }
    if text == b"removed".as_slice() {
        return Some(Change::Removed);
    }
    None
}

// The deed whose word a text is.
fn deed_of(text: &[u8]) -> Option<Deed>
    ensures { result ≡ deed_of text.now }
{
    if text == b"cached".as_slice() {
        return Some(Deed::Cached);
    }
    if text == b"prepared".as_slice() {
        return Some(Deed::Prepared);
    }
    if let Some(look) = look_of(text) {
        return Some(Deed::Look(look));
    }
    match change_of(text) {
        Some(change) => Some(Deed::Change(change)),
        None => None,
    }
}

/// The word that a text is.
pub(crate) fn word_of(text: &[u8]) -> Option<Word>
    ensures { result ≡ word_of text.now }
{
    if text == b"path".as_slice() {
        return Some(Word::Path);
    }
    if text == b"also".as_slice() {
        return Some(Word::Also);
    }
    if text == b"same".as_slice() {
        return Some(Word::Same);
    }
    if text == b"opening".as_slice() {
        return Some(Word::Opening);
    }
    if text == b"hidden".as_slice() {
        return Some(Word::Hidden);
    }
    if text == b"ninja".as_slice() {
        return Some(Word::Ninja);
    }
    if text == b"edge".as_slice() {
        return Some(Word::Edge);
    }
    if text == b"flag".as_slice() {
        return Some(Word::Flag);
    }
    if text == b"outside".as_slice() {
        return Some(Word::Outside);
    }
    if text == b"end".as_slice() {
        return Some(Word::End);
    }
    match deed_of(text) {
        Some(deed) => Some(Word::Deed(deed)),
        None => None,
    }
}

/// The flag whose word a text is.
pub(crate) fn flag_of(text: &[u8]) -> Option<FlagKind>
    ensures { result ≡ flag_of text.now }
{
    if text == b"cut".as_slice() {
        return Some(FlagKind::Cut);
    }
    if text == b"late".as_slice() {
        return Some(FlagKind::Late);
    }
    if text == b"socket".as_slice() {
        return Some(FlagKind::Socket);
    }
    if text == b"ipc".as_slice() {
        return Some(FlagKind::Ipc);
    }
    if text == b"proc".as_slice() {
        return Some(FlagKind::Proc);
    }
    if text == b"namespace".as_slice() {
        return Some(FlagKind::Namespace);
    }
    if text == b"uring".as_slice() {
        return Some(FlagKind::Uring);
    }
    if text == b"attributes".as_slice() {
        return Some(FlagKind::Attributes);
    }
    if text == b"notified".as_slice() {
        return Some(FlagKind::Notified);
    }
    if text == b"deep".as_slice() {
        return Some(FlagKind::Deep);
    }
    if text == b"unresolved".as_slice() {
        return Some(FlagKind::Unresolved);
    }
    if text == b"unknown".as_slice() {
        return Some(FlagKind::Unknown);
    }
    if text == b"twin".as_slice() {
        return Some(FlagKind::Twin);
    }
    None
}
