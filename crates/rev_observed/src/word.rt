//! The words that lines begin with, and those of flags.
ghost use Rattle.std.specs.Prelude.{◌≡◌};
ghost use Rattle.std.specs.List.{list_all};
ghost use Rattle.rev_fields.specs.Parts.{lent_of};
ghost use Rattle.rev_observed.specs.Words.{flags_said, has_word, is_flag, word_of};

use crate::flags::Flags;
use crate::kind::Kind;
use std::borrow::CowSlice;

/// What a line begins with.
#[derive(Clone, Copy, PartialEq, Eq)]
pub(crate) enum Word {
    /// `path`
    Path,
    /// `edge`
    Edge,
    /// The name of a kind.
    Kind(Kind),
    /// `outside`
    Outside,
}

impl Word {
    /// The word that a text is.
    pub(crate) fn of_text(text: &[u8]) -> Option<Word>
        ensures { result ≡ word_of text.now }
    {
        if text == b"path".as_slice() {
            return Some(Word::Path);
        }
        if text == b"edge".as_slice() {
            return Some(Word::Edge);
        }
        if text == b"outside".as_slice() {
            return Some(Word::Outside);
        }
        if text == b"reads".as_slice() {
            return Some(Word::Kind(Kind::Reads));
        }
        if text == b"stats".as_slice() {
            return Some(Word::Kind(Kind::Stats));
        }
        if text == b"misses".as_slice() {
            return Some(Word::Kind(Kind::Misses));
        }
        if text == b"lists".as_slice() {
            return Some(Word::Kind(Kind::Lists));
        }
        if text == b"writes".as_slice() {
            return Some(Word::Kind(Kind::Writes));
        }
        if text == b"edits".as_slice() {
            return Some(Word::Kind(Kind::Edits));
        }
        if text == b"deletes".as_slice() {
            return Some(Word::Kind(Kind::Deletes));
        }
        if text == b"temps".as_slice() {
            return Some(Word::Kind(Kind::Temps));
        }
        if text == b"folders".as_slice() {
            return Some(Word::Kind(Kind::Folders));
        }
        None
    }
}

// Whether a text is the word of a flag.
fn is_flag(text: &[u8]) -> bool
    ensures { result ≡ is_flag text.now }
{
    text == b"cut".as_slice()
        || text == b"server".as_slice()
        || text == b"namespace".as_slice()
        || text == b"uring".as_slice()
        || text == b"unresolved".as_slice()
        || text == b"twin".as_slice()
}

// Whether one of the texts is this word.
fn has_word(texts: &[CowSlice<'_, u8>], word: &[u8]) -> bool
    ensures { result ≡ has_word (lent_of texts.now) word.now }
{
    for text in texts {
        if text.as_slice() == word {
            return true;
        }
    }
    false
}

// Whether all texts are words of flags.
fn are_flags(texts: &[CowSlice<'_, u8>]) -> bool
    ensures { result ≡ list_all is_flag (lent_of texts.now) }
{
    for text in texts {
        if !is_flag(text) {
            return false;
        }
    }
    true
}

/// The flags whose words these texts are.
pub(crate) fn flags(texts: &[CowSlice<'_, u8>]) -> Option<Flags>
    ensures { result ≡ flags_said (lent_of texts.now) }
{
    if !are_flags(texts) {
        return None;
    }
    Some(Flags {
        cut: has_word(texts, b"cut".as_slice()),
        server: has_word(texts, b"server".as_slice()),
        namespace: has_word(texts, b"namespace".as_slice()),
        uring: has_word(texts, b"uring".as_slice()),
        unresolved: has_word(texts, b"unresolved".as_slice()),
        twin: has_word(texts, b"twin".as_slice()),
    })
}
