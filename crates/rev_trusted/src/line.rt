//! One line of a file of trusted flags.
ghost use Rattle.std.specs.Prelude.{◌≡◌, ◌&&◌, IfOk};
ghost use Rattle.rev_trusted.specs.Trusts.{trusts as trusts_flag, trusts_text as trusts_text_of};

use crate::kinds::{are_alike, kind_of};
use rev_fields::parts_at;
use rev_filters::{Filters, is_hidden, matches};
use rev_observation::{Flag, FlagKind};
use std::alloc::{AllocError, Global};

// The pattern of each text, an empty one too.
const ANY: &[u8] = b"*";

/// What a line trusts, and why.
pub struct Line {
    number: u64,
    kind: FlagKind,
    program: Vec<u8>,
    is_any: bool,
    texts: Vec<Filters>,
    reason: Vec<u8>,
}

// Written, since a derived drop is proved again at each exit of each caller.
impl Drop for Line {
    fn drop(self) {
        let Line {
            number: _number,
            kind: _kind,
            program: _program,
            is_any: _is_any,
            texts: _texts,
            reason: _reason,
        } = self;
    }
}

// The words of a line that trusts.
#[derive(Clone, Copy)]
struct Words<'a> {
    kind: FlagKind,
    program: &'a [u8],
    pattern: &'a [u8],
    reason: &'a [u8],
}

// What stands behind a word and the space after it.
fn behind<'a>(text: &'a [u8], word: &[u8]) -> &'a [u8] {
    let after = usize::saturating_add(word.len(), 1);
    text.get(after..).unwrap_or(b"")
}

// The words of a line: a flag, a pattern of programs, a pattern of texts and a reason, with a space between each two.
fn words_of<'a>(alloc: Global, line: &'a [u8]) -> Result<Option<Words<'a>>, AllocError> {
    let parts = parts_at(alloc, line, b' ')?;
    let [flag, program, pattern, ..] = parts.as_slice() else {
        return Ok(None);
    };
    let Some(kind) = kind_of(flag) else {
        return Ok(None);
    };
    let reason = behind(behind(behind(line, flag), program), pattern);
    let is_blank = reason.iter().all(|byte| *byte == b' ');
    if program.is_empty() || pattern.is_empty() || is_blank {
        return Ok(None);
    }
    Ok(Some(Words {
        kind,
        program,
        pattern,
        reason,
    }))
}

/// Whether a line says nothing: it is empty, or begins with `#`.
pub(crate) fn is_remark(line: &[u8]) -> bool {
    match line {
        [] => true,
        [first, ..] => *first == b'#',
    }
}

// Whether three tests passed.
fn all_of(one: bool, two: bool, three: bool) -> bool
    ensures { result ≡ (one && (two && three)) }
{
    one && (two && three)
}

impl Line {
    /// What the line of a number trusts; none where it may not stand in a file of trusted flags.
    ///
    /// # Errors
    /// [`AllocError`] only where an allocation was refused.
    pub(crate) fn read(
        alloc: Global,
        line: &[u8],
        number: u64,
    ) -> Result<Option<Line>, AllocError> {
        let Some(words) = words_of(alloc, line)? else {
            return Ok(None);
        };
        let filters = match rev_filters::read(alloc, words.pattern) {
            Ok(filters) => filters,
            Err(rev_filters::ReadFault::Memory) => return Err(AllocError),
            Err(rev_filters::ReadFault::Numbered(_)) => return Ok(None),
        };
        let mut texts = Vec::new(alloc);
        texts.push(filters)?;
        Ok(Some(Line {
            number,
            kind: words.kind,
            program: Vec::from_slice(alloc, words.program)?,
            is_any: words.pattern == ANY,
            texts,
            reason: Vec::from_slice(alloc, words.reason)?,
        }))
    }

    // Whether it trusts the text of a flag.
    fn trusts_text(&self, alloc: Global, text: &[u8]) -> Result<bool, AllocError>
        ensures { IfOk result (λ found. found ≡ trusts_text_of self.now text.now) }
    {
        if self.is_any {
            return Ok(true);
        }
        is_hidden(alloc, &self.texts, text)
    }

    /// Whether it trusts a flag: one of its kind, by a program and with a text that its patterns match.
    ///
    /// # Errors
    /// [`AllocError`] only where an allocation was refused.
    pub(crate) fn trusts(&self, alloc: Global, flag: &Flag) -> Result<bool, AllocError>
        ensures { IfOk result (λ found. found ≡ trusts_flag flag.now self.now) }
    {
        let is_of_kind = are_alike(flag.kind, self.kind);
        let is_by_program = matches(alloc, &self.program, flag.program.as_bytes())?;
        let has_text = self.trusts_text(alloc, flag.text.as_bytes())?;
        Ok(all_of(is_of_kind, is_by_program, has_text))
    }

    /// Its number in the file, from 1.
    pub fn number(&self) -> u64 {
        self.number
    }

    /// Why it trusts.
    pub fn reason(&self) -> &[u8] {
        &self.reason
    }
}
