//! Scripts: their words, and the lines that spell them.
ghost use Rattle.std.specs.Prelude.{◌≡◌, Some, None, IfOk, OnOk, IsErrOf};
ghost use Rattle.rev_fields.specs.declared.faults.TextFault.{TextFault};
ghost use Rattle.rev_fields.specs.Faults.{Answers};
ghost use Rattle.rev_fields.specs.Parts.{vectors_of};
ghost use Rattle.rev_script.specs.Scripts.{bare_of, command_word, dependents_of, order_of, run_of, script_fault, script_line, script_of, why_of, word_of};

use crate::numbers::{Numbers, each_number};
use rev_cells::Names;
use rev_commands::{Command, Which};
use rev_fields::{FaultKind, LineFault, ReadFault, number, parts_at, path, read_fields};
use rev_paths::Name;
use rev_trace::{command_of_texts, which_of};
use std::alloc::Global;

/// A line of a script.
#[derive(Debug, PartialEq, Eq)]
pub enum Word {
    /// A command, sent on the script's own lane.
    Command(Command),
    /// `run` sends the commands that are left in the trace, lane by lane in turn, up to one whose answer names a break.
    /// `run K` sends at most `K` commands.
    Run(Option<u32>),
    /// `kept` lists the kept events.
    Kept,
    /// `marks` lists the marks, the held jobs and slots, the depths that resizes gave, and whether the build was
    /// interrupted.
    Marks,
    /// `stamps` lists the files that exist.
    Stamps,
    /// `logs` lists the records of the build log and of the deps log.
    Logs,
    /// `why OUT` lists the edges from this one to an edge that has reasons.
    Why(Name),
    /// `dependents WHICH` lists the kept events that depend on this kept event.
    Dependents(Which),
    /// `order N...` answers whether these accepted events, in this order from the opening, are equivalent to the kept
    /// ones.
    Order(Numbers),
}

impl Drop for Word {
    fn drop(self) {
        match self {
            Word::Command(_part) => {}
            Word::Run(_part) => {}
            Word::Kept => {}
            Word::Marks => {}
            Word::Stamps => {}
            Word::Logs => {}
            Word::Why(_part) => {}
            Word::Dependents(_part) => {}
            Word::Order(_part) => {}
        }
    }
}

const BAD_LINE: LineFault = LineFault::Kind(FaultKind::Syntax);

// A command as the word of a script. `plan` without a path means the graph's defaults.
fn command_as_word(alloc: Global, texts: &[Vec<u8>]) -> Result<Word, LineFault>
    ensures { Answers result (λ w. w) (command_word (vectors_of texts.now)) }
{
    let targets = Names::new(Vec::new(alloc))?;
    let command = command_of_texts(alloc, &targets, texts)?;
    Ok(Word::Command(command))
}

// `run` and `run K`
fn run(texts: &[Vec<u8>]) -> Result<Word, LineFault>
    ensures { Answers result (λ w. w) (run_of (vectors_of texts.now)) }
{
    match texts {
        [] => Ok(Word::Run(None)),
        [count] => Ok(Word::Run(Some(number(count)?))),
        _ => Err(BAD_LINE),
    }
}

// A word that stands alone.
fn bare(word: Word, texts: &[Vec<u8>]) -> Result<Word, LineFault>
    ensures { Answers result (λ w. w) (bare_of word (vectors_of texts.now)) }
{
    if texts.is_empty() {
        return Ok(word);
    }
    Err(BAD_LINE)
}

// `why OUT`
fn why(alloc: Global, texts: &[Vec<u8>]) -> Result<Word, LineFault>
    ensures { Answers result (λ w. w) (why_of (vectors_of texts.now)) }
{
    match texts {
        [out] => Ok(Word::Why(path(alloc, out)?)),
        _ => Err(BAD_LINE),
    }
}

// `dependents WHICH`
fn dependents(alloc: Global, texts: &[Vec<u8>]) -> Result<Word, LineFault>
    ensures { Answers result (λ w. w) (dependents_of (vectors_of texts.now)) }
{
    match texts {
        [event] => Ok(Word::Dependents(which_of(alloc, event)?)),
        _ => Err(BAD_LINE),
    }
}

// `order N...`
fn order(alloc: Global, texts: &[Vec<u8>]) -> Result<Word, LineFault>
    ensures { Answers result (λ w. w) (order_of (vectors_of texts.now)) }
{
    Ok(Word::Order(Numbers::new(each_number(alloc, texts)?)))
}

// The word of a script, from the texts of the fields.
fn word_of_texts(alloc: Global, texts: &[Vec<u8>]) -> Result<Word, LineFault>
    ensures { Answers result (λ w. w) (word_of (vectors_of texts.now)) }
{
    let Some((first, rest)) = texts.split_first() else {
        return Err(BAD_LINE);
    };
    if first.as_slice() == b"run".as_slice() {
        return run(rest);
    }
    if first.as_slice() == b"kept".as_slice() {
        return bare(Word::Kept, rest);
    }
    if first.as_slice() == b"marks".as_slice() {
        return bare(Word::Marks, rest);
    }
    if first.as_slice() == b"stamps".as_slice() {
        return bare(Word::Stamps, rest);
    }
    if first.as_slice() == b"logs".as_slice() {
        return bare(Word::Logs, rest);
    }
    if first.as_slice() == b"why".as_slice() {
        return why(alloc, rest);
    }
    if first.as_slice() == b"dependents".as_slice() {
        return dependents(alloc, rest);
    }
    if first.as_slice() == b"order".as_slice() {
        return order(alloc, rest);
    }
    command_as_word(alloc, texts)
}

// The word that a line of a script is.
fn read_word(alloc: Global, line: &[u8]) -> Result<Word, LineFault>
    ensures { Answers result (λ w. w) (script_line line.now) }
{
    let texts = read_fields(alloc, line)?;
    word_of_texts(alloc, &texts)
}

/// The words of a script: one for each line that is not empty. A script has no opening lines and opens no lane.
pub fn read_script(alloc: Global, text: &[u8]) -> Result<Vec<Word>, ReadFault>
    ensures words { IfOk result (λ words. words.items ≡ script_of text.now) }
    ensures sound { OnOk result (script_fault text.now ≡ None) }
    ensures fault { (f : TextFault) → IsErrOf result (ReadFault.Numbered f) → script_fault text.now ≡ Some f }
{
    let lines = parts_at(alloc, text, b'\n')?;
    let mut words = Vec::new(alloc);
    for (place, line) in lines.iter().enumerate() {
        if line.is_empty() {
            continue;
        }
        match read_word(alloc, line) {
            Ok(word) => words.push(word)?,
            Err(fault) => return Err(fault.at(place)),
        }
    }
    Ok(words)
}
