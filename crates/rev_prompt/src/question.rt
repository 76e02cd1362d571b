//! What a line of the prompt asks.
use crate::query::Query;
use rev_cells::Names;
use rev_commands::{Command, Which};
use rev_fields::{FaultKind, LineFault, number};
use rev_paths::{Name, PathFault};
use rev_trace::{command_of_texts, which_of};
use std::alloc::Global;

/// How an event is named at the prompt.
pub enum EventName {
    /// By its number or its label.
    Which(Which),
    /// The last kept event of this kind at an output: its word and the output.
    Kind(Vec<u8>, Name),
    /// The last kept event at an output.
    Last(Name),
}

// Written, since a derived drop is proved again at each exit of each caller.
impl Drop for EventName {
    fn drop(self) {
        match self {
            EventName::Which(_part) => {}
            EventName::Kind(_part, _name) => {}
            EventName::Last(_part) => {}
        }
    }
}

/// How far it is asked on what an event rests.
#[derive(Clone, Copy, PartialEq, Eq)]
pub enum Reach {
    /// On what the event itself rests.
    Itself,
    /// Also by way of others.
    All,
    /// By what its command was seen to look at alone.
    Observed,
}

/// What is asked.
pub enum Question {
    /// `run`: what is left of the recording is replayed.
    Run,
    /// `next [N]`: so many commands of the recording are replayed, and told.
    Next(u32),
    /// `until OUT`: the recording is replayed up to an event of this edge.
    Until(Name),
    /// `needs EVENT [all]`, `needs EVENT observed`: what the event rests on.
    Needs(EventName, Reach),
    /// `dependents EVENT`: what rests on it.
    Dependents(EventName),
    /// `would cone EVENT`: what a cone would take.
    WouldCone(EventName),
    /// `who OUT`: the events of an edge.
    Who(Name),
    /// `who reads PATH`: which commands read a path.
    Readers(Name),
    /// `who writes PATH`: which commands write a path.
    Writers(Name),
    /// `what EVENT`: an event in words.
    What(EventName),
    /// `why OUT`: why an edge runs, or ran.
    Why(Name),
    /// `with OUT`: which commands ran while it did.
    With(Name),
    /// `order EVENT..`: whether another order of these events makes the same build.
    Order(Vec<EventName>),
    /// `without OUT`: the events of an edge are undone, with all that rests on them.
    Without(Name),
    /// `undo EVENT`.
    Undo(EventName),
    /// `redo EVENT`.
    Redo(EventName),
    /// `cone EVENT`.
    Cone(EventName),
    /// `kept`, `kept all`: the kept events, and whether those that people leave out are to be told too.
    Kept(bool),
    /// `races`, `races all`: the races of the recording, and whether all is to be told of them.
    Races(bool),
    /// `marks [OUT]`.
    Marks(Option<Name>),
    /// `stamps [PATH]`.
    Stamps(Option<Name>),
    /// `logs [PATH]`.
    Logs(Option<Name>),
    /// A question about edges, files and times, and whether all of its answer is to be told.
    Query(Query, bool),
    /// Another command of a script.
    Command(Command),
    /// `help`.
    Help,
    /// `help WORD`.
    HelpOf(Vec<u8>),
    /// `quit`.
    Quit,
    /// An empty line.
    Nothing,
}

// Written, since a derived drop is proved again at each exit of each caller.
impl Drop for Question {
    fn drop(self) {
        match self {
            Question::Run => {}
            Question::Next(_part) => {}
            Question::Until(_part) => {}
            Question::Needs(_part, _all) => {}
            Question::Dependents(_part) => {}
            Question::WouldCone(_part) => {}
            Question::Who(_part) => {}
            Question::Readers(_part) => {}
            Question::Writers(_part) => {}
            Question::What(_part) => {}
            Question::Why(_part) => {}
            Question::With(_part) => {}
            Question::Order(_part) => {}
            Question::Without(_part) => {}
            Question::Undo(_part) => {}
            Question::Redo(_part) => {}
            Question::Cone(_part) => {}
            Question::Kept(_all) => {}
            Question::Races(_all) => {}
            Question::Marks(_part) => {}
            Question::Stamps(_part) => {}
            Question::Logs(_part) => {}
            Question::Query(_part, _all) => {}
            Question::Command(_part) => {}
            Question::Help => {}
            Question::HelpOf(_word) => {}
            Question::Quit => {}
            Question::Nothing => {}
        }
    }
}

const BAD: LineFault = LineFault::Kind(FaultKind::Syntax);

// The path that a text names.
fn path(alloc: Global, text: &[u8]) -> Result<Name, LineFault> {
    match Name::new(alloc, text) {
        Ok(name) => Ok(name),
        Err(PathFault::Memory) => Err(LineFault::Memory),
        Err(_) => Err(BAD),
    }
}

/// Whether a word is that of an event at an edge or at a path.
pub(crate) fn is_kind(word: &[u8]) -> bool {
    word == b"start".as_slice()
        || word == b"finish".as_slice()
        || word == b"fail".as_slice()
        || word == b"abort".as_slice()
        || word == b"clean".as_slice()
        || word == b"pass".as_slice()
        || word == b"touch".as_slice()
}

/// Whether a text names an event by its number or its label.
pub(crate) fn is_number(text: &[u8]) -> bool {
    !text.is_empty()
        && text
            .iter()
            .all(|byte| byte.is_ascii_digit() || *byte == b':')
}

// The event that one text names: a number, a label, or an output.
fn event_of_text(alloc: Global, text: &[u8]) -> Result<EventName, LineFault> {
    if is_number(text) {
        return Ok(EventName::Which(which_of(alloc, text)?));
    }
    Ok(EventName::Last(path(alloc, text)?))
}

// The event of a kind at an output.
fn event_of_kind(alloc: Global, kind: &[u8], out: &[u8]) -> Result<EventName, LineFault> {
    let name = path(alloc, out)?;
    Ok(EventName::Kind(Vec::from_slice(alloc, kind)?, name))
}

// The event that texts name: a number, a label, an output, or a kind and an output.
fn event_name(alloc: Global, texts: &[Vec<u8>]) -> Result<EventName, LineFault> {
    match texts {
        [one] => event_of_text(alloc, one),
        [kind, out] if is_kind(kind) => event_of_kind(alloc, kind, out),
        _ => Err(BAD),
    }
}

// The events that texts name, one behind the other.
fn event_names(alloc: Global, texts: &[Vec<u8>]) -> Result<Vec<EventName>, LineFault> {
    let mut names = Vec::new(alloc);
    let mut rest = texts;
    for _ in 0..texts.len() {
        match rest {
            [kind, out, behind @ ..] if is_kind(kind) => {
                names.push(event_of_kind(alloc, kind, out)?)?;
                rest = behind;
            }
            [one, behind @ ..] => {
                names.push(event_of_text(alloc, one)?)?;
                rest = behind;
            }
            [] => break,
        }
    }
    Ok(names)
}

// How far the word asks that stands behind an event.
fn reach_of(word: &[u8]) -> Option<Reach> {
    match word {
        b"all" => Some(Reach::All),
        b"observed" => Some(Reach::Observed),
        _ => None,
    }
}

// Whether texts are the word of a kind of event and an output, which may be named as a word that stands behind events.
fn is_kind_at(texts: &[Vec<u8>]) -> bool {
    match texts {
        [kind, _out] => is_kind(kind),
        _ => false,
    }
}

// `needs EVENT`, `needs EVENT all` and `needs EVENT observed`
fn needs(alloc: Global, texts: &[Vec<u8>]) -> Result<Question, LineFault> {
    if !is_kind_at(texts)
        && let [rest @ .., last] = texts
        && !rest.is_empty()
        && let Some(reach) = reach_of(last)
    {
        return Ok(Question::Needs(event_name(alloc, rest)?, reach));
    }
    Ok(Question::Needs(event_name(alloc, texts)?, Reach::Itself))
}

// `who OUT`, `who reads PATH` and `who writes PATH`
fn who(alloc: Global, texts: &[Vec<u8>]) -> Result<Question, LineFault> {
    match texts {
        [word, one] if word.as_slice() == b"reads".as_slice() => {
            Ok(Question::Readers(path(alloc, one)?))
        }
        [word, one] if word.as_slice() == b"writes".as_slice() => {
            Ok(Question::Writers(path(alloc, one)?))
        }
        _ => Ok(Question::Who(only_path(alloc, texts)?)),
    }
}

// `next` and `next N`
fn next(texts: &[Vec<u8>]) -> Result<Question, LineFault> {
    match texts {
        [] => Ok(Question::Next(1)),
        [count] => Ok(Question::Next(number(count)?)),
        _ => Err(BAD),
    }
}

// The one path that stands behind a word.
fn only_path(alloc: Global, texts: &[Vec<u8>]) -> Result<Name, LineFault> {
    match texts {
        [one] => path(alloc, one),
        _ => Err(BAD),
    }
}

// The path that may stand behind a word.
fn maybe_path(alloc: Global, texts: &[Vec<u8>]) -> Result<Option<Name>, LineFault> {
    match texts {
        [] => Ok(None),
        [one] => Ok(Some(path(alloc, one)?)),
        _ => Err(BAD),
    }
}

// A word that stands alone.
fn alone(question: Question, texts: &[Vec<u8>]) -> Result<Question, LineFault> {
    if texts.is_empty() {
        Ok(question)
    } else {
        Err(BAD)
    }
}

// A question about a path.
fn path_question(
    alloc: Global,
    word: &[u8],
    rest: &[Vec<u8>],
) -> Result<Option<Question>, LineFault> {
    let question = match word {
        b"until" => Question::Until(only_path(alloc, rest)?),
        b"who" => who(alloc, rest)?,
        b"why" => Question::Why(only_path(alloc, rest)?),
        b"with" => Question::With(only_path(alloc, rest)?),
        b"without" => Question::Without(only_path(alloc, rest)?),
        b"marks" => Question::Marks(maybe_path(alloc, rest)?),
        b"stamps" => Question::Stamps(maybe_path(alloc, rest)?),
        b"logs" => Question::Logs(maybe_path(alloc, rest)?),
        _ => return Ok(None),
    };
    Ok(Some(question))
}

// A question about an event.
fn event_question(
    alloc: Global,
    word: &[u8],
    rest: &[Vec<u8>],
) -> Result<Option<Question>, LineFault> {
    let question = match word {
        b"needs" => needs(alloc, rest)?,
        b"dependents" => Question::Dependents(event_name(alloc, rest)?),
        b"what" => Question::What(event_name(alloc, rest)?),
        b"undo" => Question::Undo(event_name(alloc, rest)?),
        b"redo" => Question::Redo(event_name(alloc, rest)?),
        b"cone" => Question::Cone(event_name(alloc, rest)?),
        b"order" => Question::Order(event_names(alloc, rest)?),
        b"would" => match rest {
            [cone, event @ ..] if cone.as_slice() == b"cone".as_slice() => {
                Question::WouldCone(event_name(alloc, event)?)
            }
            _ => return Err(BAD),
        },
        _ => return Ok(None),
    };
    Ok(Some(question))
}

// The paths that stand behind a word, one at least.
fn paths(alloc: Global, texts: &[Vec<u8>]) -> Result<Vec<Name>, LineFault> {
    if texts.is_empty() {
        return Err(BAD);
    }
    let mut names = Vec::new(alloc);
    for text in texts {
        names.push(path(alloc, text)?)?;
    }
    Ok(names)
}

// The pattern of `edges WORD`: what has no `*` stands for every output that has it in it.
fn pattern(alloc: Global, texts: &[Vec<u8>]) -> Result<Vec<u8>, LineFault> {
    match texts {
        [] => Ok(Vec::from_slice(alloc, b"*")?),
        [one] if one.contains(&b'*') => Ok(Vec::from_slice(alloc, one)?),
        [one] => {
            let mut around = Vec::from_slice(alloc, b"*")?;
            around.extend_from_slice(one)?;
            around.extend_from_slice(b"*")?;
            Ok(around)
        }
        _ => Err(BAD),
    }
}

// How many runs `slowest` tells where no number is given.
const FEW_RUNS: u32 = 10;

// `slowest` and `slowest N`
fn slowest(texts: &[Vec<u8>]) -> Result<Query, LineFault> {
    match texts {
        [] => Ok(Query::Slowest(FEW_RUNS)),
        [count] => Ok(Query::Slowest(number(count)?)),
        _ => Err(BAD),
    }
}

// Whether the texts behind a word that takes nothing else ask for all.
fn only_all(texts: &[Vec<u8>]) -> Result<bool, LineFault> {
    match texts {
        [] => Ok(false),
        [word] if is_all(word) => Ok(true),
        _ => Err(BAD),
    }
}

// Whether a text asks for all of an answer.
fn is_all(text: &[u8]) -> bool {
    text == b"all".as_slice() || text == b"--all".as_slice()
}

// The texts before an `all` that stands behind others, and whether there is one. Alone it may be the name of an output.
fn before_all(texts: &[Vec<u8>]) -> (&[Vec<u8>], bool) {
    match texts {
        [rest @ .., last] if !rest.is_empty() && is_all(last) => (rest, true),
        _ => (texts, false),
    }
}

// A question about edges, files and times.
fn query(alloc: Global, word: &[u8], texts: &[Vec<u8>]) -> Result<Option<Question>, LineFault> {
    let (rest, all) = before_all(texts);
    let query = match word {
        b"edge" => Query::Edge(event_name(alloc, rest)?),
        b"edges" => Query::Edges(pattern(alloc, rest)?),
        b"reads" => Query::Reads(only_path(alloc, rest)?),
        b"makes" => Query::Makes(only_path(alloc, rest)?),
        b"rebuilds" => Query::Rebuilds(paths(alloc, rest)?),
        b"slowest" => slowest(rest)?,
        b"critical" => return Ok(Some(Question::Query(Query::Critical, only_all(texts)?))),
        _ => return Ok(None),
    };
    Ok(Some(Question::Query(query, all)))
}

// `help` and `help WORD`
fn help(alloc: Global, texts: &[Vec<u8>]) -> Result<Question, LineFault> {
    match texts {
        [] => Ok(Question::Help),
        [word, ..] => Ok(Question::HelpOf(Vec::from_slice(alloc, word)?)),
    }
}

// A question without anything behind it, or a command of a script.
fn other_question(
    alloc: Global,
    texts: &[Vec<u8>],
    word: &[u8],
    rest: &[Vec<u8>],
) -> Result<Question, LineFault> {
    match word {
        b"run" => alone(Question::Run, rest),
        b"next" | b"n" => next(rest),
        b"kept" | b"history" => Ok(Question::Kept(only_all(rest)?)),
        b"races" => Ok(Question::Races(only_all(rest)?)),
        b"help" | b"?" => help(alloc, rest),
        b"quit" | b"exit" | b"q" => alone(Question::Quit, rest),
        _ => {
            let targets = Names::new(Vec::new(alloc))?;
            Ok(Question::Command(command_of_texts(alloc, &targets, texts)?))
        }
    }
}

/// What the texts of a line ask.
///
/// # Errors
/// A kind of fault as a script's line has it, where the texts ask nothing; `Memory` where memory was refused.
pub fn question_of(alloc: Global, texts: &[Vec<u8>]) -> Result<Question, LineFault> {
    let Some((word, rest)) = texts.split_first() else {
        return Ok(Question::Nothing);
    };
    if let Some(question) = path_question(alloc, word, rest)? {
        return Ok(question);
    }
    if let Some(question) = event_question(alloc, word, rest)? {
        return Ok(question);
    }
    if let Some(question) = query(alloc, word, rest)? {
        return Ok(question);
    }
    other_question(alloc, texts, word, rest)
}
