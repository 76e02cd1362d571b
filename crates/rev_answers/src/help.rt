//! What the prompt tells of itself.
use crate::request::{Request, request_of};
use rev_prompt::Question;
use rev_shown::push_shown;
use std::alloc::{AllocError, Global};

/// What `help` writes.
pub(crate) const HELP: &[u8] = b"run                the recording to its end, told in one line
next [N], n        its next commands, one or N, each told; after it an empty line asks for one more
until OUT          up to the next event of the edge of this output
races [all]        what `rebug races` tells of the recording, whatever stands here
who OUT            its events
who reads PATH     which commands read it, as observed, or else by build lines and lists; who writes PATH
edge OUT           its build statement: place, rule, command, inputs, list, flags; who waits for it, what it took
edges [WORD]       the edges with an output that has this word in it; `*` stands for any text
reads PATH         which edges have it as an input, list it, or were seen to look at it
makes PATH         which edge has it as an output, and who was seen to change it
rebuilds PATH..    what would be to do if these were touched now, and why; nothing is done
slowest [N]        the commands that took most time
critical           the chain of commands that the end of the build waited for
why OUT            why it is to run, or why it ran
with OUT           which commands ran while it did
without OUT        undoes its events, with all that rests on them
what EVENT         an event in words
needs EVENT [all]  which events it rests on, itself or by way of others; `observed`: by what was observed alone
dependents EVENT   which events rest on it
would cone EVENT   what `cone` would take
order EVENT..      whether these events in another order make the same build
undo EVENT         takes it back, if no kept event rests on it
cone EVENT         takes it back with all that rests on it
redo N             puts back an event that was undone
back               takes back the last one
kept, history      the kept events; `all`: touches of folders too
marks [OUT], stamps [PATH], logs [PATH]  the state, as a report writes it
break KIND OUT, continue, touch PATH N, plan, ..     every command of a script
help [WORD]        this, or what one word takes; quit, exit, q: the end
EVENT is a number, `start a.o`, `finish a.o` and so on, or `a.o`, the last kept event there. OUT is an output. With `*`
in it a question that changes nothing is asked of each output that matches (`needs *.o`). `--all` after a question tells
what a screen leaves out. A name with blanks stands in quotes; `#` begins a comment. docs/ASK.md has examples.
";

// Words that take something: what they take, and an example.
const WORDS: [(&'static str, &'static str, &'static str); 12] = [
    ("run", "nothing", "run"),
    ("next", "nothing or a number", "next 5"),
    ("until", "an output", "until main.o"),
    (
        "who",
        "an output, or `reads` or `writes` and a path",
        "who reads version.h",
    ),
    ("why", "an output", "why main.o"),
    ("with", "an output", "with main.o"),
    ("without", "an output", "without main.o"),
    ("what", "an event", "what finish main.o"),
    (
        "needs",
        "an event, and then nothing, `all` or `observed`",
        "needs main.o all",
    ),
    ("dependents", "an event", "dependents main.o"),
    ("would", "`cone` and an event", "would cone main.o"),
    ("order", "events, as many as are kept", "order 1 3 2"),
];

// More of them: one constant of all rows would be too long for the prover.
const MORE_WORDS: [(&'static str, &'static str, &'static str); 12] = [
    (
        "edge",
        "an output or an event, and then nothing or `all`",
        "edge main.o",
    ),
    (
        "edges",
        "nothing or a word, and then nothing or `all`",
        "edges *.o",
    ),
    (
        "reads",
        "a path, and then nothing or `all`",
        "reads version.h",
    ),
    ("makes", "a path", "makes version.h"),
    (
        "rebuilds",
        "paths, and then nothing or `all`",
        "rebuilds version.in",
    ),
    ("slowest", "nothing or a number", "slowest 3"),
    ("critical", "nothing or `all`", "critical"),
    ("undo", "an event", "undo finish main.o"),
    ("redo", "an event by its number", "redo 13"),
    ("cone", "an event", "cone main.o"),
    ("kept", "nothing or `all`", "kept"),
    ("marks", "nothing or an output", "marks main.o"),
];

// The rest, commands of scripts among them.
const LAST_WORDS: [(&'static str, &'static str, &'static str); 12] = [
    ("stamps", "nothing or a path", "stamps main.c"),
    ("logs", "nothing or an output", "logs main.o"),
    ("touch", "a path and a stamp", "touch main.c 500"),
    ("start", "an output and a job", "start main.o 0"),
    ("plan", "outputs, or nothing", "plan app"),
    ("break", "a kind of event and an output", "break start app"),
    ("continue", "nothing", "continue"),
    ("races", "nothing or `all`", "races"),
    ("back", "nothing", "back"),
    ("history", "nothing or `all`", "history all"),
    ("help", "nothing or a word", "help who"),
    ("quit", "nothing", "quit"),
];

// The commands of scripts that `help` lists in one line, and the short forms of words.
const SHORT_WORDS: [(&'static str, &'static str, &'static str); 12] = [
    ("finish", "an output and its stamps", "finish main.o 500"),
    ("fail", "an output and its stamps", "fail main.o 500"),
    ("abort", "an output and its stamps", "abort main.o 500"),
    ("clean", "an output", "clean main.o"),
    ("pass", "an output", "pass main.o"),
    ("interrupt", "nothing", "interrupt"),
    ("resize", "the number of a pool and a depth", "resize 1 2"),
    ("unbreak", "the number of a break", "unbreak 5"),
    ("n", "nothing or a number", "n 5"),
    ("q", "nothing", "q"),
    ("exit", "nothing", "exit"),
    ("?", "nothing or a word", "? who"),
];

// The row of a word in a table.
fn row_in(table: &[(&'static str, &'static str, &'static str)], word: &[u8]) -> Option<usize> {
    table
        .iter()
        .position(|(name, _takes, _example)| name.as_bytes() == word)
}

// What a word takes, and an example, of a table.
fn found_in(
    table: &[(&'static str, &'static str, &'static str)],
    word: &[u8],
) -> Option<(&'static str, &'static str)> {
    let (_name, takes, example) = table.get(row_in(table, word)?)?;
    Some((*takes, *example))
}

// What a word takes, and an example.
fn entry_of(word: &[u8]) -> Option<(&'static str, &'static str)> {
    match found_in(&WORDS, word) {
        Some(entry) => Some(entry),
        None => match found_in(&MORE_WORDS, word) {
            Some(entry) => Some(entry),
            None => match found_in(&LAST_WORDS, word) {
                Some(entry) => Some(entry),
                None => found_in(&SHORT_WORDS, word),
            },
        },
    }
}

// How many bytes two texts have in common at their beginnings.
fn common_front(one: &[u8], other: &[u8]) -> usize {
    let pairs = one.iter().zip(other.iter());
    pairs.take_while(|(a, b)| **a == **b).count()
}

// What of a text is left behind so many bytes.
fn behind(text: &[u8], count: usize) -> &[u8] {
    text.get(count..).unwrap_or(b"")
}

// Whether two texts begin with the same two bytes in the other order.
fn are_swapped(one: &[u8], other: &[u8]) -> bool {
    match (one, other) {
        ([a, b, ..], [c, d, ..]) => *a == *d && *b == *c,
        _ => false,
    }
}

// What of two texts is left where one step parts them behind their common beginning: a byte is too many in the one or in
// the other, it is another byte, or it changed places with the next one.
fn after_a_step<'a>(one: &'a [u8], other: &'a [u8]) -> [(&'a [u8], &'a [u8]); 4] {
    let same = common_front(one, other);
    let (one, other) = (behind(one, same), behind(other, same));
    let swapped = if are_swapped(one, other) { 2 } else { 0 };
    [
        (behind(one, 1), other),
        (one, behind(other, 1)),
        (behind(one, 1), behind(other, 1)),
        (behind(one, swapped), behind(other, swapped)),
    ]
}

// Whether at most one step parts two texts.
fn is_one_off(one: &[u8], other: &[u8]) -> bool {
    after_a_step(one, other)
        .iter()
        .any(|(one, other)| *one == *other)
}

// Whether at most two steps part two texts.
fn is_two_off(one: &[u8], other: &[u8]) -> bool {
    after_a_step(one, other)
        .iter()
        .any(|(one, other)| is_one_off(*one, *other))
}

// How a word is near to one that was typed.
#[derive(Clone, Copy)]
enum Nearness {
    // It begins with what was typed.
    Beginning,
    // One letter parts the two.
    OneLetter,
    // Two letters part them.
    TwoLetters,
}

// Whether a word is near to one that was typed. At most a third of the typed letters may differ.
fn is_near(name: &[u8], typed: &[u8], nearness: Nearness) -> bool {
    match nearness {
        Nearness::Beginning => typed.len() >= 3 && name.starts_with(typed),
        Nearness::OneLetter => typed.len() >= 3 && is_one_off(name, typed),
        Nearness::TwoLetters => typed.len() >= 6 && is_two_off(name, typed),
    }
}

// The first word of a table that is near to one that was typed.
fn near_in(
    table: &[(&'static str, &'static str, &'static str)],
    typed: &[u8],
    nearness: Nearness,
) -> Option<&'static str> {
    let place = table.iter().position(|(name, _takes, _example)| is_near(
        name.as_bytes(),
        typed,
        nearness,
    ))?;
    let (name, _takes, _example) = table.get(place)?;
    Some(*name)
}

// The first word of all that is near to one that was typed.
fn near_by(typed: &[u8], nearness: Nearness) -> Option<&'static str> {
    match near_in(&WORDS, typed, nearness) {
        Some(near) => Some(near),
        None => match near_in(&MORE_WORDS, typed, nearness) {
            Some(near) => Some(near),
            None => match near_in(&LAST_WORDS, typed, nearness) {
                Some(near) => Some(near),
                None => near_in(&SHORT_WORDS, typed, nearness),
            },
        },
    }
}

// The word that may have been meant by one that was typed, the nearest one (docs/USE.md, "Misspelt words").
fn near_word(typed: &[u8]) -> Option<&'static str> {
    match near_by(typed, Nearness::Beginning) {
        Some(near) => Some(near),
        None => match near_by(typed, Nearness::OneLetter) {
            Some(near) => Some(near),
            None => near_by(typed, Nearness::TwoLetters),
        },
    }
}

// Adds what a word takes, with an example.
fn push_entry(
    text: &mut Vec<u8>,
    word: &[u8],
    entry: (&'static str, &'static str),
) -> Result<(), AllocError> {
    let (takes, example) = entry;
    text.push(b'`')?;
    text.extend_from_slice(word)?;
    text.extend_from_slice(b"` takes ")?;
    text.extend_from_slice(takes.as_bytes())?;
    text.extend_from_slice(b": `")?;
    text.extend_from_slice(example.as_bytes())?;
    text.extend_from_slice(b"`\n")
}

// Adds that there is no such word, and what may have been meant.
fn push_unknown(text: &mut Vec<u8>, word: &[u8]) -> Result<(), AllocError> {
    text.extend_from_slice(b"there is no word `")?;
    push_shown(text, word)?;
    text.push(b'`')?;
    let Some(near) = near_word(word) else {
        return text.extend_from_slice(b"; `help` lists the words\n");
    };
    text.extend_from_slice(b"; did you mean `")?;
    text.extend_from_slice(near.as_bytes())?;
    text.extend_from_slice(b"`?\n")
}

// Adds what a word takes, or that there is none.
fn push_word(text: &mut Vec<u8>, word: &[u8]) -> Result<(), AllocError> {
    match entry_of(word) {
        Some(entry) => push_entry(text, word, entry),
        None => push_unknown(text, word),
    }
}

// The lines of `help` that begin with a word.
fn push_lines_of(text: &mut Vec<u8>, word: &[u8]) -> Result<(), AllocError> {
    for line in HELP.split(|byte| *byte == b'\n') {
        if let Some(rest) = line.strip_prefix(word)
            && (rest.starts_with(b" ") || rest.starts_with(b","))
        {
            text.extend_from_slice(line)?;
            text.push(b'\n')?;
        }
    }
    Ok(())
}

/// Adds what `help` tells: of all words, or of one with an example.
pub(crate) fn push_help(text: &mut Vec<u8>, question: &Question) -> Result<(), AllocError> {
    match request_of(question) {
        Request::Help(Some(word)) => {
            push_lines_of(text, word)?;
            push_word(text, word)
        }
        Request::Help(None)
        | Request::Command(_)
        | Request::Rebuilds(_)
        | Request::Change
        | Request::Output
        | Request::Order
        | Request::Rest => text.extend_from_slice(HELP),
    }
}

/// The word that may have been meant by the first one of a line that asks nothing, where that is no word.
pub fn meant_word(texts: &[Vec<u8>]) -> Option<&'static str> {
    let typed = texts.first()?;
    match entry_of(typed) {
        Some(_entry) => None,
        None => near_word(typed),
    }
}

/// The answer to the texts of a line that ask nothing: what their word takes, with an example, or which word may have
/// been meant.
///
/// # Errors
/// [`AllocError`] only where an allocation was refused.
pub fn not_asked_words(alloc: Global, texts: &[Vec<u8>]) -> Result<Vec<u8>, AllocError> {
    let mut text = Vec::new(alloc);
    match texts.first() {
        Some(word) => push_word(&mut text, word)?,
        None => text.extend_from_slice(b"nothing is asked\n")?,
    }
    Ok(text)
}
