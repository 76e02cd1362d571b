//! The words of the command line, read.
ghost use Rattle.std.specs.Prelude.{◌≡◌, ◌↔◌, [], codes, false, IfOk, IsTrue, None, Some, map, option_map, string_bytes, unwrap_or};
ghost use Rattle.clap.specs.Words.{FailsBy, fault_of, first_value, found_of, matched_of, raw_values, subcommand_of, subcommand_rows_of};
ghost use Rattle.rev_asking.specs.Asking.{given_name, program, value_in, values_in, word_named};

use crate::command::command;
use clap::{ArgMatches, Error};
use std::alloc::{AllocError, Global};

/// What is asked of a recording.
#[derive(Clone, Copy)]
pub enum Word {
    /// Its races.
    Races,
    /// Whether no schedule gives its commands other inputs.
    Certify,
    /// Whether it replays.
    Replay,
    /// Whatever is asked on standard input.
    Ask,
    /// Its picture.
    Picture,
    /// Its timeline.
    Timeline,
    /// What differs between it and another recording.
    Compare,
    /// How long its build takes by other schedules.
    Schedule,
    /// In which orders its commands can run.
    Shuffle,
    /// How the commands of many builds stood to each other. No recording is asked.
    Separate,
}

/// What the words of a command line ask for.
#[derive(Clone, Copy)]
pub struct Request<'a> {
    /// What is asked.
    pub word: Word,
    /// The recorder's folder, or its manifest.
    pub recording: &'a str,
    /// The other recording, if one was named.
    pub other: Option<&'a str>,
    /// The file to write, if it was named.
    pub out: Option<&'a str>,
    /// Whether a page is written in place of a picture.
    pub html: bool,
    /// The number of the event whose dependences are drawn, as it was given, if it was.
    pub event: Option<&'a str>,
    /// Whether nothing is left out.
    pub all: bool,
    /// Whether a JSON object a line is written in place of words.
    pub json: bool,
    /// Whether a patch that mends the races is written in place of them.
    pub mend: bool,
    /// The number of the race of which a witness is written in place of all of them, as it was given.
    pub witness: Option<&'a str>,
    /// The number of the race that a patch has happen in each build, as it was given.
    pub provoke: Option<&'a str>,
    /// The file of further places that are left out, if it was named.
    pub filters: Option<&'a str>,
    /// The form of the answer, as it was given, if it was.
    pub format: Option<&'a str>,
    /// The file of known and ignored findings, if it was named.
    pub baseline: Option<&'a str>,
    /// The file to write that knows all findings, if it was named.
    pub write_baseline: Option<&'a str>,
    /// The numbers of jobs, as they were given, if they were.
    pub jobs: Option<&'a str>,
    /// The file of orders that are left out, if it was named.
    pub without: Option<&'a str>,
    /// Whether each assumption but two stands in the way of a certificate.
    pub strict: bool,
    /// The file of trusted flags, if it was named.
    pub trust: Option<&'a str>,
    /// Whether orders of its commands are listed, and nothing runs.
    pub list: bool,
    /// How many orders are wanted at most, as it was given, if it was.
    pub runs: Option<&'a str>,
}

/// What the words of a command line ask for, the first of which is the program's name.
///
/// # Errors
/// As `clap` has it: no word, or one that the command line has not, a recording that is missing, a wish for help or for
/// the version; or the system refused memory.
pub fn read_words<'a>(alloc: Global, words: &'a [String]) -> Result<Request<'a>, Error>
    ensures word { IfOk result (λ a. a.word ≡ word_named (given_name (map string_bytes words.entry.now))) }
    ensures recording { IfOk result (λ a. a.recording.now
        ≡ unwrap_or (value_in (map string_bytes words.entry.now) (codes "RECORDING")) []) }
    ensures other { IfOk result (λ a. option_map (λ s. s.now) a.other
        ≡ value_in (map string_bytes words.entry.now) (codes "OTHER")) }
    ensures out { IfOk result (λ a. option_map (λ s. s.now) a.out
        ≡ value_in (map string_bytes words.entry.now) (codes "OUT")) }
    ensures html { IfOk result (λ a. IsTrue a.html
        ↔ value_in (map string_bytes words.entry.now) (codes "html") ≡ Some (codes "true")) }
    ensures event { IfOk result (λ a. option_map (λ s. s.now) a.event
        ≡ value_in (map string_bytes words.entry.now) (codes "event")) }
    ensures all { IfOk result (λ a. IsTrue a.all
        ↔ value_in (map string_bytes words.entry.now) (codes "all") ≡ Some (codes "true")) }
    ensures json { IfOk result (λ a. IsTrue a.json
        ↔ value_in (map string_bytes words.entry.now) (codes "json") ≡ Some (codes "true")) }
    ensures mend { IfOk result (λ a. IsTrue a.mend
        ↔ value_in (map string_bytes words.entry.now) (codes "mend") ≡ Some (codes "true")) }
    ensures witness { IfOk result (λ a. option_map (λ s. s.now) a.witness
        ≡ value_in (map string_bytes words.entry.now) (codes "witness")) }
    ensures provoke { IfOk result (λ a. option_map (λ s. s.now) a.provoke
        ≡ value_in (map string_bytes words.entry.now) (codes "provoke")) }
    ensures filters { IfOk result (λ a. option_map (λ s. s.now) a.filters
        ≡ value_in (map string_bytes words.entry.now) (codes "filters")) }
    ensures format { IfOk result (λ a. option_map (λ s. s.now) a.format
        ≡ value_in (map string_bytes words.entry.now) (codes "format")) }
    ensures baseline { IfOk result (λ a. option_map (λ s. s.now) a.baseline
        ≡ value_in (map string_bytes words.entry.now) (codes "baseline")) }
    ensures write_baseline { IfOk result (λ a. option_map (λ s. s.now) a.write_baseline
        ≡ value_in (map string_bytes words.entry.now) (codes "write-baseline")) }
    ensures jobs { IfOk result (λ a. option_map (λ s. s.now) a.jobs
        ≡ value_in (map string_bytes words.entry.now) (codes "jobs")) }
    ensures without { IfOk result (λ a. option_map (λ s. s.now) a.without
        ≡ value_in (map string_bytes words.entry.now) (codes "without")) }
    ensures strict { IfOk result (λ a. IsTrue a.strict
        ↔ value_in (map string_bytes words.entry.now) (codes "strict") ≡ Some (codes "true")) }
    ensures trust { IfOk result (λ a. option_map (λ s. s.now) a.trust
        ≡ value_in (map string_bytes words.entry.now) (codes "trust")) }
    ensures list { IfOk result (λ a. IsTrue a.list
        ↔ value_in (map string_bytes words.entry.now) (codes "list") ≡ Some (codes "true")) }
    ensures runs { IfOk result (λ a. option_map (λ s. s.now) a.runs
        ≡ value_in (map string_bytes words.entry.now) (codes "runs")) }
    ensures fails { FailsBy (fault_of program (map string_bytes words.entry.now)) result }
{
    let matches = matches_of(alloc, words)?;
    match matches.subcommand() {
        Some((name, given)) => Ok(asked_of(name, given)),
        None => Ok(nothing_asked()),
    }
}

/// The values of an option that may be given several times, in their order. The words are those of [`read_words`].
///
/// # Errors
/// As [`read_words`].
pub fn read_values<'a>(
    alloc: Global,
    words: &'a [String],
    name: &str,
) -> Result<Vec<&'a str>, Error>
    ensures values { IfOk result (λ vs. map (λ v. v.now) vs.items
        ≡ values_in (map string_bytes words.entry.now) name.now) }
    ensures fails { FailsBy (fault_of program (map string_bytes words.entry.now)) result }
{
    let matches = matches_of(alloc, words)?;
    match matches.subcommand() {
        Some((_, given)) => {
            let values = values_of(alloc, given, name)?;
            Ok(values)
        }
        None => Ok(Vec::new(alloc)),
    }
}

// The values of an option among what was given.
fn values_of<'a>(
    alloc: Global,
    given: &ArgMatches<'a>,
    name: &str,
) -> Result<Vec<&'a str>, AllocError>
    ensures { IfOk result (λ vs. map (λ v. v.now) vs.items
        ≡ unwrap_or (option_map raw_values (matched_of (found_of given.now) name.now)) []) }
{
    match given.get_strs(name) {
        Some(values) => Vec::from_slice(alloc, values),
        None => Ok(Vec::new(alloc)),
    }
}

// What `clap` makes of the words.
fn matches_of<'a>(alloc: Global, words: &'a [String]) -> Result<ArgMatches<'a>, Error>
    ensures rows { IfOk result (λ m. subcommand_rows_of m
        ≡ subcommand_of program (map string_bytes words.entry.now)) }
    ensures fails { FailsBy (fault_of program (map string_bytes words.entry.now)) result }
{
    let command = command(alloc)?;
    command.try_get_matches_from(words)
}

// What is asked by a word of this name, to which this was given.
fn asked_of<'a>(name: &str, given: &ArgMatches<'a>) -> Request<'a>
    ensures word { result.word ≡ word_named name.now }
    ensures recording { result.recording.now ≡ unwrap_or (first_value (found_of given.now) (codes "RECORDING")) [] }
    ensures other { option_map (λ s. s.now) result.other ≡ first_value (found_of given.now) (codes "OTHER") }
    ensures out { option_map (λ s. s.now) result.out ≡ first_value (found_of given.now) (codes "OUT") }
    ensures html { IsTrue result.html ↔ first_value (found_of given.now) (codes "html") ≡ Some (codes "true") }
    ensures event { option_map (λ s. s.now) result.event ≡ first_value (found_of given.now) (codes "event") }
    ensures all { IsTrue result.all ↔ first_value (found_of given.now) (codes "all") ≡ Some (codes "true") }
    ensures json { IsTrue result.json ↔ first_value (found_of given.now) (codes "json") ≡ Some (codes "true") }
    ensures mend { IsTrue result.mend ↔ first_value (found_of given.now) (codes "mend") ≡ Some (codes "true") }
    ensures witness { option_map (λ s. s.now) result.witness ≡ first_value (found_of given.now) (codes "witness") }
    ensures provoke { option_map (λ s. s.now) result.provoke ≡ first_value (found_of given.now) (codes "provoke") }
    ensures filters { option_map (λ s. s.now) result.filters ≡ first_value (found_of given.now) (codes "filters") }
    ensures format { option_map (λ s. s.now) result.format ≡ first_value (found_of given.now) (codes "format") }
    ensures baseline { option_map (λ s. s.now) result.baseline ≡ first_value (found_of given.now) (codes "baseline") }
    ensures write_baseline { option_map (λ s. s.now) result.write_baseline ≡ first_value (found_of given.now) (codes "write-baseline") }
    ensures jobs { option_map (λ s. s.now) result.jobs ≡ first_value (found_of given.now) (codes "jobs") }
    ensures without { option_map (λ s. s.now) result.without ≡ first_value (found_of given.now) (codes "without") }
    ensures strict { IsTrue result.strict ↔ first_value (found_of given.now) (codes "strict") ≡ Some (codes "true") }
    ensures trust { option_map (λ s. s.now) result.trust ≡ first_value (found_of given.now) (codes "trust") }
    ensures list { IsTrue result.list ↔ first_value (found_of given.now) (codes "list") ≡ Some (codes "true") }
    ensures runs { option_map (λ s. s.now) result.runs ≡ first_value (found_of given.now) (codes "runs") }
{
    Request {
        word: word_named(name),
        recording: recording_of(given),
        other: given.get_str("OTHER"),
        out: given.get_str("OUT"),
        html: is_on(given, "html"),
        event: given.get_str("event"),
        all: is_on(given, "all"),
        json: is_on(given, "json"),
        mend: is_on(given, "mend"),
        witness: given.get_str("witness"),
        provoke: given.get_str("provoke"),
        filters: given.get_str("filters"),
        format: given.get_str("format"),
        baseline: given.get_str("baseline"),
        write_baseline: given.get_str("write-baseline"),
        jobs: given.get_str("jobs"),
        without: given.get_str("without"),
        strict: is_on(given, "strict"),
        trust: given.get_str("trust"),
        list: is_on(given, "list"),
        runs: given.get_str("runs"),
    }
}

// What is asked by no word.
fn nothing_asked<'a>() -> Request<'a>
    ensures word { result.word ≡ word_named [] }
    ensures recording { result.recording.now ≡ [] }
    ensures other { option_map (λ s. s.now) result.other ≡ None }
    ensures out { option_map (λ s. s.now) result.out ≡ None }
    ensures html { result.html ≡ false }
    ensures event { option_map (λ s. s.now) result.event ≡ None }
    ensures all { result.all ≡ false }
    ensures json { result.json ≡ false }
    ensures mend { result.mend ≡ false }
    ensures witness { result.witness ≡ None }
    ensures provoke { result.provoke ≡ None }
    ensures filters { result.filters ≡ None }
    ensures format { result.format ≡ None }
    ensures baseline { result.baseline ≡ None }
    ensures write_baseline { result.write_baseline ≡ None }
    ensures jobs { result.jobs ≡ None }
    ensures without { result.without ≡ None }
    ensures strict { result.strict ≡ false }
    ensures trust { result.trust ≡ None }
    ensures list { result.list ≡ false }
    ensures runs { result.runs ≡ None }
{
    Request {
        word: Word::Races,
        recording: "",
        other: None,
        out: None,
        html: false,
        event: None,
        all: false,
        json: false,
        mend: false,
        witness: None,
        provoke: None,
        filters: None,
        format: None,
        baseline: None,
        write_baseline: None,
        jobs: None,
        without: None,
        strict: false,
        trust: None,
        list: false,
        runs: None,
    }
}

// The recording that was given.
fn recording_of<'a>(given: &ArgMatches<'a>) -> &'a str
    ensures { result.now ≡ unwrap_or (first_value (found_of given.now) (codes "RECORDING")) [] }
{
    match given.get_str("RECORDING") {
        Some(recording) => recording,
        None => "",
    }
}

// The word of a name.
fn word_named(name: &str) -> Word
    ensures { result ≡ word_named name.now }
{
    if name == "replay" {
        Word::Replay
    } else if name == "ask" {
        Word::Ask
    } else if name == "certify" {
        Word::Certify
    } else if name == "picture" {
        Word::Picture
    } else if name == "timeline" {
        Word::Timeline
    } else if name == "compare" {
        Word::Compare
    } else if name == "schedule" {
        Word::Schedule
    } else if name == "shuffle" {
        Word::Shuffle
    } else if name == "separate" {
        Word::Separate
    } else {
        Word::Races
    }
}

// Whether an option that takes no value was given.
fn is_on(matches: &ArgMatches<'_>, name: &str) -> bool
    ensures { IsTrue result ↔ first_value (found_of matches.now) name.now ≡ Some (codes "true") }
{
    matches.get_str(name) == Some("true")
}
