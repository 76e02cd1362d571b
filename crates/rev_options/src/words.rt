//! The words of the command line, read.
ghost use Rattle.std.specs.Prelude.{◌≡◌, ◌↔◌, [], codes, is_some, IfOk, IsTrue, Some, map, option_map, string_bytes, true, unwrap_or};
ghost use Rattle.clap.specs.Words.{FailsBy, fault_of, first_value, found_of, matched_of, matches_of, raw_values, rows_of};
ghost use Rattle.rev_options.specs.CommandLine.{others_in, program, value_in};

use crate::command::command;
use crate::fields::Options;
use clap::{ArgMatches, Error};
use std::alloc::{AllocError, Global};

/// What the words of a command line say. The first word is the program's name.
///
/// # Errors
/// The faults of `clap`: a word that is not an option, an option without its file or given twice, a file that is
/// missing. A wish for the help or the version is an error too, as `clap` has it, and so is refused memory.
pub fn options<'a>(alloc: Global, words: &'a [String]) -> Result<Options<'a>, Error>
    ensures manifest { IfOk result (λ o. value_in (map string_bytes words.entry.now) (codes "manifest")
        ≡ Some o.manifest.now) }
    ensures trace { IfOk result (λ o. value_in (map string_bytes words.entry.now) (codes "trace")
        ≡ Some o.trace.now) }
    ensures script { IfOk result (λ o. value_in (map string_bytes words.entry.now) (codes "script")
        ≡ Some o.script.now) }
    ensures workers { IfOk result (λ o. IsTrue o.workers
        ↔ value_in (map string_bytes words.entry.now) (codes "workers") ≡ Some (codes "true")) }
    ensures migrate { IfOk result (λ o. IsTrue o.migrate
        ↔ value_in (map string_bytes words.entry.now) (codes "migrate") ≡ Some (codes "true")) }
    ensures files { IfOk result (λ o. map (λ f. f.now) o.files.items
        ≡ others_in (map string_bytes words.entry.now)) }
    ensures fails { FailsBy (fault_of program (map string_bytes words.entry.now)) result }
{
    let matches = matches_of(alloc, words)?;
    let files = files_of(alloc, &matches)?;
    Ok(Options {
        manifest: file_of(&matches, "manifest"),
        trace: file_of(&matches, "trace"),
        script: file_of(&matches, "script"),
        workers: is_on(&matches, "workers"),
        migrate: is_on(&matches, "migrate"),
        files,
    })
}

// What `clap` makes of the words.
fn matches_of<'a>(alloc: Global, words: &'a [String]) -> Result<ArgMatches<'a>, Error>
    ensures rows { IfOk result (λ m. rows_of (found_of m)
        ≡ matches_of program (map string_bytes words.entry.now)) }
    ensures fails { FailsBy (fault_of program (map string_bytes words.entry.now)) result }
    ensures manifest { IfOk result (λ m. is_some (first_value (found_of m) (codes "manifest")) ≡ true) }
    ensures trace { IfOk result (λ m. is_some (first_value (found_of m) (codes "trace")) ≡ true) }
    ensures script { IfOk result (λ m. is_some (first_value (found_of m) (codes "script")) ≡ true) }
{
    let command = command(alloc)?;
    command.try_get_matches_from(words)
}

// The file of an option that has been given one.
fn file_of<'a>(matches: &ArgMatches<'a>, name: &str) -> &'a str
    requires { is_some (first_value (found_of matches.now) name.now) ≡ true }
    ensures { first_value (found_of matches.now) name.now ≡ Some result.now }
{
    match matches.get_str(name) {
        Some(file) => file,
        None => unreachable!(),
    }
}

// Whether an option that takes no value was given.
fn is_on(matches: &ArgMatches<'_>, name: &str) -> bool
    ensures { IsTrue result ↔ first_value (found_of matches.now) name.now ≡ Some (codes "true") }
{
    matches.get_str(name) == Some("true")
}

// The words that are no options.
fn files_of<'a>(alloc: Global, matches: &ArgMatches<'a>) -> Result<Vec<&'a str>, AllocError>
    ensures { IfOk result (λ files. map (λ f. f.now) files.items
        ≡ unwrap_or (option_map raw_values (matched_of (found_of matches.now) (codes "FILE"))) []) }
{
    match matches.get_strs("FILE") {
        Some(names) => Vec::from_slice(alloc, names),
        None => Ok(Vec::new(alloc)),
    }
}
