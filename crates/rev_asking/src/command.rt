//! The command line as `clap` is told of it.
ghost use Rattle.std.specs.Prelude.{◌≡◌, codes, false, IfOk, IsOkAnd};
ghost use Rattle.clap.specs.Words.{AddsSubcommand, app_of, rule_of, shape_of};
ghost use Rattle.clap.specs.declared.builder.command.Command.TheViews.{out-Command};
ghost use Rattle.rev_asking.specs.Asking.{ask_shape, bare_certify, bare_program, bare_races, certify_shape, compare_shape, flag_rule, jobs_rule, other_rule, out_rule, picture_shape, program, races_shape, recording_rule, repeated_rule, replay_shape, schedule_shape, separate_shape, shuffle_shape, timeline_shape, value_rule, with_findings};

use clap::{Arg, ArgAction, Command};
use std::alloc::{AllocError, Global};

// What stands below the words in the help.
const EXAMPLE: &str =
    "RECORDING is the folder that record/rebug-record wrote, or the build.ninja in it.

Example:
  rebug races examples/flaky/passed

docs/RACES.md tells what a race is. `rebug --manifest M --trace T --script S`, which scripts use, is told by
`rebug --help`.";

// The recording.
fn recording<'a>(alloc: Global) -> Arg<'a>
    ensures rule { rule_of result ≡ recording_rule }
    ensures alone { result.global ≡ false }
{
    Arg::new(alloc, "RECORDING")
        .help("The recorder's folder, or its build.ninja")
        .required(true)
        .action(ArgAction::Set)
}

// An option that takes no value.
fn flag<'a>(alloc: Global, name: &'a str, help: &'a str) -> Arg<'a>
    ensures rule { rule_of result ≡ flag_rule name.entry.now }
    ensures alone { result.global ≡ false }
{
    Arg::new(alloc, name)
        .long(name)
        .help(help)
        .action(ArgAction::SetTrue)
}

// `--json`
fn json<'a>(alloc: Global) -> Arg<'a>
    ensures rule { rule_of result ≡ flag_rule (codes "json") }
    ensures alone { result.global ≡ false }
{
    flag(
        alloc,
        "json",
        "Writes a JSON object a line in place of words",
    )
}

// An option that takes a value.
fn valued<'a>(alloc: Global, name: &'a str, value: &'a str, help: &'a str) -> Arg<'a>
    ensures rule { rule_of result ≡ value_rule name.entry.now }
    ensures alone { result.global ≡ false }
{
    Arg::new(alloc, name)
        .long(name)
        .value_name(value)
        .help(help)
        .action(ArgAction::Set)
}

// An option that takes a value, and may be given several times.
fn repeated<'a>(alloc: Global, name: &'a str, value: &'a str, help: &'a str) -> Arg<'a>
    ensures rule { rule_of result ≡ repeated_rule name.entry.now }
    ensures alone { result.global ≡ false }
{
    Arg::new(alloc, name)
        .long(name)
        .value_name(value)
        .help(help)
        .action(ArgAction::Append)
}

// `-j N,..`
fn jobs<'a>(alloc: Global) -> Arg<'a>
    ensures rule { rule_of result ≡ jobs_rule }
    ensures alone { result.global ≡ false }
{
    Arg::new(alloc, "jobs")
        .short('j')
        .value_name("N,..")
        .help("With how many jobs; else with as many as the recording had, and with 1 to 64")
        .action(ArgAction::Set)
}

// Adds what `races` and `certify` take alike: which findings are left out, and the form of the answer.
fn with_findings<'a>(alloc: Global, command: Command<'a>) -> Result<Command<'a>, AllocError>
    ensures shape { IfOk result (λ c. app_of c ≡ with_findings (app_of command.entry)) }
    ensures local { (out-Command command.entry).has_globals ≡ false
        → IfOk result (λ c. (out-Command c).has_globals ≡ false) }
{
    command
        .arg(valued(
            alloc,
            "filters",
            "FILE",
            "Leaves out the places that the patterns of this file hide, as those of the file filters",
        ))?
        .arg(valued(
            alloc,
            "format",
            "FORMAT",
            "The form of the answer: words, json, github, sarif or junit",
        ))?
        .arg(valued(
            alloc,
            "baseline",
            "FILE",
            "Leaves out the findings that this file knows or ignores; only others count for the status",
        ))?
        .arg(valued(
            alloc,
            "write-baseline",
            "FILE",
            "Writes a file that knows all that is found",
        ))
}

// The arguments of `races`, but for what `certify` takes too.
fn bare_races<'a>(alloc: Global) -> Result<Command<'a>, AllocError>
    ensures shape { IfOk result (λ c. app_of c ≡ bare_races) }
    ensures local { IfOk result (λ c. (out-Command c).has_globals ≡ false) }
{
    Command::new(alloc, "races")
        .about(
            "Which commands read what another makes without waiting for it, and the line that mends it",
        )
        .arg(flag(
            alloc,
            "all",
            "Tells every user of a maker, and every command that was not judged",
        ))?
        .arg(json(alloc))?
        .arg(flag(
            alloc,
            "mend",
            "Writes a patch of the manifest that mends the races, or says what does where it is generated",
        ))?
        .arg(valued(
            alloc,
            "witness",
            "N",
            "Writes a trace from nothing in which the user of race N, as --json counts, starts before its maker",
        ))?
        .arg(valued(
            alloc,
            "provoke",
            "N",
            "Writes a patch of the manifest with which race N happens in each build: its maker waits for its user",
        ))?
        .arg(recording(alloc))
}

// `races RECORDING`
fn races<'a>(alloc: Global) -> Result<Command<'a>, AllocError>
    ensures shape { IfOk result (λ c. shape_of c ≡ races_shape) }
    ensures local { IfOk result (λ c. (out-Command c).has_globals ≡ false) }
{
    let races = bare_races(alloc)?;
    with_findings(alloc, races)
}

// `certify [--all] [--json] [--strict] [--trust FILE] RECORDING`, but for what `races` takes too.
fn bare_certify<'a>(alloc: Global) -> Result<Command<'a>, AllocError>
    ensures shape { IfOk result (λ c. app_of c ≡ bare_certify) }
    ensures local { IfOk result (λ c. (out-Command c).has_globals ≡ false) }
{
    Command::new(alloc, "certify")
        .about(
            "Whether no order of the build gives a command other inputs, by what its commands were seen to do",
        )
        .arg(flag(
            alloc,
            "all",
            "Tells all that stands in the way and all that is assumed",
        ))?
        .arg(json(alloc))?
        .arg(flag(
            alloc,
            "strict",
            "Refuses each assumption but the targets and that a command that sees the same does the same",
        ))?
        .arg(valued(
            alloc,
            "trust",
            "FILE",
            "Counts commands as observed whole whose flags the lines of this file name, each with a reason",
        ))?
        .arg(recording(alloc))
}

// `certify RECORDING`
fn certify<'a>(alloc: Global) -> Result<Command<'a>, AllocError>
    ensures shape { IfOk result (λ c. shape_of c ≡ certify_shape) }
    ensures local { IfOk result (λ c. (out-Command c).has_globals ≡ false) }
{
    let certify = bare_certify(alloc)?;
    with_findings(alloc, certify)
}

// `replay RECORDING`
fn replay<'a>(alloc: Global) -> Result<Command<'a>, AllocError>
    ensures shape { IfOk result (λ c. shape_of c ≡ replay_shape) }
    ensures local { IfOk result (λ c. (out-Command c).has_globals ≡ false) }
{
    Command::new(alloc, "replay")
        .about("Replays the recording, and tells whether every command was accepted")
        .arg(recording(alloc))
}

// `ask [--json] RECORDING`
fn ask<'a>(alloc: Global) -> Result<Command<'a>, AllocError>
    ensures shape { IfOk result (λ c. shape_of c ≡ ask_shape) }
    ensures local { IfOk result (λ c. (out-Command c).has_globals ≡ false) }
{
    Command::new(alloc, "ask")
        .about("Answers questions about the recording, a line of standard input each")
        .arg(json(alloc))?
        .arg(recording(alloc))
}

// The file that is written.
fn out<'a>(alloc: Global, help: &'a str) -> Arg<'a>
    ensures rule { rule_of result ≡ out_rule }
    ensures alone { result.global ≡ false }
{
    Arg::new(alloc, "OUT").help(help).action(ArgAction::Set)
}

// `picture RECORDING [OUT]`
fn picture<'a>(alloc: Global) -> Result<Command<'a>, AllocError>
    ensures shape { IfOk result (λ c. shape_of c ≡ picture_shape) }
    ensures local { IfOk result (λ c. (out-Command c).has_globals ≡ false) }
{
    Command::new(alloc, "picture")
        .about(
            "Draws the recording as SVG, to the file OUT if it is named: lanes by time, races in red",
        )
        .arg(flag(
            alloc,
            "html",
            "Writes a page that folds and zooms, without a network, in place of SVG",
        ))?
        .arg(valued(
            alloc,
            "event",
            "N",
            "Draws what the event of this number rests on, and what rests on it",
        ))?
        .arg(recording(alloc))?
        .arg(out(
            alloc,
            "The file to write, which ends in .svg or .html; else standard output",
        ))
}

// `timeline RECORDING [OUT]`
fn timeline<'a>(alloc: Global) -> Result<Command<'a>, AllocError>
    ensures shape { IfOk result (λ c. shape_of c ≡ timeline_shape) }
    ensures local { IfOk result (λ c. (out-Command c).has_globals ≡ false) }
{
    Command::new(alloc, "timeline")
        .about(
            "Writes a timeline that Perfetto and Chrome's viewer read, to the file OUT if it is named: lanes by time, races",
        )
        .arg(recording(alloc))?
        .arg(out(
            alloc,
            "The file to write, which ends in .json; else standard output",
        ))
}

// The other recording.
fn other<'a>(alloc: Global) -> Arg<'a>
    ensures rule { rule_of result ≡ other_rule }
    ensures alone { result.global ≡ false }
{
    Arg::new(alloc, "OTHER")
        .help("The recording to compare with")
        .required(true)
        .action(ArgAction::Set)
}

// `compare [--all] [--json] RECORDING OTHER`
fn compare<'a>(alloc: Global) -> Result<Command<'a>, AllocError>
    ensures shape { IfOk result (λ c. shape_of c ≡ compare_shape) }
    ensures local { IfOk result (λ c. (out-Command c).has_globals ≡ false) }
{
    Command::new(alloc, "compare")
        .about(
            "What differs between two recordings: statements, runs, and the order of dependent events",
        )
        .arg(flag(alloc, "all", "Tells all that differs"))?
        .arg(json(alloc))?
        .arg(recording(alloc))?
        .arg(other(alloc))
}

// `schedule [-j N,..] [--faster OUT=FACTOR].. [--pool NAME=DEPTH].. [--without FILE] [--json] RECORDING`
fn schedule<'a>(alloc: Global) -> Result<Command<'a>, AllocError>
    ensures shape { IfOk result (λ c. shape_of c ≡ schedule_shape) }
    ensures local { IfOk result (λ c. (out-Command c).has_globals ≡ false) }
{
    Command::new(alloc, "schedule")
        .about(
            "How long the build takes with other jobs, by Ninja's own rules and the times of the recording",
        )
        .arg(jobs(alloc))?
        .arg(repeated(
            alloc,
            "faster",
            "OUT=FACTOR",
            "The command that makes OUT is so many times as fast, as main.o=1.5",
        ))?
        .arg(repeated(
            alloc,
            "pool",
            "NAME=DEPTH",
            "The pool has another depth, as link=2; 0 is no limit",
        ))?
        .arg(valued(
            alloc,
            "without",
            "FILE",
            "Without the orders of the file's lines OUT INPUT: OUT does not wait for who makes INPUT",
        ))?
        .arg(json(alloc))?
        .arg(recording(alloc))
}

// `shuffle [--list] [--runs N] [--json] RECORDING`
fn shuffle<'a>(alloc: Global) -> Result<Command<'a>, AllocError>
    ensures shape { IfOk result (λ c. shape_of c ≡ shuffle_shape) }
    ensures local { IfOk result (λ c. (out-Command c).has_globals ≡ false) }
{
    Command::new(alloc, "shuffle")
        .about(
            "Lists orders in which the commands can run, and counts the pairs of commands that they reverse",
        )
        .arg(flag(
            alloc,
            "list",
            "Lists the orders of a recording; without it rebug shuffle runs a build",
        ))?
        .arg(valued(
            alloc,
            "runs",
            "N",
            "Lists at most N orders; else as many as reverse each pair of commands that can be, at most 12",
        ))?
        .arg(json(alloc))?
        .arg(recording(alloc))
}

// `separate`, which `rebug flakes` asks and no help names.
fn separate<'a>(alloc: Global) -> Result<Command<'a>, AllocError>
    ensures shape { IfOk result (λ c. shape_of c ≡ separate_shape) }
    ensures local { IfOk result (λ c. (out-Command c).has_globals ≡ false) }
{
    Ok(
        Command::new(alloc, "separate")
            .about(
                "Counts how the commands of the builds on standard input stood to each other, for rebug flakes",
            )
            .hide(true),
    )
}

// The program without its words.
fn bare_command<'a>(alloc: Global) -> Command<'a>
    ensures { app_of result ≡ bare_program }
{
    Command::new(alloc, "rebug")
        .version("0.9.0")
        .about("Answers questions about a recorded Ninja build, over the recording replayed")
        .after_help(EXAMPLE)
        .subcommand_required(true)
}

// Adds a word's command to the program's, where it was made. So `command` owns one value at a time: the drop of a command
// is proved again at each exit that it lives across.
fn with_word<'a>(
    program: Command<'a>,
    word: Result<Command<'a>, AllocError>,
) -> Result<Command<'a>, AllocError>
    ensures { IfOk result (λ c. IsOkAnd word.entry (λ w. AddsSubcommand program.entry w c)) }
{
    let word = word?;
    program.subcommand(word)
}

// The command line of the program.
pub(crate) fn command<'a>(alloc: Global) -> Result<Command<'a>, AllocError>
    ensures program { IfOk result (λ c. app_of c ≡ program) }
{
    let program = with_word(bare_command(alloc), races(alloc))?;
    let program = with_word(program, certify(alloc))?;
    let program = with_word(program, replay(alloc))?;
    let program = with_word(program, ask(alloc))?;
    let program = with_word(program, picture(alloc))?;
    let program = with_word(program, timeline(alloc))?;
    let program = with_word(program, compare(alloc))?;
    let program = with_word(program, schedule(alloc))?;
    let program = with_word(program, shuffle(alloc))?;
    with_word(program, separate(alloc))
}
