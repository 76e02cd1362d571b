//! The command line, as `clap` reads it.
ghost use Rattle.std.specs.Prelude.{◌≡◌, [], codes, false, IfOk};
ghost use Rattle.clap.specs.Built.{TakesValue};
ghost use Rattle.clap.specs.Words.{IsPlainArg, app_of, args_of, groups_of, rule_of};
ghost use Rattle.clap.specs.declared.builder.command.Command.TheViews.{out-Command};
ghost use Rattle.rev_options.specs.CommandLine.{Gives, bare_program, file_rule, flag_rule, others_rule, program};

use clap::{Arg, ArgAction, Command};
use std::alloc::{AllocError, Global};

// What stands below the options in the help.
const EXAMPLE: &str = "Example:
  rebug --manifest build.ninja --trace build.trace --script questions rules.ninja

Each FILE has the name by which the manifest includes it. record/rebug-record writes MANIFEST, TRACE and SCRIPT of a
real build. docs/FORMATS.md tells what stands in them and in the report, docs/CODES.md what its numbers mean.";

// An option that names a file, and that has to be given.
fn file_option<'a>(alloc: Global, name: &'a str, value: &'a str, help: &'a str) -> Arg<'a>
    ensures rule { rule_of result ≡ file_rule name.entry.now }
    ensures plain { IsPlainArg result }
    ensures alone { result.global ≡ false }
    ensures value { TakesValue result }
{
    Arg::new(alloc, name)
        .long(name)
        .value_name(value)
        .help(help)
        .required(true)
        .action(ArgAction::Set)
}

// An option that takes no value.
fn flag_option<'a>(alloc: Global, name: &'a str, help: &'a str) -> Arg<'a>
    ensures rule { rule_of result ≡ flag_rule name.entry.now }
    ensures plain { IsPlainArg result }
    ensures alone { result.global ≡ false }
{
    Arg::new(alloc, name)
        .long(name)
        .help(help)
        .action(ArgAction::SetTrue)
}

// The words that are no options.
fn others<'a>(alloc: Global) -> Arg<'a>
    ensures rule { rule_of result ≡ others_rule }
    ensures plain { IsPlainArg result }
    ensures alone { result.global ≡ false }
{
    Arg::new(alloc, "FILE")
        .help("Files that the manifest names by include or subninja")
        .num_args(0..)
        .action(ArgAction::Append)
}

// The program without its arguments.
fn bare_command<'a>(alloc: Global) -> Command<'a>
    ensures app { app_of result ≡ bare_program }
    ensures empty { (args_of result ≡ []) × (groups_of result ≡ []) }
    ensures local { (out-Command result).has_globals ≡ false }
    ensures negates { (out-Command result).subcommand_negates_reqs ≡ false }
{
    Command::new(alloc, "rebug")
        .version("0.9.0")
        .about(
            "Replays a recorded Ninja build, tells why each edge ran, and undoes its events, also out of order",
        )
        .after_help(EXAMPLE)
}

// The command line of the program.
pub(crate) fn command<'a>(alloc: Global) -> Result<Command<'a>, AllocError>
    ensures program { IfOk result (λ c. app_of c ≡ program) }
    ensures manifest { IfOk result (λ c. Gives c (codes "manifest")) }
    ensures trace { IfOk result (λ c. Gives c (codes "trace")) }
    ensures script { IfOk result (λ c. Gives c (codes "script")) }
{
    let manifest = "The build's manifest as Ninja reads it: rules, pools and build lines";
    let trace = "The recorded build: the files and logs before it, then what happened, a line each";
    let script = "What to do with it: run the trace, undo, redo, ask why";
    let workers =
        "Runs each lane of the trace on a thread of its own, so the report may differ from run to run";
    let migrate =
        "Writes the trace in version 2 in place of a report; manifest and script are not read";
    bare_command(alloc)
        .arg(file_option(alloc, "manifest", "MANIFEST", manifest))?
        .arg(file_option(alloc, "trace", "TRACE", trace))?
        .arg(file_option(alloc, "script", "SCRIPT", script))?
        .arg(flag_option(alloc, "workers", workers))?
        .arg(flag_option(alloc, "migrate", migrate))?
        .arg(others(alloc))
}
