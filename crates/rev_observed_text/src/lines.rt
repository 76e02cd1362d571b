//! The lines of paths and commands, each with the LF at its end.
ghost use Rattle.std.specs.Prelude.{◌≡◌, ◌++◌, ◌<◌, ◌^◌, ◌∷◌, [], codes, decimal, map, OnOk};
ghost use Rattle.std.specs.List.{AllByRecursion, flat_map};
ghost use Rattle.std.specs.Option.{ForSome};
ghost use Rattle.rev_fields.specs.Fields.{field_text, spaced};
ghost use Rattle.rev_paths.specs.Canonical.{IsCanonical};
ghost use Rattle.rev_observed.specs.Texts.{command_texts, edge_texts, ended, flag_text, flag_texts, line_text, outside_texts, path_texts, range_text, uses_texts};
ghost use Rattle.rev_observed.specs.Words.{kind_text};
ghost use Rattle.rev_observed_text.specs.Writable.{IsWritable, IsWritableUses};

use rev_fields::{next_field, next_number, push_number};
use rev_observed::{Command, Flags, Kind, PathRange, Uses};
use rev_paths::{Name, Paths};
use std::alloc::AllocError;

// `path PATH`
fn push_path(text: &mut Vec<u8>, path: &Name) -> Result<(), AllocError>
    ensures text { OnOk result (text.new.items ≡ text.old.items ++ ended (line_text (path_texts path.now))) }
    ensures canonical { OnOk result (IsCanonical path.now) }
{
    text.extend_from_slice(b"path")?;
    next_field(text, path.as_bytes())?;
    text.push(b'\n')?;
    Ok(())
}

/// The lines of paths, by number.
///
/// # Errors
/// [`AllocError`] only where an allocation was refused.
pub(crate) fn push_paths(text: &mut Vec<u8>, paths: &Paths) -> Result<(), AllocError>
    ensures text { OnOk result (text.new.items
        ≡ text.old.items ++ flat_map ended (map line_text (map path_texts paths.now))) }
    ensures canonical { OnOk result (AllByRecursion IsCanonical paths.now) }
{
    for place in 0..paths.len() {
        push_path(text, paths.path(place))?;
    }
    Ok(())
}

// A word, where its flag is set.
fn push_flag(text: &mut Vec<u8>, is_set: bool, word: &[u8]) -> Result<(), AllocError>
    ensures { OnOk result (text.new.items
        ≡ text.old.items ++ flat_map spaced (map field_text (flag_text is_set word.now))) }
{
    if is_set {
        next_field(text, word)?;
    }
    Ok(())
}

// The words of the flags that are set.
fn push_flags(text: &mut Vec<u8>, flags: Flags) -> Result<(), AllocError>
    ensures { OnOk result (text.new.items ≡ text.old.items ++ flat_map spaced (map field_text (flag_texts flags))) }
{
    push_flag(text, flags.cut, b"cut")?;
    push_flag(text, flags.server, b"server")?;
    push_flag(text, flags.namespace, b"namespace")?;
    push_flag(text, flags.uring, b"uring")?;
    push_flag(text, flags.unresolved, b"unresolved")?;
    push_flag(text, flags.twin, b"twin")
}

// `edge OUT [FLAG...]`
fn push_edge(text: &mut Vec<u8>, command: &Command) -> Result<(), AllocError>
    ensures text { OnOk result (text.new.items ≡ text.old.items ++ ended (line_text (edge_texts command.now))) }
    ensures canonical { OnOk result (IsCanonical command.now.output) }
{
    text.extend_from_slice(b"edge")?;
    next_field(text, command.output().as_bytes())?;
    push_flags(text, command.flags())?;
    text.push(b'\n')?;
    Ok(())
}

// The word of a kind.
fn word_of(kind: Kind) -> &'static [u8]
    ensures { result.now ≡ kind_text kind }
{
    match kind {
        Kind::Reads => b"reads",
        Kind::Stats => b"stats",
        Kind::Misses => b"misses",
        Kind::Lists => b"lists",
        Kind::Writes => b"writes",
        Kind::Edits => b"edits",
        Kind::Deletes => b"deletes",
        Kind::Temps => b"temps",
        Kind::Folders => b"folders",
    }
}

// A number of 32 bits with room for more.
fn wide(number: u32) -> u64
    ensures same { result ≡ number }
    ensures short { number < 2 ^ 32 }
{
    u64::from(number)
}

// A space, and a number or two with `-` between them.
fn next_range(text: &mut Vec<u8>, range: PathRange) -> Result<(), AllocError>
    ensures text { OnOk result (text.new.items ≡ text.old.items ++ spaced (field_text (range_text range))) }
    ensures short { range.last < 2 ^ 32 }
{
    let first = wide(range.first);
    let last = wide(range.last);
    next_number(text, first)?;
    if first != last {
        text.push(b'-')?;
        push_number(text, last)?;
    }
    Ok(())
}

// `KIND NUMBER...`
fn push_uses(text: &mut Vec<u8>, uses: &Uses) -> Result<(), AllocError>
    ensures text { OnOk result (text.new.items ≡ text.old.items ++ ended (line_text (uses_texts uses.now))) }
    ensures writable { OnOk result (IsWritableUses uses.now) }
{
    text.extend_from_slice(word_of(uses.kind))?;
    for range in uses.paths.ranges() {
        next_range(text, *range)?;
    }
    text.push(b'\n')?;
    Ok(())
}

// The lines of all that a command did.
fn push_all_uses(text: &mut Vec<u8>, uses: &[Uses]) -> Result<(), AllocError>
    ensures text { OnOk result (text.new.items
        ≡ text.old.items ++ flat_map ended (map line_text (map uses_texts uses.now))) }
    ensures writable { OnOk result (AllByRecursion IsWritableUses uses.now) }
{
    for one in uses {
        push_uses(text, one)?;
    }
    Ok(())
}

// `outside N`
fn push_count(text: &mut Vec<u8>, count: u64) -> Result<(), AllocError>
    ensures { OnOk result (text.new.items
        ≡ text.old.items ++ ended (line_text (codes "outside" ∷ decimal count ∷ []))) }
{
    text.extend_from_slice(b"outside")?;
    next_number(text, count)?;
    text.push(b'\n')?;
    Ok(())
}

// The line of how many places are not named, where that is known.
fn push_outside(text: &mut Vec<u8>, outside: Option<u64>) -> Result<(), AllocError>
    ensures text { OnOk result (text.new.items
        ≡ text.old.items ++ flat_map ended (map line_text (outside_texts outside))) }
    ensures short { ForSome outside (λ n. n < 2 ^ 64) }
{
    if let Some(count) = outside {
        push_count(text, count)?;
    }
    Ok(())
}

// The lines of a command.
fn push_command(text: &mut Vec<u8>, command: &Command) -> Result<(), AllocError>
    ensures text { OnOk result (text.new.items
        ≡ text.old.items ++ flat_map ended (map line_text (command_texts command.now))) }
    ensures writable { OnOk result (IsWritable command.now) }
{
    push_edge(text, command)?;
    push_all_uses(text, command.uses())?;
    push_outside(text, command.outside())
}

/// The lines of commands.
///
/// # Errors
/// [`AllocError`] only where an allocation was refused.
pub(crate) fn push_commands(text: &mut Vec<u8>, commands: &[Command]) -> Result<(), AllocError>
    ensures text { OnOk result (text.new.items
        ≡ text.old.items ++ flat_map ended (map line_text (flat_map command_texts commands.now))) }
    ensures writable { OnOk result (AllByRecursion IsWritable commands.now) }
{
    for command in commands {
        push_command(text, command)?;
    }
    Ok(())
}
