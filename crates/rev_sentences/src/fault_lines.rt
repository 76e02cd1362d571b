//! The sentence about the fault line of a report.
ghost use Rattle.std.specs.Prelude.{◌≡◌, ◌==◌, ◌++◌, ℕ, IfOk, IfSome, None, OnOk, is_some};
ghost use Rattle.std.specs.List.{last_or, slice_get, slice_split};
ghost use Rattle.std.specs.Option.{option_copied};
ghost use Rattle.rev_fields.specs.Parts.{vectors_of};
ghost use Rattle.rev_sentences.specs.Sentences.{Grows, Tells, fault_line, fault_number, line_at, meaning_text, number_at, number_told, report_number, text_or_none, told_by};
ghost use Rattle.rev_sentences.specs.Meanings.{meaning_of};

use crate::meanings::meaning;
use rev_fields::{LineFault, push_number, read_fields, wide_number};
use std::alloc::{AllocError, Global};

/// The names and the bytes of a run's input files.
#[derive(Clone, Copy)]
pub struct Inputs<'a> {
    /// The manifest and the files that it may include.
    pub files: &'a [(Vec<u8>, Vec<u8>)],
    /// The name and the bytes of the trace.
    pub trace: (&'a [u8], &'a [u8]),
    /// The name and the bytes of the script.
    pub script: (&'a [u8], &'a [u8]),
}

// Where a fault stands: the file's name, its bytes, and the line, which counts from 1 and is 0 for no line.
#[derive(Clone, Copy)]
struct Place<'a> {
    name: &'a [u8],
    bytes: &'a [u8],
    line: u64,
}

// The line behind so many lines of a text, without its end.
fn line_behind(text: &[u8], before: usize) -> Option<&[u8]>
    ensures { option_copied result ≡ slice_get (slice_split (λ b. b == 10) text.now) before }
{
    text.split(|byte| *byte == b'\n').nth(before)
}

// The last line of a text, without its end.
fn last_line(text: &[u8]) -> Option<&[u8]>
    ensures { option_copied result ≡ last_or None (slice_split (λ b. b == 10) text.now) }
{
    text.split(|byte| *byte == b'\n').last()
}

// The line of this number, without its end; nothing where there is none.
fn line_at(text: &[u8], line: u64) -> &[u8]
    ensures { result.now ≡ line_at text.now line }
{
    line_behind(text, line.saturating_sub(1) as usize).unwrap_or(&[])
}

// The file that was given under a name, or the name alone.
fn file_named<'a>(files: &'a [(Vec<u8>, Vec<u8>)], name: &'a [u8], line: u64) -> Place<'a> {
    for (given, bytes) in files {
        if given.as_slice() == name {
            return Place { name, bytes, line };
        }
    }
    Place {
        name,
        bytes: &[],
        line,
    }
}

fn push(sentence: &mut Vec<u8>, text: &str) -> Result<(), AllocError>
    ensures { OnOk result (sentence.new.items ≡ sentence.old.items ++ text.now) }
{
    sentence.extend_from_slice(text.as_bytes())
}

// What a number means, nothing where no report has the number.
fn words_of(number: u64) -> &'static str
    ensures { result.now ≡ text_or_none (meaning_of number) }
{
    match meaning(number) {
        Some(words) => words,
        None => "",
    }
}

// What the number means, and where more of it stands.
fn push_meaning(sentence: &mut Vec<u8>, number: u64) -> Result<(), AllocError>
    ensures { OnOk result (sentence.new.items ≡ sentence.old.items ++ meaning_text number) }
{
    push(sentence, words_of(number))?;
    push(sentence, " (")?;
    push_number(sentence, number)?;
    push(sentence, ", docs/CODES.md)")
}

// The file and the line before a colon.
fn push_place(sentence: &mut Vec<u8>, place: Place<'_>) -> Result<(), AllocError> {
    sentence.extend_from_slice(place.name)?;
    if place.line > 0 {
        push(sentence, ":")?;
        push_number(sentence, place.line)?;
    }
    push(sentence, ": ")
}

// What a line names after its keyword.
fn path_named(line: &[u8]) -> Option<&[u8]> {
    let path = match line.strip_prefix(b"include ") {
        Some(path) => path,
        None => line.strip_prefix(b"subninja ")?,
    };
    Some(path)
}

// The file that was given under a name which is longer than a path and ends in it.
fn given_for<'a>(files: &'a [(Vec<u8>, Vec<u8>)], path: &[u8]) -> Option<&'a [u8]> {
    for (given, _) in files {
        if given.ends_with(path) && given.len() > path.len() {
            return Some(given.as_slice());
        }
    }
    None
}

// Which file was given under a longer name than the one that was looked for, if there is one, and what to do.
fn push_given(sentence: &mut Vec<u8>, given: Option<&[u8]>) -> Result<(), AllocError>
    ensures { OnOk result (Grows sentence.old.items sentence.new.items) }
{
    let Some(given) = given else {
        return push(sentence, "; name it after the options");
    };
    push(sentence, "; given was ")?;
    sentence.extend_from_slice(given)?;
    push(
        sentence,
        ", so run rebug in the folder from which the manifest names its files",
    )
}

// Why a file was not found: what was looked for, and the file that was given under a longer name, if there is one.
fn push_looked_for(
    sentence: &mut Vec<u8>,
    place: Place<'_>,
    files: &[(Vec<u8>, Vec<u8>)],
) -> Result<(), AllocError>
    ensures { OnOk result (Grows sentence.old.items sentence.new.items) }
{
    let Some(path) = path_named(line_at(place.bytes, place.line)) else {
        return push(sentence, "");
    };
    push(sentence, "; looked for among the files that were given: ")?;
    sentence.extend_from_slice(path)?;
    push_given(sentence, given_for(files, path))
}

// What the line itself shows of a fault.
fn push_shown(
    sentence: &mut Vec<u8>,
    place: Place<'_>,
    number: u64,
    files: &[(Vec<u8>, Vec<u8>)],
) -> Result<(), AllocError>
    ensures { OnOk result (Grows sentence.old.items sentence.new.items) }
{
    if number == 20 {
        return push_looked_for(sentence, place, files);
    }
    if number >= 100 && line_at(place.bytes, place.line).ends_with(b"\r") {
        return push(
            sentence,
            "; its lines end in CR LF, and here they end in LF alone",
        );
    }
    push(sentence, "")
}

// A sentence about a place: what the number means, and what the line itself shows of it.
fn place_sentence(
    alloc: Global,
    place: Place<'_>,
    number: u64,
    files: &[(Vec<u8>, Vec<u8>)],
) -> Result<Vec<u8>, AllocError>
    ensures { IfOk result (λ sentence. Tells sentence.items number) }
{
    let mut sentence = Vec::new(alloc);
    push_place(&mut sentence, place)?;
    push_meaning(&mut sentence, number)?;
    push_shown(&mut sentence, place, number, files)?;
    Ok(sentence)
}

// The name of the manifest, before a colon.
fn push_manifest(sentence: &mut Vec<u8>, files: &[(Vec<u8>, Vec<u8>)]) -> Result<(), AllocError> {
    if let Some((name, _)) = files.first() {
        sentence.extend_from_slice(name)?;
        push(sentence, ": ")?;
    }
    Ok(())
}

// The path that a fault of a graph names, where it names one.
fn push_path(sentence: &mut Vec<u8>, path: Option<&Vec<u8>>) -> Result<(), AllocError>
    ensures { OnOk result (Grows sentence.old.items sentence.new.items) }
{
    let Some(path) = path else {
        return push(sentence, "");
    };
    push(sentence, ": ")?;
    sentence.extend_from_slice(path)
}

// A sentence about the edges of a manifest, with the path that the fault names, where it names one.
fn graph_sentence(
    alloc: Global,
    number: u64,
    path: Option<&Vec<u8>>,
    files: &[(Vec<u8>, Vec<u8>)],
) -> Result<Vec<u8>, AllocError>
    ensures { IfOk result (λ sentence. Tells sentence.items number) }
{
    let mut sentence = Vec::new(alloc);
    push_manifest(&mut sentence, files)?;
    push_meaning(&mut sentence, number)?;
    push_path(&mut sentence, path)?;
    Ok(sentence)
}

// A sentence about a lane.
fn lane_sentence(alloc: Global, number: u64, lane: u64) -> Result<Vec<u8>, AllocError>
    ensures { IfOk result (λ sentence. Tells sentence.items number) }
{
    let mut sentence = Vec::new(alloc);
    push(&mut sentence, "lane ")?;
    push_number(&mut sentence, lane)?;
    push(&mut sentence, ": ")?;
    push_meaning(&mut sentence, number)?;
    Ok(sentence)
}

// The number that the field at a place writes, if there is the field and it writes one.
fn number_at(fields: &[Vec<u8>], place: usize) -> Result<Option<u64>, AllocError>
    ensures { IfOk result (λ number. number ≡ number_at (vectors_of fields.now) place) }
{
    let Some(field) = fields.get(place) else {
        return Ok(None);
    };
    match wide_number(field) {
        Ok(number) => Ok(Some(number)),
        Err(LineFault::Memory) => Err(AllocError),
        Err(LineFault::Kind(_)) => Ok(None),
    }
}

// The number at a place, where another field writes one too.
fn number_beside(fields: &[Vec<u8>], place: usize, beside: usize) -> Result<Option<u64>, AllocError>
    ensures { IfOk result (λ number. number
        ≡ told_by (number_at (vectors_of fields.now) beside) (number_at (vectors_of fields.now) place)) }
{
    match number_at(fields, beside)? {
        Some(_) => number_at(fields, place),
        None => Ok(None),
    }
}

// The number of the fault that a line tells with these fields after its first.
fn fault_number(what: &[u8], rest: &[Vec<u8>]) -> Result<Option<u64>, AllocError>
    ensures { IfOk result (λ number. number ≡ fault_number what.now (vectors_of rest.now)) }
{
    if what == b"graph".as_slice() {
        return number_at(rest, 0);
    }
    if what == b"close".as_slice() {
        return number_beside(rest, 0, 1);
    }
    if what == b"trace".as_slice() {
        return number_beside(rest, 1, 0);
    }
    if what == b"script".as_slice() {
        return number_beside(rest, 1, 0);
    }
    if what == b"manifest".as_slice() {
        return number_beside(rest, 2, 1);
    }
    Ok(None)
}

// The place of a fault in a trace, a script or a manifest, by what its line has after its first field.
fn place_of<'a>(
    what: &[u8],
    rest: &'a [Vec<u8>],
    inputs: Inputs<'a>,
) -> Result<Place<'a>, AllocError> {
    if what == b"manifest".as_slice() {
        let line = number_at(rest, 1)?.unwrap_or(0);
        let name: &'a [u8] = match rest.first() {
            Some(name) => name.as_slice(),
            None => &[],
        };
        return Ok(file_named(inputs.files, name, line));
    }
    let line = number_at(rest, 0)?.unwrap_or(0);
    let (name, bytes) = if what == b"trace".as_slice() {
        inputs.trace
    } else {
        inputs.script
    };
    Ok(Place { name, bytes, line })
}

// The sentence of a fault line that tells this number, with these fields after its first.
fn sentence_for(
    alloc: Global,
    what: &[u8],
    rest: &[Vec<u8>],
    number: u64,
    inputs: Inputs<'_>,
) -> Result<Vec<u8>, AllocError>
    ensures { IfOk result (λ sentence. Tells sentence.items number) }
{
    if what == b"graph".as_slice() {
        return graph_sentence(alloc, number, rest.get(1), inputs.files);
    }
    if what == b"close".as_slice() {
        let lane = number_at(rest, 1)?.unwrap_or(0);
        return lane_sentence(alloc, number, lane);
    }
    let place = place_of(what, rest, inputs)?;
    place_sentence(alloc, place, number, inputs.files)
}

// The sentence of a line with these fields, none where it tells no fault.
fn sentence_of(
    alloc: Global,
    fields: &[Vec<u8>],
    inputs: Inputs<'_>,
) -> Result<Option<Vec<u8>>, AllocError>
    ensures some { IfOk result (λ said. IfSome said (λ sentence.
        IfSome (number_told (vectors_of fields.now)) (λ number. Tells sentence.items number))) }
    ensures told { IfOk result (λ said. is_some said ≡ is_some (number_told (vectors_of fields.now))) }
{
    let Some((_fault, others)) = fields.split_first() else {
        return Ok(None);
    };
    let Some((what, rest)) = others.split_first() else {
        return Ok(None);
    };
    match fault_number(what, rest)? {
        Some(number) => Ok(Some(sentence_for(alloc, what, rest, number, inputs)?)),
        None => Ok(None),
    }
}

// The last line of a report, where that is a whole fault line.
fn fault_line(report: &[u8]) -> Option<&[u8]>
    ensures { option_copied result ≡ fault_line report.now }
{
    let lines = report.strip_suffix(b"\n")?;
    let line = last_line(lines)?;
    if line.starts_with(b"fault ") {
        Some(line)
    } else {
        None
    }
}

/// One sentence about the last line of a report: where the fault is, and what it means. `None` where the last line is
/// not a fault line, or is incomplete.
pub fn sentence(
    alloc: Global,
    report: &[u8],
    inputs: Inputs<'_>,
) -> Result<Option<Vec<u8>>, AllocError>
    // There is one exactly where the last line tells a fault's number, and what the number means stands in it.
    ensures told { IfOk result (λ said. is_some said ≡ is_some (report_number report.now)) }
    ensures meaning { IfOk result (λ said. IfSome said (λ sentence.
        IfSome (report_number report.now) (λ number. Tells sentence.items number))) }
{
    let Some(line) = fault_line(report) else {
        return Ok(None);
    };
    match read_fields(alloc, line) {
        Ok(fields) => sentence_of(alloc, &fields, inputs),
        Err(LineFault::Memory) => Err(AllocError),
        Err(LineFault::Kind(_)) => Ok(None),
    }
}
