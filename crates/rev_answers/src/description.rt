//! What Ninja shows while a command runs, by the build statement and its rule.
use crate::statements::{from_line, rule_of};
use crate::told::Context;
use rev_manifest::Build;
use rev_paths::Name;
use std::alloc::{AllocError, Global};

// The name of the variable.
const DESCRIPTION: &[u8] = b"description";

// The place of the first line's end before which no `$` stands.
fn line_end(bytes: &[u8]) -> usize {
    let mut is_escaped = false;
    for (place, byte) in bytes.iter().enumerate() {
        if is_escaped {
            is_escaped = false;
        } else if *byte == b'$' {
            is_escaped = true;
        } else if *byte == b'\n' {
            return place;
        }
    }
    bytes.len()
}

// The first line of some bytes, and what follows it.
fn first_line(bytes: &[u8]) -> (&[u8], &[u8]) {
    let end = line_end(bytes);
    (
        bytes.get(..end).unwrap_or(&[]),
        bytes.get(end.saturating_add(1)..).unwrap_or(&[]),
    )
}

// What an indented line gives a variable, where it gives it something.
fn value_of<'a>(line: &'a [u8], name: &[u8]) -> Option<&'a [u8]> {
    let rest = line.trim_ascii_start().strip_prefix(name)?;
    let value = rest.trim_ascii_start().strip_prefix(b"=")?;
    Some(value.trim_ascii_start())
}

// What follows a line that is a comment, which ends no block; none where the first line is not a comment.
fn after_comment(bytes: &[u8]) -> Option<&[u8]> {
    let blanks = bytes.iter().take_while(|byte| **byte == b' ').count();
    if bytes.get(blanks) != Some(&b'#') {
        return None;
    }
    match bytes.iter().position(|byte| *byte == b'\n') {
        Some(end) => bytes.get(end.saturating_add(1)..),
        None => Some(&[]),
    }
}

// What the indented lines after the first line of some bytes give a variable: the last of them that names it.
fn bound<'a>(statement: &'a [u8], name: &[u8]) -> Option<&'a [u8]> {
    let (_head, mut rest) = first_line(statement);
    let mut bound = None;
    for _ in 0..statement.len() {
        if let Some(behind) = after_comment(rest) {
            rest = behind;
        } else {
            let (line, behind) = first_line(rest);
            if !line.starts_with(b" ") {
                return bound;
            }
            if let Some(value) = value_of(line, name) {
                bound = Some(value);
            }
            rest = behind;
        }
    }
    bound
}

// The bytes of a file from the rule of a name on.
fn rule_in<'a>(file: &'a [u8], name: &[u8]) -> Option<&'a [u8]> {
    let mut rest = file;
    for _ in 0..file.len() {
        if rest.is_empty() {
            return None;
        }
        if let Some(rule) = rest.strip_prefix(b"rule ")
            && first_line(rule).0.trim_ascii() == name
        {
            return Some(rest);
        }
        rest = match after_comment(rest) {
            Some(behind) => behind,
            None => first_line(rest).1,
        };
    }
    None
}

// The bytes of the files of a manifest from the rule of a name on: that of the file of a build, or else the first.
fn rule_among<'a>(files: &'a [(Vec<u8>, Vec<u8>)], build: &Build, name: &[u8]) -> Option<&'a [u8]> {
    if let Some((_name, bytes)) = files.get(build.file() as usize)
        && let Some(rule) = rule_in(bytes, name)
    {
        return Some(rule);
    }
    for (_name, bytes) in files {
        if let Some(rule) = rule_in(bytes, name) {
            return Some(rule);
        }
    }
    None
}

// A build, and the bytes of its file from its statement on.
#[derive(Clone, Copy)]
struct Scope<'a> {
    build: &'a Build,
    statement: &'a [u8],
}

// Adds names, with a space between them.
fn push_names(text: &mut Vec<u8>, names: &[Name]) -> Result<(), AllocError> {
    for (place, name) in names.iter().enumerate() {
        if place > 0 {
            text.push(b' ')?;
        }
        text.extend_from_slice(name.as_bytes())?;
    }
    Ok(())
}

// Whether a byte may stand in a variable's name behind `$` (Ninja manual, lexical syntax).
fn is_of_name(byte: u8) -> bool {
    byte.is_ascii_alphanumeric() || byte == b'_' || byte == b'-'
}

// The name of a variable behind a `$`, and what follows it; none where none stands there.
fn variable(bytes: &[u8]) -> Option<(&[u8], &[u8])> {
    if let Some(inner) = bytes.strip_prefix(b"{") {
        let end = inner.iter().position(|byte| *byte == b'}')?;
        return Some((inner.get(..end)?, inner.get(end.saturating_add(1)..)?));
    }
    let end = bytes
        .iter()
        .position(|byte| !is_of_name(*byte))
        .unwrap_or(bytes.len());
    if end == 0 {
        return None;
    }
    Some((bytes.get(..end)?, bytes.get(end..)?))
}

// What follows a `$` and a byte that it escapes, which is added; none where `$` escapes nothing.
fn unescaped<'a>(text: &mut Vec<u8>, bytes: &'a [u8]) -> Result<Option<&'a [u8]>, AllocError> {
    match bytes {
        [b'\n', rest @ ..] => Ok(Some(rest.trim_ascii_start())),
        [byte, rest @ ..] if *byte == b'$' || *byte == b' ' || *byte == b':' => {
            text.push(*byte)?;
            Ok(Some(rest))
        }
        _ => Ok(None),
    }
}

// Adds a value in which a `$` escapes bytes, and every variable stands as it is written.
fn push_plain(text: &mut Vec<u8>, value: &[u8]) -> Result<(), AllocError> {
    let mut rest = value;
    for _ in 0..value.len() {
        let Some((byte, behind)) = rest.split_first() else {
            break;
        };
        rest = behind;
        if *byte != b'$' {
            text.push(*byte)?;
        } else if let Some(next) = unescaped(text, behind)? {
            rest = next;
        } else {
            text.push(b'$')?;
        }
    }
    Ok(())
}

// Adds what a variable stands for; whether it is known.
fn push_variable(text: &mut Vec<u8>, scope: Scope<'_>, name: &[u8]) -> Result<bool, AllocError> {
    if name == b"out".as_slice() {
        push_names(text, scope.build.explicit_outs())?;
        return Ok(true);
    }
    if name == b"in".as_slice() {
        push_names(text, scope.build.explicit())?;
        return Ok(true);
    }
    match bound(scope.statement, name) {
        Some(value) => {
            push_plain(text, value)?;
            Ok(true)
        }
        None => Ok(false),
    }
}

// Adds what a variable behind a `$` stands for, and gives what follows it; a `$` where it is not known.
fn push_dollar<'a>(
    text: &mut Vec<u8>,
    scope: Scope<'_>,
    bytes: &'a [u8],
) -> Result<&'a [u8], AllocError> {
    if let Some(rest) = unescaped(text, bytes)? {
        return Ok(rest);
    }
    if let Some((name, rest)) = variable(bytes)
        && push_variable(text, scope, name)?
    {
        return Ok(rest);
    }
    text.push(b'$')?;
    Ok(bytes)
}

// Adds a value with what its variables stand for, as far as the build statement says it.
fn push_value(text: &mut Vec<u8>, scope: Scope<'_>, value: &[u8]) -> Result<(), AllocError> {
    let mut rest = value;
    for _ in 0..value.len() {
        let Some((byte, behind)) = rest.split_first() else {
            break;
        };
        if *byte == b'$' {
            rest = push_dollar(text, scope, behind)?;
        } else {
            text.push(*byte)?;
            rest = behind;
        }
    }
    Ok(())
}

/// The description of an edge, as its build statement has it, or else its rule: with `$in`, `$out` and the variables of
/// the build statement. A variable of the file stands as it is written. Empty where neither has a description.
///
/// # Errors
/// [`AllocError`] only where an allocation was refused.
pub(crate) fn description_of(
    alloc: Global,
    told: Context<'_>,
    build: &Build,
) -> Result<Vec<u8>, AllocError> {
    let mut text = Vec::new(alloc);
    let Some((_name, bytes)) = told.session.files.get(build.file() as usize) else {
        return Ok(text);
    };
    let statement = from_line(bytes, build.line());
    let scope = Scope { build, statement };
    let of_rule = match rule_of(told, build) {
        Some(name) => rule_among(told.session.files, build, name),
        None => None,
    };
    let value = match (bound(statement, DESCRIPTION), of_rule) {
        (Some(value), _) => Some(value),
        (None, Some(rule)) => bound(rule, DESCRIPTION),
        (None, None) => None,
    };
    if let Some(value) = value {
        push_value(&mut text, scope, value)?;
    }
    Ok(text)
}
