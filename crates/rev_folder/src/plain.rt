//! The user's own manifest as the reader of manifests takes it: with another name in the place of `dyndep`.
use std::alloc::{AllocError, Global};

// What stands before the name of a binding below a build line. The recorder writes the same.
const RENAMED: &[u8] = b"resolved_";
// The name that is bound.
const DYNDEP: &[u8] = b"dyndep";

// A line without the return at its end.
fn without_return(line: &[u8]) -> &[u8] {
    match line.split_last() {
        Some((b'\r', rest)) => rest,
        _ => line,
    }
}

// Whether the next line continues a line: it ends with a `$` that stands alone.
fn is_continued(line: &[u8]) -> bool {
    let mut after_dollar = false;
    for byte in without_return(line) {
        after_dollar = *byte == b'$' && !after_dollar;
    }
    after_dollar
}

// A line from its first byte that is not a space.
fn behind_spaces(line: &[u8]) -> &[u8] {
    match line.iter().position(|byte| *byte != b' ') {
        Some(place) => line.get(place..).unwrap_or(b""),
        None => b"",
    }
}

// Whether a byte can stand in the name of a variable that has no braces.
fn is_in_name(byte: u8) -> bool {
    byte.is_ascii_alphanumeric() || byte == b'_' || byte == b'-'
}

// Whether a text behind a `$` begins with the name.
fn begins_named(text: &[u8]) -> bool {
    if text.starts_with(b"{dyndep}") {
        return true;
    }
    if !text.starts_with(DYNDEP) {
        return false;
    }
    match text.get(DYNDEP.len()) {
        Some(byte) => !is_in_name(*byte),
        None => true,
    }
}

// Whether the value of the variable `dyndep` stands in a line.
fn has_value(line: &[u8]) -> bool {
    let mut after_dollar = false;
    for (place, byte) in line.iter().enumerate() {
        if after_dollar && begins_named(line.get(place..).unwrap_or(b"")) {
            return true;
        }
        after_dollar = *byte == b'$' && !after_dollar;
    }
    false
}

// Whether a text begins with a binding of `dyndep`.
fn binds_dyndep(text: &[u8]) -> bool {
    if !text.starts_with(DYNDEP) {
        return false;
    }
    behind_spaces(text.get(DYNDEP.len()..).unwrap_or(b"")).starts_with(b"=")
}

// Where a line of a manifest stands.
#[derive(Clone, Copy)]
struct Standing {
    // The line before continues in it.
    continues: bool,
    // It is part of a binding that a rule has of `dyndep`.
    is_dropped: bool,
    // The statement above is a rule.
    is_in_rule: bool,
}

// Adds a line with another name in the place of `dyndep`; where the next line stands.
fn push_line(text: &mut Vec<u8>, line: &[u8], standing: Standing) -> Result<Standing, AllocError> {
    let begin = behind_spaces(line);
    let is_blank = without_return(begin).is_empty() || begin.starts_with(b"#");
    let mut next = standing;
    next.continues = is_continued(line);
    if standing.continues {
        if standing.is_dropped {
            text.push(b'#')?;
        }
        text.extend_from_slice(line)?;
        return Ok(next);
    }
    next.is_dropped = false;
    if is_blank {
        next.continues = false;
    } else if begin.len() == line.len() {
        next.is_in_rule = line.starts_with(b"rule ");
    } else if binds_dyndep(begin) {
        next.is_dropped = standing.is_in_rule;
        text.extend_from_slice(if standing.is_in_rule { b"#" } else { b"  " })?;
        text.extend_from_slice(if standing.is_in_rule { b" " } else { RENAMED })?;
        text.extend_from_slice(begin)?;
        return Ok(next);
    }
    text.extend_from_slice(line)?;
    Ok(next)
}

// Whether a line is a comment, unless it continues another one.
fn is_comment(line: &[u8]) -> bool {
    behind_spaces(line).starts_with(b"#")
}

// Whether the value of the variable `dyndep` stands in a file. Another name would then change what is read.
fn needs_name(content: &[u8]) -> bool {
    let mut continues = false;
    for line in content.split(|byte| *byte == b'\n') {
        let is_comment = !continues && is_comment(line);
        if !is_comment && has_value(line) {
            return true;
        }
        continues = !is_comment && is_continued(line);
    }
    false
}

/// A file of a manifest in which each binding of `dyndep` below a build line has another name, and each of a rule is a
/// comment. Lines keep their numbers. A binding for a whole file stays, and so do all where the value of the variable
/// `dyndep` stands in the file: the reader of manifests refuses these.
///
/// # Errors
/// [`AllocError`] only where an allocation was refused.
pub(crate) fn plain_of(alloc: Global, content: &[u8]) -> Result<Vec<u8>, AllocError> {
    if needs_name(content) {
        return Vec::from_slice(alloc, content);
    }
    let mut text = Vec::new(alloc);
    let mut standing = Standing {
        continues: false,
        is_dropped: false,
        is_in_rule: false,
    };
    for (place, line) in content.split(|byte| *byte == b'\n').enumerate() {
        if place > 0 {
            text.push(b'\n')?;
        }
        standing = push_line(&mut text, line, standing)?;
    }
    Ok(text)
}
