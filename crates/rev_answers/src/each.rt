//! Answers to a question that is asked of each of some outputs.
use rev_fields::push_number;
use rev_shown::push_shown;
use std::alloc::{AllocError, Global};

/// For what some outputs were asked about: the name or the pattern that stands for them, and how many there are.
#[derive(Clone, Copy)]
pub struct Many<'a> {
    /// The name or the pattern.
    pub name: &'a [u8],
    /// Whether it is a phony name.
    pub is_phony: bool,
    /// How many outputs it stands for.
    pub count: usize,
}

// Adds what a phony name stands for.
fn push_stands_for(text: &mut Vec<u8>, many: Many<'_>) -> Result<(), AllocError> {
    push_shown(text, many.name)?;
    text.extend_from_slice(b" is a phony name: it stands for the ")?;
    if many.count == 1 {
        return text.extend_from_slice(b"command of\n");
    }
    push_number(text, many.count as u64)?;
    text.extend_from_slice(b" commands of\n")
}

/// The answers of a question about the first ones of some outputs, in words.
///
/// # Errors
/// [`AllocError`] only where an allocation was refused.
pub fn each_words(
    alloc: Global,
    many: Many<'_>,
    answers: &[Vec<u8>],
) -> Result<Vec<u8>, AllocError> {
    let mut text = Vec::new(alloc);
    if many.is_phony {
        push_stands_for(&mut text, many)?;
    }
    for answer in answers {
        text.extend_from_slice(answer)?;
    }
    if many.count == 0 {
        text.extend_from_slice(b"no output matches\n")?;
    }
    if many.count > answers.len() {
        text.extend_from_slice(b"and ")?;
        push_number(&mut text, (many.count - answers.len()) as u64)?;
        text.extend_from_slice(b" more outputs: `--all` after the question asks of each\n")?;
    }
    Ok(text)
}

/// The same as one object: these answers, each an object, and how many outputs there are.
///
/// # Errors
/// [`AllocError`] only where an allocation was refused.
pub fn each_json(
    alloc: Global,
    many: Many<'_>,
    answers: &[Vec<u8>],
) -> Result<Vec<u8>, AllocError> {
    let mut text = Vec::from_slice(alloc, b"{\"answers\":[")?;
    let mut between: &[u8] = b"";
    for answer in answers {
        text.extend_from_slice(between)?;
        text.extend_from_slice(answer.trim_ascii())?;
        between = b",";
    }
    text.extend_from_slice(b"],\"count\":")?;
    push_number(&mut text, many.count as u64)?;
    text.extend_from_slice(b",\"kind\":\"each\",\"phony\":")?;
    text.extend_from_slice(if many.is_phony { b"true" } else { b"false" })?;
    text.extend_from_slice(b"}\n")?;
    Ok(text)
}

/// The objects of a text, one a line, in the member `name` of one object of a kind.
///
/// # Errors
/// [`AllocError`] only where an allocation was refused.
pub fn objects_json(
    alloc: Global,
    kind: &[u8],
    name: &[u8],
    lines: &[u8],
) -> Result<Vec<u8>, AllocError> {
    let mut text = Vec::from_slice(alloc, b"{\"")?;
    text.extend_from_slice(name)?;
    text.extend_from_slice(b"\":[")?;
    let mut between: &[u8] = b"";
    for line in lines.split(|byte| *byte == b'\n') {
        if !line.is_empty() {
            text.extend_from_slice(between)?;
            text.extend_from_slice(line)?;
            between = b",";
        }
    }
    text.extend_from_slice(b"],\"kind\":\"")?;
    text.extend_from_slice(kind)?;
    text.extend_from_slice(b"\"}\n")?;
    Ok(text)
}
