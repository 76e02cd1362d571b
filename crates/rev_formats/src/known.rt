//! A baseline that knows findings.
use crate::item::Item;
use rev_fields::parts_at;
use rev_shown::push_shown;
use std::alloc::{AllocError, Global};

// Whether a line of an earlier baseline goes on: it ignores paths, or is a remark.
fn goes_on(line: &[u8]) -> bool {
    line.starts_with(b"--ignore ") || line.starts_with(b"#")
}

// Adds the line of a finding that is known.
fn push_item(alloc: Global, text: &mut Vec<u8>, item: &Item<'_>) -> Result<(), AllocError> {
    let (id, kind) = (item.id, item.kind);
    let head = format!(in alloc; "{id} {kind}")?;
    text.extend_from_slice(head.as_bytes())?;
    for name in [item.path, item.maker, item.user] {
        if !name.is_empty() {
            text.extend_from_slice(b" ")?;
            push_shown(text, name)?;
        }
    }
    text.extend_from_slice(b"\n")
}

/// A baseline that knows these findings, with the remarks of an earlier one and what it ignores.
///
/// # Errors
/// [`AllocError`] only where an allocation was refused.
pub fn baseline(alloc: Global, items: &[Item<'_>], earlier: &[u8]) -> Result<Vec<u8>, AllocError> {
    let mut text = Vec::new(alloc);
    text.extend_from_slice(b"rebug-baseline 1\n")?;
    for line in &parts_at(alloc, earlier, b'\n')? {
        if goes_on(line) {
            text.extend_from_slice(line)?;
            text.extend_from_slice(b"\n")?;
        }
    }
    for item in items {
        push_item(alloc, &mut text, item)?;
    }
    Ok(text)
}
