//! GitHub's workflow commands: an annotation for each finding.
use crate::escapes::{push_message, push_property};
use crate::item::Item;
use std::alloc::{AllocError, Global};

// Adds the annotation of a finding.
fn push_item(alloc: Global, text: &mut Vec<u8>, item: &Item<'_>) -> Result<(), AllocError> {
    let word = if item.is_error { "error" } else { "warning" };
    let line = item.line;
    let title = item.title(alloc)?;
    let head = format!(in alloc; "::{word} file=")?;
    text.extend_from_slice(head.as_bytes())?;
    push_property(text, item.file)?;
    let place = format!(in alloc; ",line={line},title=")?;
    text.extend_from_slice(place.as_bytes())?;
    push_property(text, &title)?;
    let id = format!(in alloc; " ({})::", item.id)?;
    text.extend_from_slice(id.as_bytes())?;
    push_message(text, item.text.trim_end().as_bytes())?;
    text.extend_from_slice(b"\n")
}

/// An annotation for each finding, at the build statement that is to be mended, and a notice that sums them up.
///
/// # Errors
/// [`AllocError`] only where an allocation was refused.
pub fn github(alloc: Global, items: &[Item<'_>], summary: &str) -> Result<Vec<u8>, AllocError> {
    let mut text = Vec::new(alloc);
    for item in items {
        push_item(alloc, &mut text, item)?;
    }
    text.extend_from_slice(b"::notice title=rebug::")?;
    push_message(&mut text, summary.trim_end().as_bytes())?;
    text.extend_from_slice(b"\n")?;
    Ok(text)
}
