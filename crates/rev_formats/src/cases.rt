//! JUnit's XML: one suite with a failed case for each finding, or one case that passed.
use crate::escapes::push_xml;
use crate::item::Item;
use rev_shown::push_shown;
use std::alloc::{AllocError, Global};

// Adds the case of a finding.
fn push_item(alloc: Global, text: &mut Vec<u8>, item: &Item<'_>) -> Result<(), AllocError> {
    let line = item.line;
    let (kind, id) = (item.kind, item.id);
    let title = item.title(alloc)?;
    let head = format!(in alloc; "<testcase classname=\"{kind}\" name=\"")?;
    text.extend_from_slice(head.as_bytes())?;
    push_xml(text, &title)?;
    let id = format!(in alloc; " ({id})\" file=\"")?;
    text.extend_from_slice(id.as_bytes())?;
    let mut file = Vec::new(alloc);
    push_shown(&mut file, item.file)?;
    push_xml(text, &file)?;
    let place = format!(in alloc; "\" line=\"{line}\"><failure type=\"{kind}\" message=\"")?;
    text.extend_from_slice(place.as_bytes())?;
    push_xml(text, &title)?;
    text.extend_from_slice(b"\">")?;
    push_xml(text, item.text.trim_end().as_bytes())?;
    text.extend_from_slice(b"</failure></testcase>\n")
}

/// A suite with a failed case for each finding, at the build statement that is to be mended; where there is none, with
/// one case that passed.
///
/// # Errors
/// [`AllocError`] only where an allocation was refused.
pub fn junit(alloc: Global, items: &[Item<'_>], summary: &str) -> Result<Vec<u8>, AllocError> {
    let mut text = Vec::new(alloc);
    let count = items.len();
    let tests = usize::max(count, 1);
    let head = format!(in alloc;
        "<?xml version=\"1.0\" encoding=\"UTF-8\"?>\n<testsuites><testsuite name=\"rebug\" tests=\"{tests}\" failures=\"{count}\" errors=\"0\" skipped=\"0\">\n"
    )?;
    text.extend_from_slice(head.as_bytes())?;
    for item in items {
        push_item(alloc, &mut text, item)?;
    }
    if items.is_empty() {
        text.extend_from_slice(b"<testcase classname=\"rebug\" name=\"nothing is found\"/>\n")?;
    }
    text.extend_from_slice(b"<system-out>")?;
    push_xml(&mut text, summary.trim_end().as_bytes())?;
    text.extend_from_slice(b"</system-out>\n</testsuite></testsuites>\n")?;
    Ok(text)
}
