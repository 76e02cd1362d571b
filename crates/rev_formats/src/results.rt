//! SARIF 2.1.0 (OASIS, 2020): one run with a result for each finding.
use crate::escapes::{push_json, push_uri};
use crate::item::Item;
use std::alloc::{AllocError, Global};

// What stands before the rules.
const HEAD: [&[u8]; 2] = [
    b"{\"$schema\":\"https://json.schemastore.org/sarif-2.1.0.json\",\"version\":\"2.1.0\",",
    b"\"runs\":[{\"tool\":{\"driver\":{\"name\":\"rebug\",\"version\":\"0.9.0\",\"rules\":[",
];
// What stands between the rules and the summary.
const BETWEEN: [&[u8]; 2] = [
    b"]}},\"invocations\":[{\"executionSuccessful\":true,\"toolExecutionNotifications\":",
    b"[{\"level\":\"note\",\"message\":{\"text\":\"",
];

// What a rule is of, by its name.
fn rule_words(id: &str) -> &'static str {
    match id {
        "race" => "A command uses what another one makes, and does not wait for it",
        "cycle" => "A command uses what one makes that waits for it",
        "own" => "A command lists a file that it makes itself",
        "clash" => "Two commands leave one file, and neither waits for the other",
        "depfile clash" => "Two commands have their depfiles at one path",
        "rspfile clash" => "Two commands have their response files at one path",
        "unstable" => "A command changes a file behind one that looked at it",
        "undeclared" => "A command leaves a file that is no output of it",
        "unlisted" => "A command reads a file that neither its line nor its list has",
        _ => "A command stands in the way of a certificate",
    }
}

// The names of the rules, which are the kinds of findings.
const RULES: [&str; 10] = [
    "race",
    "cycle",
    "own",
    "clash",
    "depfile clash",
    "rspfile clash",
    "unstable",
    "undeclared",
    "unlisted",
    "in the way",
];

// Adds a rule.
fn push_rule(text: &mut Vec<u8>, id: &str) -> Result<(), AllocError> {
    text.extend_from_slice(b"{\"id\":\"")?;
    push_json(text, id.as_bytes())?;
    text.extend_from_slice(b"\",\"shortDescription\":{\"text\":\"")?;
    push_json(text, rule_words(id).as_bytes())?;
    text.extend_from_slice(b"\"}}")
}

// Adds the rules.
fn push_rules(text: &mut Vec<u8>) -> Result<(), AllocError> {
    let mut is_first = true;
    for id in &RULES {
        if !is_first {
            text.extend_from_slice(b",")?;
        }
        is_first = false;
        push_rule(text, id)?;
    }
    Ok(())
}

// Adds where the build statement stands that is to be mended.
fn push_place(alloc: Global, text: &mut Vec<u8>, item: &Item<'_>) -> Result<(), AllocError> {
    let line = item.line;
    text.extend_from_slice(
        b"\"locations\":[{\"physicalLocation\":{\"artifactLocation\":{\"uri\":\"",
    )?;
    push_uri(text, item.file)?;
    let region = format!(in alloc; "\"}},\"region\":{{\"startLine\":{line}}}}}}}],")?;
    text.extend_from_slice(region.as_bytes())
}

// Adds the result of a finding.
fn push_item(alloc: Global, text: &mut Vec<u8>, item: &Item<'_>) -> Result<(), AllocError> {
    let level = if item.is_error { "error" } else { "warning" };
    text.extend_from_slice(b"{\"ruleId\":\"")?;
    push_json(text, item.kind.as_bytes())?;
    let head = format!(in alloc; "\",\"level\":\"{level}\",\"message\":{{\"text\":\"")?;
    text.extend_from_slice(head.as_bytes())?;
    push_json(text, item.text.trim_end().as_bytes())?;
    text.extend_from_slice(b"\"},")?;
    push_place(alloc, text, item)?;
    let id = format!(in alloc;
        "\"partialFingerprints\":{{\"rebug/v1\":\"{}\"}}}}",
        item.id
    )?;
    text.extend_from_slice(id.as_bytes())
}

/// A log with a result for each finding, at the build statement that is to be mended.
///
/// # Errors
/// [`AllocError`] only where an allocation was refused.
pub fn sarif(alloc: Global, items: &[Item<'_>], summary: &str) -> Result<Vec<u8>, AllocError> {
    let mut text = Vec::new(alloc);
    for part in HEAD {
        text.extend_from_slice(part)?;
    }
    push_rules(&mut text)?;
    for part in BETWEEN {
        text.extend_from_slice(part)?;
    }
    push_json(&mut text, summary.trim_end().as_bytes())?;
    text.extend_from_slice(b"\"}}]}],\"results\":[")?;
    let mut is_first = true;
    for item in items {
        text.extend_from_slice(if is_first { b"\n" } else { b",\n" })?;
        is_first = false;
        push_item(alloc, &mut text, item)?;
    }
    text.extend_from_slice(b"]}]}\n")?;
    Ok(text)
}
