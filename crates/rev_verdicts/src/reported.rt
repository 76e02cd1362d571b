//! A report, as it is written.
use crate::answering::{Written, written_with};
use crate::forms::{Form, items_text, report_items};
use crate::leaving::Choice;
use rev_conflicts_text::{Finding, findings_json, findings_words};
use rev_formats::Item;
use rev_races_text::{Report, Sources};
use std::alloc::{AllocError, Global};

// The text of a report and of findings by an observation, in a form. A form of items has these.
fn report_text<'a>(
    alloc: Global,
    form: Form,
    sources: &Sources<'a>,
    findings: &[Finding<'a>],
    report: &Report<'a>,
    items: &[Item<'_>],
) -> Result<Vec<u8>, AllocError> {
    match form {
        Form::Json => {
            let observed = findings_json(alloc, sources, findings)?;
            report.json(alloc, sources, &observed)
        }
        Form::Items(form) => {
            let summary = report.summary(alloc, sources)?;
            items_text(alloc, form, items, &summary)
        }
        Form::Words | Form::AllWords => {
            let all = form == Form::AllWords;
            let observed = findings_words(alloc, sources, findings, all)?;
            report.words(alloc, sources, &observed, all)
        }
    }
}

/// What is written of a report and of findings by an observation, in a form.
///
/// # Errors
/// [`AllocError`] only where an allocation was refused.
pub fn written_report<'a>(
    alloc: Global,
    choice: Choice<'_>,
    form: Form,
    sources: &Sources<'a>,
    findings: &[Finding<'a>],
    report: &Report<'a>,
) -> Result<Written, AllocError> {
    let items = if form.is_of_items() || choice.writes {
        report_items(alloc, sources, findings, report)?
    } else {
        Vec::new(alloc)
    };
    let text = report_text(alloc, form, sources, findings, report, &items)?;
    written_with(alloc, choice, &items, text, report.status())
}
