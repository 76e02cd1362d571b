//! The events that depend on a kept event.
ghost use Rattle.std.specs.Prelude.{◌≡◌, ◌++◌, codes, decimal, IfOk, OnOk};
ghost use Rattle.std.specs.List.{flat_map};
ghost use Rattle.rev_report.specs.Dependents.{dependents};
ghost use Rattle.rev_report.specs.Report.{dependents_line, dependents_text, named_text};
ghost use Rattle.rev_desk.specs.Machine.{named};

use rev_desk::{Desk, Which};
use rev_events::Refusal;
use rev_fields::push_number;
use rev_history::History;
use rev_script::refused_line;
use std::alloc::{AllocError, Global};

// Adds the numbers of the kept events that depend on a kept one, each with a space before it. The search for each goes
// on from the one before it.
fn push_dependents(text: &mut Vec<u8>, history: &History, number: u32) -> Result<(), AllocError>
    ensures { OnOk result (text.new.items
        ≡ text.old.items ++ flat_map (λ m. codes " " ++ decimal m)
        (dependents history.now.timeline number)) }
{
    let _kept = history.kept();
    let mut last = number;
    while let Some(next) = history.nearest_to(last, number) {
        text.extend_from_slice(b" ")?;
        push_number(text, u64::from(next))?;
        last = next;
    }
    Ok(())
}

// `dependents N M...`
fn answered(alloc: Global, history: &History, number: u32) -> Result<Vec<u8>, AllocError>
    ensures { IfOk result (λ text. text.items
        ≡ dependents_line number (dependents history.now.timeline number)) }
{
    let mut text = Vec::from_slice(alloc, b"dependents ")?;
    push_number(&mut text, u64::from(number))?;
    push_dependents(&mut text, history, number)?;
    text.extend_from_slice(b"\n")?;
    Ok(text)
}

// The line `dependents N M...` with the kept events that depend on a kept one, or `refused` with the number of the
// refusal where no event was accepted under the number or it is not kept.
fn dependents_text(alloc: Global, history: &History, number: u32) -> Result<Vec<u8>, AllocError>
    ensures { IfOk result (λ text. text.items ≡ dependents_text history.now.timeline number) }
{
    match history.cone_refused(number) {
        Some(refusal) => refused_line(alloc, refusal.code()),
        None => answered(alloc, history, number),
    }
}

/// The line `dependents N M...`: the number of a kept event, and the numbers of the kept events that depend on it.
/// `refused 80` where no accepted event has the name, `refused 81` where the event is not kept.
pub(crate) fn named_text(alloc: Global, desk: &Desk, which: Which) -> Result<Vec<u8>, AllocError>
    ensures { IfOk result (λ text. text.items
        ≡ named_text (named desk.now.journal which) desk.now.history) }
{
    match desk.named(which) {
        None => refused_line(alloc, Refusal::NoSuchEvent.code()),
        Some(number) => dependents_text(alloc, desk.history(), number),
    }
}
