//! A witness as a trace.
ghost use Rattle.std.specs.Prelude.{◌≡◌, ◌++◌, ℕ, List, IfOk, OnOk};
ghost use Rattle.std.specs.List.{flat_map};
ghost use Rattle.std.specs.Option.{option_copied};
ghost use Rattle.rev_history.specs.Timeline.{event_at};
ghost use Rattle.rev_witness.specs.Words.{event_line, stamp_line, witness_words};

use crate::found::Witness;
use rev_events::Event;
use rev_fields::next_field;
use rev_history::History;
use rev_paths::Name;
use rev_trace::push_event;
use std::alloc::{AllocError, Global};

// Adds the line of a stamp.
fn push_stamp(text: &mut Vec<u8>, path: &Name) -> Result<(), AllocError>
    ensures { OnOk result (text.new.items ≡ text.old.items ++ stamp_line path.now) }
{
    text.extend_from_slice(b"stamp")?;
    next_field(text, path.as_bytes())?;
    text.extend_from_slice(b" 1\n")
}

// Adds the lines of stamps.
fn push_stamps(text: &mut Vec<u8>, paths: &[Name]) -> Result<(), AllocError>
    ensures { OnOk result (text.new.items ≡ text.old.items ++ flat_map stamp_line paths.now) }
{
    for path in paths {
        push_stamp(text, path)?;
    }
    Ok(())
}

// Adds the line of an event, where there is one.
fn push_line(text: &mut Vec<u8>, event: Option<&Event>) -> Result<(), AllocError>
    ensures { OnOk result (text.new.items ≡ text.old.items ++ event_line (option_copied event.entry)) }
{
    match event {
        Some(event) => {
            push_event(text, event)?;
            text.extend_from_slice(b"\n")
        }
        None => Ok(()),
    }
}

// Adds the lines of the kept events.
fn push_kept(text: &mut Vec<u8>, history: &History) -> Result<(), AllocError>
    ensures { OnOk result (text.new.items
        ≡ text.old.items ++ flat_map (λ n. event_line (event_at history.now.timeline n)) history.now.timeline.kept) }
{
    for number in history.kept() {
        push_line(text, history.event(*number))?;
    }
    Ok(())
}

/// A witness as a trace that `rebug` replays: the stamp 1 of each source, and then the events on one lane.
///
/// # Errors
/// [`AllocError`] only where an allocation was refused.
pub fn witness_text(alloc: Global, witness: &Witness) -> Result<Vec<u8>, AllocError>
    ensures { IfOk result (λ text. text.items
        ≡ witness_words witness.now.sources.items witness.now.history.timeline) }
{
    let mut text = Vec::new(alloc);
    text.extend_from_slice(b"rebug-trace 1\njobs 1\n")?;
    push_stamps(&mut text, &witness.sources)?;
    text.extend_from_slice(b"lane 0\n")?;
    push_kept(&mut text, &witness.history)?;
    Ok(text)
}
