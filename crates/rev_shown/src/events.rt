//! Events in words.
ghost use Rattle.std.specs.Prelude.{◌≡◌, ◌++◌, codes, decimal, OnOk};
ghost use Rattle.std.specs.List.{flat_map};
ghost use Rattle.rev_shown.specs.Events.{event_words, slot_words};
ghost use Rattle.rev_shown.specs.Shown.{shown};

use crate::names::push_shown;
use crate::parts::{push_counted, push_named};
use rev_events::Event;
use rev_paths::Name;
use std::alloc::AllocError;

// Adds names, each behind a space.
fn push_names(text: &mut Vec<u8>, names: &[Name]) -> Result<(), AllocError>
    ensures { OnOk result (text.new.items ≡ text.old.items ++ flat_map (λ n. codes " " ++ shown n) names.now) }
{
    for name in names {
        text.push(b' ')?;
        push_shown(text, name.as_bytes())?;
    }
    Ok(())
}

// Adds a slot behind a comma, if there is one.
fn push_slot(text: &mut Vec<u8>, slot: Option<u32>) -> Result<(), AllocError>
    ensures { OnOk result (text.new.items ≡ text.old.items ++ slot_words slot) }
{
    match slot {
        None => Ok(()),
        Some(slot) => push_counted(text, b", slot ", u64::from(slot)),
    }
}

// Adds a start.
fn push_start(text: &mut Vec<u8>, out: &Name, job: u32, slot: Option<u32>) -> Result<(), AllocError>
    ensures { OnOk result (text.new.items ≡ text.old.items
        ++ (codes "start " ++ shown out.now ++ codes " (job " ++ decimal job ++ slot_words slot ++ codes ")")) }
{
    push_named(text, b"start ", out)?;
    push_counted(text, b" (job ", u64::from(job))?;
    push_slot(text, slot)?;
    text.extend_from_slice(b")")
}

// Adds a touch.
fn push_touch(text: &mut Vec<u8>, path: &Name, stamp: u64) -> Result<(), AllocError>
    ensures { OnOk result (text.new.items ≡ text.old.items
        ++ (codes "touch " ++ shown path.now ++ codes " (" ++ decimal stamp ++ codes ")")) }
{
    push_named(text, b"touch ", path)?;
    push_counted(text, b" (", stamp)?;
    text.extend_from_slice(b")")
}

// Adds a resize.
fn push_resize(text: &mut Vec<u8>, pool: u32, depth: u32) -> Result<(), AllocError>
    ensures { OnOk result (text.new.items ≡ text.old.items
        ++ (codes "resize pool " ++ decimal pool ++ codes " to " ++ decimal depth)) }
{
    push_counted(text, b"resize pool ", u64::from(pool))?;
    push_counted(text, b" to ", u64::from(depth))?;
    Ok(())
}

// Adds a plan.
fn push_plan(text: &mut Vec<u8>, targets: &[Name]) -> Result<(), AllocError>
    ensures { OnOk result (text.new.items ≡ text.old.items
        ++ (codes "plan" ++ flat_map (λ t. codes " " ++ shown t) targets.now)) }
{
    text.extend_from_slice(b"plan")?;
    push_names(text, targets)
}

/// Appends an event in words, as `start a.o (job 0)`, `finish a.o` or `touch a.h (240)`. The words leave out what a
/// `finish` lists and the stamps of its outputs.
///
/// # Errors
/// [`AllocError`] only where an allocation was refused.
pub fn push_event_words(text: &mut Vec<u8>, event: &Event) -> Result<(), AllocError>
    ensures { OnOk result (text.new.items ≡ text.old.items ++ event_words event.now) }
{
    match event {
        Event::Plan(targets) => push_plan(text, targets.as_slice()),
        Event::Start { out, job, slot } => push_start(text, out, *job, *slot),
        Event::Finish { out, .. } => push_named(text, b"finish ", out),
        Event::Fail { out, .. } => push_named(text, b"fail ", out),
        Event::Abort { out, .. } => push_named(text, b"abort ", out),
        Event::Clean { out } => push_named(text, b"clean ", out),
        Event::Pass { out } => push_named(text, b"pass ", out),
        Event::Touch { path, stamp } => push_touch(text, path, *stamp),
        Event::Interrupt => text.extend_from_slice(b"interrupt"),
        Event::Resize { pool, depth } => push_resize(text, *pool, *depth),
    }
}
