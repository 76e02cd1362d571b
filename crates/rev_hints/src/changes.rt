//! Files that nobody makes and that changed while commands ran.
ghost use Rattle.std.specs.Prelude.{◌≡◌, ◌++◌, ◌∷◌, [], ◌&&◌, ℕ, List, Some, None, bytes_eq, length, nat_lt, if◌then◌else◌, IfOk, OnOk};
ghost use Rattle.std.specs.Option.{option_or};
ghost use Rattle.rev_events.specs.declared.event.Event.{Event};
ghost use Rattle.rev_history.specs.Timeline.{kept_events};
ghost use Rattle.rev_hints.specs.Changes.{AreNoted, change_by, change_in, change_of, is_unmade as is_unmade_by};

use crate::running::note_run;
use indexmap::IndexMap;
use rev_events::Event;
use rev_graph::Graph;
use rev_history::History;
use rev_paths::Name;
use std::alloc::{AllocError, Global};

/// The last change of a file while commands ran.
pub(crate) struct Changed {
    /// The number of its event.
    pub(crate) number: u32,
    /// The edges whose commands ran then.
    pub(crate) ran: Vec<u32>,
}

// Written, since a derived drop is proved again at each exit of each caller.
impl Drop for Changed {
    fn drop(self) {
        let Changed {
            number: _number,
            ran: _ran,
        } = self;
    }
}

// Whether nobody makes the file at a path. `names` has the other names of outputs.
fn is_unmade(graph: &Graph, names: &IndexMap<Name, Name>, path: &Name) -> bool
    ensures { result ≡ is_unmade_by graph.now.manifest.builds names.now.entries path.now }
{
    graph.producer(path).is_none() && !names.contains_key(path)
}

// Has the change of a path be this one.
fn put_change(
    alloc: Global,
    number: u32,
    path: &Name,
    running: &[u32],
    changes: &mut IndexMap<Name, Changed>,
) -> Result<(), AllocError>
    ensures { OnOk result ((other : List ℕ) → change_in changes.new.entries other
        ≡ (if bytes_eq path.now other then Some (record { number = number; ran = running.now })
        else change_in changes.old.entries other)) }
{
    let ran = running.to_vec(alloc)?;
    changes.insert(path.copy()?, Changed { number, ran })?;
    Ok(())
}

// Notes the change that an event makes while these commands run.
fn note_change(
    alloc: Global,
    graph: &Graph,
    names: &IndexMap<Name, Name>,
    number: u32,
    event: &Event,
    running: &[u32],
    changes: &mut IndexMap<Name, Changed>,
) -> Result<(), AllocError>
    ensures { OnOk result ((path : List ℕ) → change_in changes.new.entries path
        ≡ option_or (if is_unmade_by graph.now.manifest.builds names.now.entries path
        then change_by path running.now (number, event.now) else None) (change_in changes.old.entries path)) }
{
    let Event::Touch { path, .. } = event else {
        return Ok(());
    };
    if running.is_empty() {
        return Ok(());
    }
    if !is_unmade(graph, names, path) {
        return Ok(());
    }
    put_change(alloc, number, path, running, changes)
}

// Notes what an event does.
fn note_event(
    alloc: Global,
    graph: &Graph,
    names: &IndexMap<Name, Name>,
    number: u32,
    event: &Event,
    running: &mut Vec<u32>,
    changes: &mut IndexMap<Name, Changed>,
) -> Result<(), AllocError>
    ensures { OnOk result ((events : List (ℕ × Event))
        → AreNoted graph.now.manifest.builds names.now.entries events running.old.items changes.old.entries
        → AreNoted graph.now.manifest.builds names.now.entries (events ++ (number, event.now) ∷ [])
        running.new.items changes.new.entries) }
{
    note_change(alloc, graph, names, number, event, running, changes)?;
    note_run(graph, event, running)?;
    Ok(())
}

/// For each path that has a change that counts, that change. The kept events are gone through once.
///
/// # Errors
/// [`AllocError`] only where an allocation was refused.
pub(crate) fn changes_in(
    alloc: Global,
    history: &History,
    names: &IndexMap<Name, Name>,
) -> Result<IndexMap<Name, Changed>, AllocError>
    ensures { IfOk result (λ changes. (path : List ℕ) → change_in changes.entries path
        ≡ change_of history.now.timeline.manifest.builds names.now.entries (kept_events history.now.timeline) path) }
{
    let graph = history.graph();
    let mut running = Vec::new(alloc);
    let mut changes = IndexMap::new(alloc);
    for number in history.kept() {
        if let Some(event) = history.event(*number) {
            note_event(
                alloc,
                graph,
                names,
                *number,
                event,
                &mut running,
                &mut changes,
            )?;
        }
    }
    Ok(changes)
}
