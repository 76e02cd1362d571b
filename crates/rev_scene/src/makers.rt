//! Entries, each with the edge that has it as an output.
ghost use Rattle.std.specs.Prelude.{◌≡◌, ◌<◌, ◌^◌, ◌==◌, ℕ, [], false, map, length, slice_index_or, None, IfOk, if◌then◌else◌};
ghost use Rattle.std.specs.List.{range_with_len};
ghost use Rattle.std.specs.Option.{option_or};
ghost use Rattle.rev_graph.specs.Graph.{producer_of};
ghost use Rattle.rev_scene.specs.Scenes.{entries_of as entries_of_observation, entry_at as entry_of_number, first_some, maker_by_name};

use rev_entry_conflicts::Entry;
use rev_graph::Graph;
use rev_observation::Observation;
use std::alloc::{AllocError, Global};

// Gives an entry its maker, where it has none yet.
fn put_maker(makers: &mut [Option<u32>], entry: u32, maker: Option<u32>)
    ensures { (n : ℕ) → n < length makers.old → slice_index_or makers.new n None
        ≡ option_or (slice_index_or makers.old n None) (if entry == n then maker else None) }
{
    if entry as usize >= makers.len() {
        return;
    }
    if makers[entry as usize].is_some() {
        return;
    }
    makers[entry as usize] = maker;
}

// Gives entries without a maker the edges that have their further names as outputs.
fn put_makers(graph: &Graph, observation: &Observation, makers: &mut [Option<u32>])
    ensures { (n : ℕ) → n < length makers.old → slice_index_or makers.old n None ≡ None
        → slice_index_or makers.new n None ≡ first_some (map (maker_by_name graph.now.manifest.builds observation.now n)
        (range_with_len 0 (length observation.now.names.names))) }
{
    let names = observation.names().names();
    let entries = observation.names().entries();
    for number in 0..entries.len() {
        let entry = entries[number];
        let maker = graph.producer(names.path(number as u64));
        put_maker(makers, entry, maker);
    }
}

// For each entry the edge that has one of its further names as an output: by the first such name.
fn makers_by_name(
    alloc: Global,
    graph: &Graph,
    observation: &Observation,
) -> Result<Vec<Option<u32>>, AllocError>
    ensures each { IfOk result (λ makers. length makers.items ≡ length observation.now.entries.paths) }
    ensures exact { IfOk result (λ makers. (n : ℕ) → n < length observation.now.entries.paths
        → slice_index_or makers.items n None
        ≡ first_some (map (maker_by_name graph.now.manifest.builds observation.now n)
        (range_with_len 0 (length observation.now.names.names)))) }
{
    let count = observation.entries().len();
    let mut makers = vec![in alloc; None; count as usize]?;
    put_makers(graph, observation, &mut makers);
    Ok(makers)
}

// Whether a filter hides an entry.
fn is_hidden(hidden: &[bool], entry: u32) -> bool
    ensures { result ≡ slice_index_or hidden.now entry false }
{
    match hidden.get(entry as usize) {
        Some(mark) => *mark,
        None => false,
    }
}

// The edge that has an entry as an output.
fn maker_of(
    graph: &Graph,
    observation: &Observation,
    makers: &[Option<u32>],
    entry: u32,
) -> Option<u32>
    requires entry { entry < length observation.now.entries.paths }
    requires each { length makers.now ≡ length observation.now.entries.paths }
    ensures { result ≡ option_or (producer_of graph.now.manifest.builds
        (slice_index_or observation.now.entries.paths entry [])) (slice_index_or makers.now entry None) }
{
    let path = observation.entries().paths().path(u64::from(entry));
    match graph.producer(path) {
        Some(maker) => Some(maker),
        None => makers[entry as usize],
    }
}

// An entry by its number.
fn entry_at(
    graph: &Graph,
    observation: &Observation,
    hidden: &[bool],
    makers: &[Option<u32>],
    entry: u32,
) -> Entry
    requires entry { entry < length observation.now.entries.paths }
    requires each { length makers.now ≡ length observation.now.entries.paths }
    requires makers { slice_index_or makers.now entry None
        ≡ first_some (map (maker_by_name graph.now.manifest.builds observation.now entry)
        (range_with_len 0 (length observation.now.names.names))) }
    ensures { result ≡ entry_of_number graph.now.manifest.builds observation.now hidden.now entry }
{
    let folders = observation.entries().folders();
    Entry {
        folder: folders[entry as usize],
        maker: maker_of(graph, observation, makers, entry),
        hidden: is_hidden(hidden, entry),
    }
}

/// The entries of an observation.
///
/// # Errors
/// [`AllocError`] only where an allocation was refused.
pub(crate) fn entries_of(
    alloc: Global,
    graph: &Graph,
    observation: &Observation,
    hidden: &[bool],
) -> Result<Vec<Entry>, AllocError>
    requires { length observation.now.entries.paths < 2 ^ 32 }
    ensures { IfOk result (λ entries. entries.items
        ≡ entries_of_observation graph.now.manifest.builds observation.now hidden.now) }
{
    let makers = makers_by_name(alloc, graph, observation)?;
    let count = observation.entries().len() as u32;
    let mut entries = Vec::new(alloc);
    for number in 0..count {
        entries.push(entry_at(graph, observation, hidden, &makers, number))?;
    }
    Ok(entries)
}
