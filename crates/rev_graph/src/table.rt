//! Which edge produces each path.
ghost use Rattle.std.specs.Prelude.{◌≡◌, bytes_eq, ◌≤◌, ◌++◌, List, ℕ, [], map, find, length, Option, Some, None, unwrap_or, IfOk, IfErr, OnOk, if◌then◌else◌};
ghost use Rattle.std.specs.Option.{option_or, option_copied, option_map};
ghost use Rattle.std.specs.List.{list_any};
ghost use Rattle.rev_graph.specs.Entries.{entry, has_entry, produced_by, given};
ghost use Rattle.rev_graph.specs.Fault.{Explains};
ghost use Rattle.rev_graph.specs.Graph.{outputs_of, inputs_of, has_path, needs, producer_of, is_known, first_double};
ghost use Rattle.rev_graph.specs.declared.graph.TheConstants.Graph.{MAX_EDGES};

use crate::fault::GraphFault;
use indexmap::IndexMap;
use rev_manifest::Build;
use rev_paths::Name;
use std::alloc::{AllocError, Global};

/// Each known path, with its producer if it has one.
pub(crate) type Table = IndexMap<Name, Option<u32>>;

/// What the table has for a name; a name that it does not have gets that value. It looks the name up once.
pub(crate) fn value_or_add(
    table: &mut Table,
    name: &Name,
    value: Option<u32>,
) -> Result<Option<u32>, AllocError>
    ensures value { IfOk result (λ had. had ≡ unwrap_or (entry table.old.entries name.now) value) }
    ensures entries { OnOk result ((path : List ℕ)
        → entry table.new.entries path
        ≡ option_or (entry table.old.entries path) (given (bytes_eq path name.now) value)) }
{
    let value = *table.entry(name.copy()?)?.or_insert(value);
    Ok(value)
}

/// Adds the names that the table does not have, each with that value.
pub(crate) fn add(table: &mut Table, names: &[Name], value: Option<u32>) -> Result<(), AllocError>
    ensures { OnOk result ((path : List ℕ)
        → entry table.new.entries path
        ≡ option_or (entry table.old.entries path) (given (has_path names.now path) value)) }
{
    for name in names {
        value_or_add(table, name, value)?;
    }
    Ok(())
}

// The first of names that the table has.
fn first_taken<'a>(table: &Table, names: &'a [Name]) -> Option<&'a Name>
    ensures { option_copied result ≡ find (has_entry table.now.entries) names.now }
{
    for name in names {
        if table.contains_key(name) {
            return Some(name);
        }
    }
    None
}

// The first output of an edge that the table has.
fn taken<'a>(table: &Table, edge: &'a Build) -> Option<&'a Name>
    ensures { option_copied result ≡ find (has_entry table.now.entries) (outputs_of edge.now) }
{
    if let Some(name) = first_taken(table, edge.explicit_outs()) {
        return Some(name);
    }
    first_taken(table, edge.implicit_outs())
}

// Adds the outputs of an edge.
fn add_outputs(table: &mut Table, edge: &Build, number: u32) -> Result<(), AllocError>
    ensures { OnOk result ((path : List ℕ)
        → entry table.new.entries path
        ≡ option_or (entry table.old.entries path)
        (given (has_path (outputs_of edge.now) path) (Some number))) }
{
    add(table, edge.explicit_outs(), Some(number))?;
    add(table, edge.implicit_outs(), Some(number))?;
    Ok(())
}

/// The table of all outputs.
///
/// # Errors
/// [`GraphFault::MultipleProducers`] with the first output that an earlier edge has, and [`GraphFault::Memory`].
pub(crate) fn outputs_table(alloc: Global, edges: &[Build]) -> Result<Table, GraphFault>
    requires { length edges.now ≤ MAX_EDGES }
    ensures entries { IfOk result (λ table. (path : List ℕ)
        → entry table.entries path ≡ option_map Some (producer_of edges.now path)) }
    ensures single { OnOk result (first_double edges.now ≡ None) }
    ensures fault { IfErr result (λ fault. Explains fault edges.now) }
{
    let mut table = IndexMap::new(alloc);
    for (number, edge) in edges.iter().enumerate() {
        if let Some(name) = taken(&table, edge) {
            return Err(GraphFault::MultipleProducers(name.copy()?));
        }
        add_outputs(&mut table, edge, number as u32)?;
    }
    Ok(table)
}

/// The producer of a name, by the table.
pub(crate) fn producer(table: &Table, name: &Name) -> Option<u32>
    ensures { result ≡ produced_by table.now.entries name.now }
{
    match table.get(name) {
        Some(producer) => *producer,
        None => None,
    }
}
