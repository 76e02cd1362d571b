//! What the file says.
ghost use Rattle.std.specs.Prelude.{◌≡◌, ◌++◌, [], bytes_eq, codes, map, IfOk, OnOk};
ghost use Rattle.std.specs.List.{cons_option, filter_map};
ghost use Rattle.std.specs.Option.{option_map};
ghost use Rattle.rev_fields.specs.Parts.{slices_of};
ghost use Rattle.rev_printed.specs.Entries.{entries_behind as entries_behind_head, entries_of, entry_of as entry_of_line, entry_value};

use crate::entry::{Entry, entry_of};
use rev_fields::parts_at;
use rev_graph::Graph;
use std::alloc::{AllocError, Global};

// Whether a first line names the format.
fn names_format(line: &[u8]) -> bool
    ensures { result ≡ bytes_eq line.now (codes "rebug-output 1") }
{
    line == b"rebug-output 1".as_slice()
}

// Adds an entry, if there is one.
fn add_entry(entries: &mut Vec<Entry>, entry: Option<Entry>) -> Result<(), AllocError>
    ensures { OnOk result (map entry_value entries.new.items
        ≡ map entry_value entries.old.items ++ cons_option (option_map entry_value entry) []) }
{
    if let Some(entry) = entry {
        entries.push(entry)?;
    }
    Ok(())
}

// What lines say behind the first.
fn entries_in(alloc: Global, graph: &Graph, lines: &[&[u8]]) -> Result<Vec<Entry>, AllocError>
    ensures { IfOk result (λ entries. map entry_value entries.items
        ≡ filter_map (entry_of_line graph.now.manifest.builds) (slices_of lines.now)) }
{
    let mut entries = Vec::new(alloc);
    for line in lines {
        add_entry(&mut entries, entry_of(alloc, graph, line)?)?;
    }
    Ok(entries)
}

// What lines say, of which the first names the format.
fn entries_behind(alloc: Global, graph: &Graph, lines: &[&[u8]]) -> Result<Vec<Entry>, AllocError>
    ensures { IfOk result (λ entries. map entry_value entries.items
        ≡ entries_behind_head graph.now.manifest.builds (slices_of lines.now)) }
{
    let Some((head, rest)) = lines.split_first() else {
        return Ok(Vec::new(alloc));
    };
    if !names_format(head) {
        return Ok(Vec::new(alloc));
    }
    entries_in(alloc, graph, rest)
}

/// Reads what commands printed that failed: the line `rebug-output 1`, and then the lines `failed OUTPUT NUMBER LEFT
/// TEXT`, in their order: the edge that has the output, how many bytes more there were, and the first bytes. A line
/// that says something else, or names no output of the build, is passed over, and so is a text with another first
/// line. It takes time linear in the bytes, up to hashing.
///
/// # Errors
/// [`AllocError`] only where an allocation was refused.
pub fn read(alloc: Global, graph: &Graph, text: &[u8]) -> Result<Vec<Entry>, AllocError>
    ensures { IfOk result (λ entries. map entry_value entries.items
        ≡ entries_of graph.now.manifest.builds text.now) }
{
    let lines = parts_at(alloc, text, b'\n')?;
    let entries = entries_behind(alloc, graph, &lines)?;
    Ok(entries)
}
