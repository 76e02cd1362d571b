//! What one line says.
ghost use Rattle.std.specs.Prelude.{◌≡◌, ◌^◌, IfOk};
ghost use Rattle.std.specs.Option.{option_map};
ghost use Rattle.std.specs.Result.{result_ok};
ghost use Rattle.rev_fields.specs.Numbers.{number_below};
ghost use Rattle.rev_fields.specs.Parts.{vectors_of};
ghost use Rattle.rev_printed.specs.Entries.{edge_by, entry_by as entry_by_fields, entry_in as entry_in_fields, entry_of as entry_of_line, entry_value};

use rev_fields::{LineFault, path, read_fields, wide_number};
use rev_graph::Graph;
use std::alloc::{AllocError, Global};

/// What a command printed that failed.
pub struct Entry {
    /// Its edge.
    pub edge: u32,
    /// How many bytes more it printed than are kept.
    pub left: u64,
    /// The first bytes of it.
    pub text: Vec<u8>,
}

impl Drop for Entry {
    fn drop(self) {
        let Entry {
            edge: _edge,
            left: _left,
            text: _text,
        } = self;
    }
}

// The edge that has an output.
fn edge_of(alloc: Global, graph: &Graph, output: &[u8]) -> Result<Option<u32>, AllocError>
    ensures { IfOk result (λ edge. edge ≡ edge_by graph.now.manifest.builds output.now) }
{
    match path(alloc, output) {
        Ok(name) => Ok(graph.producer(&name)),
        Err(LineFault::Memory) => Err(AllocError),
        Err(LineFault::Kind(_)) => Ok(None),
    }
}

// The number that a field writes, if it writes one.
fn number_of(text: &[u8]) -> Result<Option<u64>, AllocError>
    ensures { IfOk result (λ number. number ≡ result_ok (number_below (2 ^ 64) text.now)) }
{
    match wide_number(text) {
        Ok(number) => Ok(Some(number)),
        Err(LineFault::Memory) => Err(AllocError),
        Err(LineFault::Kind(_)) => Ok(None),
    }
}

// What a command printed, by its edge and the two last fields of its line.
fn entry_by(alloc: Global, edge: u32, left: &[u8], text: &[u8]) -> Result<Option<Entry>, AllocError>
    ensures { IfOk result (λ entry. option_map entry_value entry ≡ entry_by_fields left.now text.now edge) }
{
    match number_of(left)? {
        Some(left) => Ok(Some(Entry {
            edge,
            left,
            text: Vec::from_slice(alloc, text)?,
        })),
        None => Ok(None),
    }
}

// What the fields of a line say.
fn entry_in(alloc: Global, graph: &Graph, texts: &[Vec<u8>]) -> Result<Option<Entry>, AllocError>
    ensures { IfOk result (λ entry. option_map entry_value entry
        ≡ entry_in_fields graph.now.manifest.builds (vectors_of texts.now)) }
{
    let [word, output, _number, left, text] = texts else {
        return Ok(None);
    };
    if word.as_slice() != b"failed".as_slice() {
        return Ok(None);
    }
    match edge_of(alloc, graph, output)? {
        Some(edge) => entry_by(alloc, edge, left, text),
        None => Ok(None),
    }
}

/// What a line says: `failed OUTPUT NUMBER LEFT TEXT` is an entry of the edge that has the output. None of another
/// line, which a later recorder may write.
///
/// # Errors
/// [`AllocError`] only where an allocation was refused.
pub(crate) fn entry_of(
    alloc: Global,
    graph: &Graph,
    line: &[u8],
) -> Result<Option<Entry>, AllocError>
    ensures { IfOk result (λ entry. option_map entry_value entry
        ≡ entry_of_line graph.now.manifest.builds line.now) }
{
    match read_fields(alloc, line) {
        Ok(texts) => entry_in(alloc, graph, &texts),
        Err(LineFault::Memory) => Err(AllocError),
        Err(LineFault::Kind(_)) => Ok(None),
    }
}
