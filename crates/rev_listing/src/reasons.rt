//! Why an edge is dirty.
ghost use Rattle.std.specs.Prelude.{◌≡◌, ◌++◌, ◌<◌, codes, length, IfOk, OnOk};
ghost use Rattle.std.specs.List.{flat_map};
ghost use Rattle.rev_fields.specs.Fields.{spaced};
ghost use Rattle.rev_listing.specs.Marks.{output_field};
ghost use Rattle.rev_listing.specs.Why.{input_at, reason_fields, reason_paths, reason_text, reason_word as reason_word_of, reasons_text, step_text, why_text};

use crate::output::{next_edge, next_input, next_output};
use rev_cells::Cells;
use rev_dirty::Reason;
use rev_graph::Graph;
use rev_plan::why;
use std::alloc::{AllocError, Global};

/// The word of a reason, as a listing has it.
pub fn reason_word(reason: Reason) -> &'static str
    ensures { result.now ≡ reason_word_of reason }
{
    match reason {
        Reason::Missing(_) => "missing",
        Reason::NoDeps => "no-deps",
        Reason::DepsOld => "deps-old",
        Reason::Rebuilt(_) => "rebuilt",
        Reason::MissingDep(_) => "missing-dep",
        Reason::Older(_, _) => "older",
        Reason::NoRecord(_) => "no-record",
        Reason::Command(_) => "command",
    }
}

// Adds the output and the input that a reason is about.
fn push_reason_paths(
    text: &mut Vec<u8>,
    graph: &Graph,
    cells: &Cells,
    edge: u32,
    reason: Reason,
) -> Result<(), AllocError>
    ensures { OnOk result (text.new.items
        ≡ text.old.items ++ flat_map spaced
        (reason_paths graph.now.manifest.builds cells.now.state edge reason)) }
{
    match reason {
        Reason::NoDeps | Reason::DepsOld => Ok(()),
        Reason::Missing(output) | Reason::NoRecord(output) | Reason::Command(output) => {
            next_output(text, graph, edge, output)
        }
        Reason::Rebuilt(input) | Reason::MissingDep(input) => {
            next_input(text, graph, cells, edge, input)
        }
        Reason::Older(output, input) => {
            next_output(text, graph, edge, output)?;
            next_input(text, graph, cells, edge, input)
        }
    }
}

// Adds a reason.
fn push_reason(
    text: &mut Vec<u8>,
    graph: &Graph,
    cells: &Cells,
    edge: u32,
    reason: Reason,
) -> Result<(), AllocError>
    ensures { OnOk result (text.new.items
        ≡ text.old.items ++ flat_map spaced
        (reason_fields graph.now.manifest.builds cells.now.state edge reason)) }
{
    text.extend_from_slice(b" ")?;
    text.extend_from_slice(reason_word(reason).as_bytes())?;
    push_reason_paths(text, graph, cells, edge, reason)
}

// Adds `why OUT REASON`.
fn push_reason_line(
    text: &mut Vec<u8>,
    graph: &Graph,
    cells: &Cells,
    edge: u32,
    reason: Reason,
) -> Result<(), AllocError>
    ensures { OnOk result (text.new.items
        ≡ text.old.items ++ reason_text graph.now.manifest.builds cells.now.state edge reason) }
{
    text.extend_from_slice(b"why")?;
    next_edge(text, graph, edge)?;
    push_reason(text, graph, cells, edge, reason)?;
    text.extend_from_slice(b"\n")
}

// Adds `why OUT REASON` for each reason of an edge.
fn push_reason_lines(
    text: &mut Vec<u8>,
    graph: &Graph,
    cells: &Cells,
    edge: u32,
    reasons: &[Reason],
) -> Result<(), AllocError>
    ensures { OnOk result (text.new.items
        ≡ text.old.items ++ flat_map
        (reason_text graph.now.manifest.builds cells.now.state edge) reasons.now) }
{
    for reason in reasons {
        push_reason_line(text, graph, cells, edge, *reason)?;
    }
    Ok(())
}

// Adds `why OUT REASON` for each reason of an edge, or `why OUT nothing`.
fn push_reasons(
    text: &mut Vec<u8>,
    graph: &Graph,
    cells: &Cells,
    edge: u32,
    reasons: &[Reason],
) -> Result<(), AllocError>
    ensures { OnOk result (text.new.items
        ≡ text.old.items ++ reasons_text graph.now.manifest.builds cells.now.state edge
        reasons.now) }
{
    if reasons.is_empty() {
        text.extend_from_slice(b"why")?;
        next_edge(text, graph, edge)?;
        return text.extend_from_slice(b" nothing\n");
    }
    push_reason_lines(text, graph, cells, edge, reasons)
}

// Adds `why OUT`.
fn push_why(text: &mut Vec<u8>, graph: &Graph, edge: u32) -> Result<(), AllocError>
    ensures { OnOk result (text.new.items
        ≡ text.old.items ++ codes "why" ++ spaced (output_field graph.now.manifest.builds edge)) }
{
    text.extend_from_slice(b"why")?;
    next_edge(text, graph, edge)
}

// Adds `via IN`.
fn push_via(
    text: &mut Vec<u8>,
    graph: &Graph,
    cells: &Cells,
    edge: u32,
    position: u64,
) -> Result<(), AllocError>
    ensures { OnOk result (text.new.items ≡ text.old.items ++ codes " via"
        ++ spaced (input_at graph.now.manifest.builds cells.now.state edge position)) }
{
    text.extend_from_slice(b" via")?;
    next_input(text, graph, cells, edge, position)
}

// Adds `why OUT via IN`.
fn push_step(
    text: &mut Vec<u8>,
    graph: &Graph,
    cells: &Cells,
    edge: u32,
    position: u64,
) -> Result<(), AllocError>
    ensures { OnOk result (text.new.items
        ≡ text.old.items ++ step_text graph.now.manifest.builds cells.now.state
        (edge, position)) }
{
    push_why(text, graph, edge)?;
    push_via(text, graph, cells, edge, position)?;
    text.extend_from_slice(b"\n")
}

// Adds `why OUT via IN` for each step of a chain.
fn push_steps(
    text: &mut Vec<u8>,
    graph: &Graph,
    cells: &Cells,
    steps: &[(u32, u64)],
) -> Result<(), AllocError>
    ensures { OnOk result (text.new.items
        ≡ text.old.items ++ flat_map (step_text graph.now.manifest.builds cells.now.state)
        steps.now) }
{
    for (edge, position) in steps {
        push_step(text, graph, cells, *edge, *position)?;
    }
    Ok(())
}

/// The lines `why OUT via IN` of the way from an edge to one with reasons, and then `why OUT REASON` for each reason of
/// that one, or `why OUT nothing`.
pub fn why_text(
    alloc: Global,
    graph: &Graph,
    cells: &Cells,
    edge: u32,
) -> Result<Vec<u8>, AllocError>
    requires { edge < length graph.now.manifest.builds }
    ensures { IfOk result (λ text. text.items ≡ why_text graph.now.manifest.builds cells.now.state edge) }
{
    let chain = why(alloc, graph, cells, edge)?;
    let mut text = Vec::new(alloc);
    push_steps(&mut text, graph, cells, &chain.steps)?;
    push_reasons(&mut text, graph, cells, chain.last, &chain.reasons)?;
    Ok(text)
}
