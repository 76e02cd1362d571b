//! The greatest stamp of inputs, where none is missing.
ghost use Rattle.std.specs.Prelude.{◌≡◌, ◌<◌, ℕ, List, max, map, length, IfSome};
ghost use Rattle.rev_graph.specs.Graph.{build_at, IsGraph, IsRanked};
ghost use Rattle.rev_manifest.specs.Manifest.{BuildValue};
ghost use Rattle.rev_dirty.specs.Inputs.{inputs, paths_in, deps_record};
ghost use Rattle.rev_dirty.specs.Reasons.{newest_stamp};
ghost use Rattle.rev_dirty.specs.Visible.{greatest, visible_stamp};

use rev_cells::Cells;
use rev_cells::records::stamp;
use rev_graph::Graph;
use rev_paths::Name;

// The greatest of a stamp and those of paths, none where a path is missing. One that is there shows its own stamp,
// whatever the graph is.
fn greatest_there(cells: &Cells, paths: &[Name], least: u64) -> Option<u64>
    ensures { IfSome result (λ newest. (builds : List BuildValue) (ranks : List ℕ) → IsRanked builds ranks
        → newest ≡ max least (greatest (map (visible_stamp builds cells.now.state) paths.now))) }
{
    let mut newest = least;
    for path in paths {
        let stamp = stamp(cells, path);
        if stamp == 0 {
            return None;
        }
        if stamp > newest {
            newest = stamp;
        }
    }
    Some(newest)
}

/// The greatest visible stamp of the inputs of an edge that are not order-only, where none of these is missing: then
/// what produces them is not looked at. `listed` are the inputs that its deps record lists.
pub(crate) fn newest_there(graph: &Graph, cells: &Cells, edge: u32, listed: &[Name]) -> Option<u64>
    requires edge { edge < length graph.now.manifest.builds }
    requires graph { IsGraph graph.now }
    requires listed { listed.now ≡ paths_in
        (deps_record cells.now.state (build_at graph.now.manifest.builds edge)) }
    ensures { IfSome result (λ newest. newest
        ≡ newest_stamp graph.now.manifest.builds cells.now.state
        (inputs cells.now.state (build_at graph.now.manifest.builds edge))) }
{
    let on_line = graph.inputs(edge);
    let explicit = greatest_there(cells, on_line.explicit, 0)?;
    let implicit = greatest_there(cells, on_line.implicit, explicit)?;
    greatest_there(cells, listed, implicit)
}
