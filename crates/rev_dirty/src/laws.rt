//! Laws of visible stamps and of reasons.
ghost use Rattle.rev_dirty.specs.Laws.{ShowsThrough};
ghost use Rattle.rev_dirty.specs.Reading.{ReasonCellsDecide, SeenAreSeen, SeenPathsDecide};

/// The visible stamp of a path is its stamp. Of a missing output of a phony edge it is the greatest visible stamp of
/// that edge's explicit and implicit inputs, 0 where it has none.
pub fn shows_through()
    ensures { ShowsThrough }
{}

/// In each graph the seen paths are the path, and what is seen from the inputs of the phony edge that produces it.
pub fn seen_are_seen()
    ensures { SeenAreSeen }
{}

/// The visible stamp of a path depends on the stamps of the seen paths alone.
pub fn seen_paths_decide()
    ensures { SeenPathsDecide }
{}

/// The reasons of an edge depend on its reason cells alone. These are the marks of the producers of its inputs, the
/// stamps that are seen of its inputs, the stamps and build records of its outputs, and its deps record.
pub fn reason_cells_decide()
    ensures { ReasonCellsDecide }
{}
