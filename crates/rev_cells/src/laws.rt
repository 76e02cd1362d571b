//! Laws of all states.
ghost use Rattle.rev_cells.specs.Laws.{DefaultsAtFirst, OthersStay, WrittenIsRead};

/// Each word that reads a state gives what was written to its cell.
pub fn written_is_read()
    ensures { WrittenIsRead }
{}

/// A write changes what no other cell holds.
pub fn others_stay()
    ensures { OthersStay }
{}

/// Where nothing was written each cell holds its default.
pub fn defaults_at_first()
    ensures { DefaultsAtFirst }
{}
