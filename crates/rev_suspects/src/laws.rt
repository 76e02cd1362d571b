//! Laws of suspects.
ghost use Rattle.rev_suspects.specs.Bases.{ListsRestOn};
ghost use Rattle.rev_suspects.specs.Laws.{SuspectsAreInAnyOrder, SuspectsAreNotForced};

/// A suspect and the failed command can run in any order. There is a build from nothing in which the suspect is still
/// to run when the failed command starts, and one in which the suspect is through.
pub fn suspects_are_in_any_order()
    ensures { SuspectsAreInAnyOrder }
{}

/// A suspect is not an edge that every legal order settles before the failed command starts: in the history's own order
/// the suspect is not settled then.
pub fn suspects_are_not_forced()
    ensures { SuspectsAreNotForced }
{}

/// A list that rests on a finish is the list of the edge's last finish. Any other list is the one in the opening's deps
/// record.
pub fn lists_rest_on()
    ensures { ListsRestOn }
{}
