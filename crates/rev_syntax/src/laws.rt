//! Laws of the syntax, each the contract of a function that does nothing.
ghost use Rattle.rev_syntax.specs.Cutting.{LinesAreCut};
ghost use Rattle.rev_syntax.specs.Forms.{StatementsAreRead};
ghost use Rattle.rev_syntax.specs.Grammar.{TextsAreRead};
ghost use Rattle.rev_syntax.specs.Laws.{StatementsStandApart};
ghost use Rattle.rev_syntax.specs.Lists.{ListsAreRead};
ghost use Rattle.rev_syntax.specs.Places.{PlacesAreOne, StatementsStopThere};
ghost use Rattle.rev_syntax.specs.Refusals.{OnlyFormsAreRead, TextsStopThere};

/// Bytes are a text of certain pieces exactly where they read as these by the grammar.
pub fn texts_are_read()
    ensures { TextsAreRead }
{}

/// A list of paths is read exactly where bytes stand that are such a list by the grammar, and after them an end of
/// lists.
pub fn lists_are_read()
    ensures { ListsAreRead }
{}

/// What a statement says, and its fault, depend on its own lines alone.
pub fn statements_stand_apart()
    ensures { StatementsStandApart }
{}

/// A file has certain lines exactly where its bytes are these written out, with their ends, joins and dropped lines.
pub fn lines_are_cut()
    ensures { LinesAreCut }
{}

/// A line with those under it reads as a statement exactly where they are one of the forms written out.
pub fn statements_are_read()
    ensures { StatementsAreRead }
{}

/// A text has the fault of the place at which it can go on no more: what stands before that reads, and what stands
/// there makes no piece.
pub fn texts_stop_there()
    ensures { TextsStopThere }
{}

/// A line with those under it has a fault exactly where they are none of the forms.
pub fn only_forms_are_read()
    ensures { OnlyFormsAreRead }
{}

/// A line with those under it has the fault of the first of them that goes wrong, at its leftmost place. What stands
/// before that place can be continued to a line that reads, and with what stands there it cannot.
pub fn statements_stop_there()
    ensures { StatementsStopThere }
{}

/// A line has one leftmost byte with which it cannot go on, and none where all of it can.
pub fn places_are_one()
    ensures { PlacesAreOne }
{}
