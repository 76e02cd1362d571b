//! Laws of observations and their texts, each the contract of a function that does nothing.
ghost use Rattle.rev_observed.specs.Laws.{OneOrTheOther, SaidLinesAreRead};

/// Lines say an observation, and no other one, or they have a first fault, and no other one; never both.
pub fn one_or_the_other()
    ensures { OneOrTheOther }
{}

/// The lines that say an observation are read as it.
pub fn said_lines_are_read()
    ensures { SaidLinesAreRead }
{}
