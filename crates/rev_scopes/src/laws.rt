//! Laws of scopes and values.
ghost use Rattle.rev_scopes.specs.Laws.{NoValueIsALoop, NoValueMeansALoop, OneValue, OtherScopesChangeNothing, ScopesHideTheirParents, TheFaultIsALoop, WhatNeedsItselfHasNoValue};

/// A name has at most one value at an edge.
pub fn one_value()
    ensures { OneValue }
{}

/// A variable has the value that its scope gives it, else the one that it has in the parent.
pub fn scopes_hide_their_parents()
    ensures { ScopesHideTheirParents }
{}

/// What is bound in scopes that a look-up does not go through changes no value at an edge.
pub fn other_scopes_change_nothing()
    ensures { OtherScopesChangeNothing }
{}

/// What needs itself, at once or through others, has no value.
pub fn what_needs_itself_has_no_value()
    ensures { WhatNeedsItselfHasNoValue }
{}

/// A name that has no value leads to one that needs itself, which is thus the only reason.
pub fn no_value_means_a_loop()
    ensures { NoValueMeansALoop }
{}

/// A name has no value exactly where it leads to one that needs itself, also where it does not need itself.
pub fn no_value_is_a_loop()
    ensures { NoValueIsALoop }
{}

/// An edge is refused for a variable without a value exactly where one that it needs leads to a loop.
pub fn the_fault_is_a_loop()
    ensures { TheFaultIsALoop }
{}
