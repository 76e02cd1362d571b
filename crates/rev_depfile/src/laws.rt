//! Laws of depfiles, each the contract of a function that does nothing.
ghost use Rattle.rev_depfile.specs.Laws.{FaultsAreRead, LinesAreRead, ListsAreSpelled, NoReadingIsAFault, PathsAreRead, WordsAreHeld};

/// A text is a depfile of certain lines by the grammar exactly where it is read as these.
pub fn lines_are_read()
    ensures { LinesAreRead }
{}

/// The paths that are answered are those of a reading by the grammar, and each reading is answered.
pub fn paths_are_read()
    ensures { PathsAreRead }
{}

/// The fault that is answered is that of the first line that gives no paths.
pub fn faults_are_read()
    ensures { FaultsAreRead }
{}

/// A text has a fault exactly where it has no reading.
pub fn no_reading_is_a_fault()
    ensures { NoReadingIsAFault }
{}

/// Every list of paths without a tab or LF has a spelling that reads back as that list, for every such output.
pub fn lists_are_spelled()
    ensures { ListsAreSpelled }
{}

/// No word of a depfile is empty, and none has a tab or LF, so no other list of paths has a spelling.
pub fn words_are_held()
    ensures { WordsAreHeld }
{}
