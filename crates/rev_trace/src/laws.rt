//! Laws of lines, each the contract of a function that does nothing.
ghost use Rattle.rev_trace.specs.Laws.{CommandsAreRead, LinesSayCommands};
ghost use Rattle.rev_trace.specs.LineFaults.{EmptyLineSaysNone, LineFaultsAreTold, SaidHaveStamps};
ghost use Rattle.rev_trace.specs.Migrated.{MigratedStay, MigratedTracesAreRead};
ghost use Rattle.rev_trace.specs.Says.{FaultsAreFirst, OneOrTheOther, TracesAreSaid};

/// The line that says a command is read as that command, unless its list of stamps is empty.
pub fn commands_are_read()
    ensures { CommandsAreRead }
{}

/// A line is read as a command exactly where the table of lines says so.
pub fn lines_say_commands()
    ensures { LinesSayCommands }
{}

/// A line has a fault exactly where that is what is wrong with it: 101 where it would be the line of a command if any
/// text counted as a number, and 100 where it would not even then.
pub fn line_faults_are_told()
    ensures { LineFaultsAreTold }
{}

/// The empty line says no command.
pub fn empty_line_says_none()
    ensures { EmptyLineSaysNone }
{}

/// No line says a command with an empty list of stamps.
pub fn said_have_stamps()
    ensures { SaidHaveStamps }
{}

/// A text is read as a trace exactly where it says that trace. Its first line names the format and a version. The
/// other lines say records and parts of lanes, by the tables of lines and by what that version lets stand.
pub fn traces_are_said()
    ensures { TracesAreSaid }
{}

/// A text has a fault exactly where that is its first: the lines before it say the beginning of a trace, and with it
/// they do not, for a reason that its number names.
pub fn faults_are_first()
    ensures { FaultsAreFirst }
{}

/// Each text says one trace or has one first fault, and not both.
pub fn one_or_the_other()
    ensures { OneOrTheOther }
{}

/// A text that is read as a trace is read as the same trace where it is migrated.
pub fn migrated_traces_are_read()
    ensures { MigratedTracesAreRead }
{}

/// A text whose first line names version 2 stays as it is where it is migrated.
pub fn migrated_stay()
    ensures { MigratedStay }
{}
