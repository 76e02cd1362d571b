//! What a certificate assures.
ghost use Rattle.rev_assured.specs.Assured.{CertainOneOutcome};

/// Where it is certain that no schedule gives the commands of a build other inputs, each history of the build has the
/// outcome of the recorded one. The premises: commands go by what they look at alone, and the observation is trusted.
pub fn certain_one_outcome()
    ensures { CertainOneOutcome }
{}
