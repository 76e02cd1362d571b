//! What a certificate without obstacles assures.
ghost use Rattle.rev_certificate.specs.Assured.{CertainOneOutcome};

/// Where nothing stands in the way, and the observation says all that the commands of one legal schedule did, each
/// legal schedule from the same sources has its outcome.
pub fn certain_one_outcome()
    ensures { CertainOneOutcome }
{}
