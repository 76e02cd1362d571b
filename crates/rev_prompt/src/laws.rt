//! A law of past states.
ghost use Rattle.rev_prompt.specs.Past.{PastStatesAreLed};

/// `why` tells reasons by the state of a past plan. The kept events up to that plan are a history from the same opening,
/// and that state is the one to which this history leads.
pub fn past_states_are_led()
    ensures { PastStatesAreLed }
{}
