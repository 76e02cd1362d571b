//! What a command met at places.
ghost use Rattle.std.specs.Prelude.{◌≡◌};
ghost use Rattle.rev_contents.specs.Runs.{alike};

/// What a place answered to a command. Contents are numbers: two contents have one number exactly where they are the
/// same bytes.
#[derive(Clone, Copy, Debug, PartialEq, Eq)]
pub enum Answer {
    /// Nothing was there.
    Missing,
    /// Something was there, and the command did not read it.
    There,
    /// The content that was there, which the command read.
    Content(usize),
}

impl Answer {
    /// Whether one place can have given both answers, and no question has another reply by one than by the other.
    pub fn is_like(self, other: Answer) -> bool
        ensures { result ≡ alike self other }
    {
        match (self, other) {
            (Answer::Missing, Answer::Missing) => true,
            (Answer::Missing, _) | (_, Answer::Missing) => false,
            (Answer::Content(one), Answer::Content(other)) => one == other,
            _ => true,
        }
    }
}

/// A place at which a command looked before it changed it, and the answer.
#[derive(Clone, Copy, Debug, PartialEq, Eq)]
pub struct Look {
    /// The number of the place, which is the same one in both recordings.
    pub place: usize,
    /// What it answered.
    pub answer: Answer,
}

/// A place and the content that a command left there.
#[derive(Clone, Copy, Debug, PartialEq, Eq)]
pub struct Left {
    /// The number of the place, which is the same one in both recordings.
    pub place: usize,
    /// The number of the content.
    pub content: usize,
}
