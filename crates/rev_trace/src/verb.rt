//! The words that commands begin with.
ghost use Rattle.std.specs.Prelude.{◌≡◌};
ghost use Rattle.rev_trace.specs.Commands.{verb_of, word_of};

/// What a command begins with.
#[derive(Clone, Copy, Debug, PartialEq, Eq)]
pub(crate) enum Verb {
    /// `plan`
    Plan,
    /// `start`
    Start,
    /// `finish`
    Finish,
    /// `fail`
    Fail,
    /// `abort`
    Abort,
    /// `clean`
    Clean,
    /// `pass`
    Pass,
    /// `touch`
    Touch,
    /// `interrupt`
    Interrupt,
    /// `resize`
    Resize,
    /// `undo`
    Undo,
    /// `redo`
    Redo,
    /// `cone`
    Cone,
    /// `back`
    Back,
    /// `break`
    Break,
    /// `unbreak`
    Unbreak,
    /// `continue`
    Continue,
}

// All verbs.
const VERBS: [Verb; 17] = [
    Verb::Plan,
    Verb::Start,
    Verb::Finish,
    Verb::Fail,
    Verb::Abort,
    Verb::Clean,
    Verb::Pass,
    Verb::Touch,
    Verb::Interrupt,
    Verb::Resize,
    Verb::Undo,
    Verb::Redo,
    Verb::Cone,
    Verb::Back,
    Verb::Break,
    Verb::Unbreak,
    Verb::Continue,
];

impl Verb {
    /// The word.
    pub(crate) fn word(self) -> &'static [u8]
        ensures { result.now ≡ word_of self }
    {
        match self {
            Verb::Plan => b"plan",
            Verb::Start => b"start",
            Verb::Finish => b"finish",
            Verb::Fail => b"fail",
            Verb::Abort => b"abort",
            Verb::Clean => b"clean",
            Verb::Pass => b"pass",
            Verb::Touch => b"touch",
            Verb::Interrupt => b"interrupt",
            Verb::Resize => b"resize",
            Verb::Undo => b"undo",
            Verb::Redo => b"redo",
            Verb::Cone => b"cone",
            Verb::Back => b"back",
            Verb::Break => b"break",
            Verb::Unbreak => b"unbreak",
            Verb::Continue => b"continue",
        }
    }

    /// The verb whose word this is.
    pub(crate) fn of_word(word: &[u8]) -> Option<Verb>
        ensures { result ≡ verb_of word.now }
    {
        for verb in &VERBS {
            if word == verb.word() {
                return Some(*verb);
            }
        }
        None
    }
}
