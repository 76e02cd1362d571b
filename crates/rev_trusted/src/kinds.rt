//! The words of flags.
ghost use Rattle.std.specs.Prelude.{◌≡◌, bytes_eq};
ghost use Rattle.rev_trusted.specs.Trusts.{flag_word};

use rev_observation::FlagKind;

/// The word of a flag, as a line of an observation has it.
pub fn word_of(kind: FlagKind) -> &'static str
    ensures { result.now ≡ flag_word kind }
{
    match kind {
        FlagKind::Cut => "cut",
        FlagKind::Late => "late",
        FlagKind::Socket => "socket",
        FlagKind::Ipc => "ipc",
        FlagKind::Proc => "proc",
        FlagKind::Namespace => "namespace",
        FlagKind::Uring => "uring",
        FlagKind::Attributes => "attributes",
        FlagKind::Notified => "notified",
        FlagKind::Deep => "deep",
        FlagKind::Unresolved => "unresolved",
        FlagKind::Unknown => "unknown",
        FlagKind::Twin => "twin",
    }
}

/// Whether two flags have one word.
pub(crate) fn are_alike(one: FlagKind, other: FlagKind) -> bool
    ensures { result ≡ bytes_eq (flag_word one) (flag_word other) }
{
    word_of(one).as_bytes() == word_of(other).as_bytes()
}

// Each kind of flag.
const KINDS: [FlagKind; 13] = [
    FlagKind::Cut,
    FlagKind::Late,
    FlagKind::Socket,
    FlagKind::Ipc,
    FlagKind::Proc,
    FlagKind::Namespace,
    FlagKind::Uring,
    FlagKind::Attributes,
    FlagKind::Notified,
    FlagKind::Deep,
    FlagKind::Unresolved,
    FlagKind::Unknown,
    FlagKind::Twin,
];

/// The flag of a word, where it is the word of one.
pub fn kind_of(word: &[u8]) -> Option<FlagKind> {
    for kind in KINDS {
        if word_of(kind).as_bytes() == word {
            return Some(kind);
        }
    }
    None
}
