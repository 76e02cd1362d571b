//! The meanings of the numbers of faults and refusals.
ghost use Rattle.std.specs.Prelude.{◌≡◌};
ghost use Rattle.std.specs.Option.{option_copied};
ghost use Rattle.rev_sentences.specs.Meanings.{meaning_of, of_desks, of_events, of_manifests, words_in};

// What the number of a fault of a manifest, a depfile or a graph means.
fn of_a_manifest(number: u64) -> Option<&'static str>
    ensures { option_copied result ≡ words_in of_manifests number }
{
    let words = match number {
        1 => "a path of no bytes",
        2 => "a path of more than 4,096 bytes",
        10 => "no statement of a manifest",
        11 => "a tab in the indentation",
        12 => "a `$` with nothing behind it that may stand there",
        13 => "unknown rule",
        14 => "a second rule of this name",
        15 => "a variable that a rule or a pool does not have",
        16 => "a rule without a command",
        17 => "a variable that needs itself",
        18 => "unknown pool",
        19 => "a pool's depth that is no number up to 1,000,000",
        20 => "a file that was not given",
        21 => "files that name files more than 16 deep",
        22 => "dynamic dependencies, which rebug does not read",
        23 => "more than rebug takes of files, of bytes, or of bytes in one value",
        24 => "a second pool of this name",
        30 => "a depfile's line without a colon",
        31 => "prerequisites of files that the edge does not make",
        32 => "a prerequisite of more than 4,096 bytes",
        40 => "two build lines have one output",
        41 => "an edge that needs itself",
        42 => "more than 262,144 build lines",
        _ => return None,
    };
    Some(words)
}

// What the number of a refusal of an event means.
fn of_a_command(number: u64) -> Option<&'static str>
    ensures { option_copied result ≡ words_in of_events number }
{
    let words = match number {
        50 => "an edge's command runs",
        51 => "a target that stands on no build line",
        52 => "an input that is missing and that nothing makes",
        53 => "an edge that needs itself through deps records",
        60 => "no edge has that output",
        61 => "the edge is phony",
        62 => "the edge has a command",
        63 => "the build was interrupted",
        64 => "the build was not interrupted",
        65 => "the build was interrupted already",
        66 => "the plan does not want the edge now",
        67 => "the edge's command does not run",
        68 => "the producer of an input is not settled",
        69 => "the edge has no reason to run",
        70 => "the edge has a reason to run",
        71 => "no such job",
        72 => "the job is taken",
        73 => "a slot that the edge's pool does not have, or none where it has slots",
        74 => "the slot is taken",
        75 => "not one stamp for each output",
        76 => "a list of files of an edge that keeps none",
        77 => "a depfile with a fault",
        78 => "a slot that the pool would lose is taken",
        79 => "no such pool, or a depth, present or new, that is not from 1 to 1,024",
        _ => return None,
    };
    Some(words)
}

// What the number of a refusal of another command means, or of a fault of a trace, a script or lanes.
fn of_a_desk(number: u64) -> Option<&'static str>
    ensures { option_copied result ≡ words_in of_desks number }
{
    let words = match number {
        80 => "no such event was accepted",
        81 => "the event is not kept",
        82 => "a later kept event depends on it",
        83 => "the event is kept already",
        84 => "the event is refused in the present state",
        85 => "a later kept event stands in the way",
        86 => "nothing is kept",
        92 => "the desk is paused",
        93 => "no such break stands",
        94 => "the journal is full",
        100 => "no line that may stand there",
        101 => "no number of that form or size",
        102 => "a lane out of turn",
        103 => "a second record for one path",
        104 => "no trace of this version",
        110 => "a lane is missing",
        111 => "a lane's own account is not its part of the journal",
        112 => "a lane stopped before its end",
        _ => return None,
    };
    Some(words)
}

/// The meaning of a number in a report, in a few words; `None` where no report has the number. The words are those of
/// docs/CODES.md.
pub fn meaning(number: u64) -> Option<&'static str>
    ensures { option_copied result ≡ meaning_of number }
{
    of_a_manifest(number).or(of_a_command(number).or(of_a_desk(number)))
}
