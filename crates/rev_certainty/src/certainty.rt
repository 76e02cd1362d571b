//! The only way to the word `certain`.
ghost use Rattle.std.specs.Prelude.{◌≡◌, ◌==◌, ◌&&◌, List, Some, if◌then◌else◌};
ghost use Rattle.std.specs.List.{list_any};
ghost use Rattle.rev_certainty.specs.Certain.{certainty_if, is_certain, is_clear as is_clear_of, is_empty};
ghost use Rattle.rev_certainty.specs.Judged.{grants as grants_all, is_refused as is_refused_one, untaken};
ghost use Rattle.rev_certainty.specs.Sayings.{certain_words};
ghost use Rattle.rev_observation.specs.Observations.{ObservationValue};
ghost use Rattle.rev_trusted.specs.declared.line.Line.{Line};

use rev_certificate::{Assumption, Certificate, Obstacle};
use rev_races_text::{Counted, Replayed};
use std::fmt;

/// What is known of a recording beside its certificate.
#[derive(Clone, Copy)]
pub struct Beside {
    /// How much of the recording counts.
    pub replayed: Replayed,
    /// How many commands ran.
    pub commands: u64,
    /// How many findings an observation shows by which an order can give a command of this build other inputs.
    pub findings: usize,
    /// How many races, cycles and own outputs lists or errors name that no filter hides.
    pub races: usize,
    /// How many clashes of depfiles and response files there are.
    pub side_files: usize,
}

/// That nothing stands in the way of a build's certificate. [`judge`](crate::judge) alone makes one, so whoever has one
/// may say `certain`.
#[derive(Clone, Copy, Debug, PartialEq, Eq)]
pub struct Certainty {
    commands: u64,
}

impl fmt::Display for Certainty {
    ghost output = { λ c. Some (certain_words c.commands) };

    fn fmt<W: fmt::Write>(&self, f: &mut fmt::Formatter<W>) -> fmt::Result {
        let commands = Counted {
            count: self.commands,
            one: "command",
            many: "commands",
        };
        write!(
            f,
            "certain: {commands}; no order that this manifest allows gives any of them other inputs"
        )
    }
}

/// Whether a strict certificate refuses an assumption: all but two.
pub fn is_refused(one: &Assumption) -> bool
    ensures { result ≡ is_refused_one one.now }
{
    match one {
        Assumption::Targets | Assumption::SeesTheSame => false,
        Assumption::Ensured { .. }
        | Assumption::Stamps { .. }
        | Assumption::Order { .. }
        | Assumption::Cached { .. }
        | Assumption::HiddenEntry { .. }
        | Assumption::HiddenPlace { .. }
        | Assumption::Names { .. } => true,
    }
}

impl Beside {
    // Whether nothing is named in it that stands in the way.
    fn is_without(&self) -> bool
        ensures { result ≡ (self.now.findings == 0 && (self.now.races == 0 && self.now.side_files == 0)) }
    {
        self.findings == 0 && (self.races == 0 && self.side_files == 0)
    }

    // Whether nothing in it stands in the way.
    fn is_clear(&self) -> bool
        ensures { result ≡ is_clear_of self.now }
    {
        self.replayed.is_whole() && (self.commands != 0 && self.is_without())
    }
}

// Whether one of some assumptions is refused.
fn any_refused(assumptions: &[Assumption]) -> bool
    ensures { result ≡ list_any is_refused_one assumptions.now }
{
    assumptions.iter().any(|one| is_refused(one))
}

// Whether no assumption is refused.
fn grants(assumptions: &[Assumption], is_strict: bool) -> bool
    ensures { result ≡ grants_all is_strict assumptions.now }
{
    let any = any_refused(assumptions);
    !is_strict || !any
}

// Whether no obstacle stands in the way, where `left` are those that no line takes out of it.
fn is_free(obstacles: &[Obstacle], left: &[Obstacle], is_strict: bool) -> bool
    ensures { result ≡ is_empty (if is_strict then obstacles.now else left.now) }
{
    if is_strict {
        obstacles.is_empty()
    } else {
        left.is_empty()
    }
}

// Whether three tests passed.
fn all_of(one: bool, two: bool, three: bool) -> bool
    ensures { result ≡ (one && (two && three)) }
{
    one && (two && three)
}

// What may be said of so many commands.
fn certainty_where(is_certain: bool, commands: u64) -> Option<Certainty>
    ensures { result ≡ certainty_if is_certain commands }
{
    if is_certain {
        Some(Certainty { commands })
    } else {
        None
    }
}

/// That nothing stands in the way of a certificate, of whose obstacles `left` has those that no line takes out of it. It
/// is none where something does.
pub(crate) fn certainty_of(
    beside: &Beside,
    certificate: &Certificate,
    left: &[Obstacle],
    is_strict: bool,
) -> Option<Certainty>
    ensures { (o : ObservationValue) (lines : List Line)
        → left.now ≡ untaken o lines certificate.now.obstacles.items
        → result ≡ certainty_if (is_certain beside.now is_strict o lines certificate.now) beside.now.commands }
{
    let clear = beside.is_clear();
    let free = is_free(&certificate.obstacles, left, is_strict);
    let granted = grants(&certificate.assumptions, is_strict);
    let certain = all_of(clear, free, granted);
    certainty_where(certain, beside.commands)
}
