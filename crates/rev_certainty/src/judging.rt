//! What stands in the way of a certificate, and what a user trusts.
ghost use Rattle.std.specs.Prelude.{◌≡◌, false, is_some, IfOk};
ghost use Rattle.std.specs.Option.{option_copied, option_map_or};
ghost use Rattle.rev_trusted.specs.Trusts.{is_trusted};
ghost use Rattle.rev_certainty.specs.Certain.{certainty_if, is_certain};
ghost use Rattle.rev_certainty.specs.Judged.{flag_of as flag_of_numbers, is_taken, untaken};

use crate::certainty::{Beside, Certainty, certainty_of};
use rev_certificate::{Certificate, Obstacle};
use rev_observation::{Flag, Observation};
use rev_trusted::Trust;
use std::alloc::{AllocError, Global};

/// A flag that a line of the user's file trusts.
#[derive(Clone, Copy)]
pub struct Trusted {
    /// The number of the command among the observation's.
    pub command: u32,
    /// The number of the flag among the command's.
    pub flag: u32,
    /// The place of the line among those of the file.
    pub line: usize,
}

/// What stands in the way of a certificate, what does not since the user trusts it, and whether nothing does.
#[derive(Drop)]
pub struct Judged {
    /// The obstacles that no line takes out of the way.
    pub obstacles: Vec<Obstacle>,
    /// What the user trusts.
    pub trusted: Vec<Trusted>,
    /// That nothing stands in the way; none where something does.
    pub certainty: Option<Certainty>,
}

// Obstacles, without the flags that the user trusts, and these.
#[derive(Drop)]
struct Split {
    left: Vec<Obstacle>,
    trusted: Vec<Trusted>,
}

// A flag of a command, by both numbers.
fn flag_of(places: &Observation, command: u32, flag: u32) -> Option<&Flag>
    ensures { option_copied result ≡ flag_of_numbers places.now command flag }
{
    match places.commands().get(command as usize) {
        Some(command) => command.flags().get(flag as usize),
        None => None,
    }
}

// The place of the line that trusts a flag.
fn line_of(alloc: Global, trust: &Trust, flag: Option<&Flag>) -> Result<Option<usize>, AllocError>
    ensures { IfOk result (λ line. is_some line
        ≡ option_map_or (is_trusted trust.now.lines.items) (option_copied flag.entry) false) }
{
    match flag {
        Some(flag) => trust.line_of(alloc, flag),
        None => Ok(None),
    }
}

// The line that trusts a flag of a command.
fn trusted_flag(
    alloc: Global,
    places: &Observation,
    trust: &Trust,
    command: u32,
    flag: u32,
) -> Result<Option<Trusted>, AllocError>
    ensures { IfOk result (λ found. is_some found
        ≡ option_map_or (is_trusted trust.now.lines.items) (flag_of_numbers places.now command flag) false) }
{
    match line_of(alloc, trust, flag_of(places, command, flag))? {
        Some(line) => Ok(Some(Trusted {
            command,
            flag,
            line,
        })),
        None => Ok(None),
    }
}

// The line that trusts an obstacle, where it is a flag.
fn trust_of(
    alloc: Global,
    places: &Observation,
    trust: &Trust,
    obstacle: Obstacle,
) -> Result<Option<Trusted>, AllocError>
    ensures { IfOk result (λ found. is_some found ≡ is_taken places.now trust.now.lines.items obstacle) }
{
    match obstacle {
        Obstacle::Flagged { command, flag } => trusted_flag(alloc, places, trust, command, flag),
        Obstacle::Incomplete
        | Obstacle::NotEnded { .. }
        | Obstacle::Early { .. }
        | Obstacle::Unseen { .. }
        | Obstacle::Conflict(_) => Ok(None),
    }
}

// Of some obstacles those that the user does not trust, and the flags that the user does.
fn split_of(
    alloc: Global,
    places: &Observation,
    trust: &Trust,
    obstacles: &[Obstacle],
) -> Result<Split, AllocError>
    ensures { IfOk result (λ split. split.left.items ≡ untaken places.now trust.now.lines.items obstacles.now) }
{
    let mut left = Vec::new(alloc);
    let mut trusted = Vec::new(alloc);
    for obstacle in obstacles {
        match trust_of(alloc, places, trust, *obstacle)? {
            Some(flag) => trusted.push(flag)?,
            None => left.push(*obstacle)?,
        }
    }
    Ok(Split { left, trusted })
}

/// What stands in the way of a certificate of an observation, beside what else is known of the recording. It is certain
/// exactly where nothing does: not beside the certificate, no obstacle that no line of `trust` takes out of the way, and
/// no assumption that is refused. A strict certificate trusts no flag, and refuses each assumption but two.
///
/// # Errors
/// [`AllocError`] only where an allocation was refused.
pub fn judge(
    alloc: Global,
    places: &Observation,
    trust: &Trust,
    certificate: &Certificate,
    beside: &Beside,
    is_strict: bool,
) -> Result<Judged, AllocError>
    ensures obstacles { IfOk result (λ judged. judged.obstacles.items
        ≡ untaken places.now trust.now.lines.items certificate.now.obstacles.items) }
    ensures certainty { IfOk result (λ judged. judged.certainty
        ≡ certainty_if (is_certain beside.now is_strict places.now trust.now.lines.items certificate.now)
        beside.now.commands) }
{
    let split = split_of(alloc, places, trust, &certificate.obstacles)?;
    let word = certainty_of(beside, certificate, &split.left, is_strict);
    let Split { left, trusted } = split;
    Ok(Judged {
        obstacles: left,
        trusted,
        certainty: word,
    })
}
