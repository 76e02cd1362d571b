//! Races that no filter hides.
ghost use Rattle.std.specs.Prelude.{◌≡◌, ◌||◌, not, IfOk};
ghost use Rattle.rev_certainty.specs.Races.{is_error, is_left as is_left_race, left};

use rev_filters::{Filters, is_hidden};
use rev_races_text::{Evidence, RaceFinding};
use std::alloc::{AllocError, Global};

/// Whether the error of a failed command names a race.
pub fn is_named(race: &RaceFinding<'_>) -> bool
    ensures { result ≡ is_error race.now.evidence }
{
    match race.evidence {
        Evidence::Error(_) => true,
        Evidence::Own | Evidence::Story(_) | Evidence::Earlier(_) => false,
    }
}

// Whether a race is left.
fn is_left(alloc: Global, filters: &[Filters], race: &RaceFinding<'_>) -> Result<bool, AllocError>
    ensures { IfOk result (λ is_left. is_left ≡ is_left_race filters.now race.now) }
{
    if is_named(race) {
        return Ok(true);
    }
    let is_hidden = is_hidden(alloc, filters, race.path.as_bytes())?;
    Ok(!is_hidden)
}

/// The races of which no filter hides the path, and those that the error of a failed command names.
///
/// # Errors
/// [`AllocError`] only where an allocation was refused.
pub fn unhidden<'a>(
    alloc: Global,
    filters: &[Filters],
    races: &[RaceFinding<'a>],
) -> Result<Vec<RaceFinding<'a>>, AllocError>
    ensures { IfOk result (λ races_left. races_left.items ≡ left filters.now races.now) }
{
    let mut told = Vec::new(alloc);
    for race in races {
        if is_left(alloc, filters, race)? {
            told.push(*race)?;
        }
    }
    Ok(told)
}
