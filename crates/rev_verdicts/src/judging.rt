//! Which conflicts no finding and no race names.
use rev_certificate::Obstacle;
use rev_certificate_words::Named;
use rev_conflicts_text::Finding;
use rev_paths::Name;
use rev_races_text::RaceFinding;
use std::alloc::{AllocError, Global};

// Two edges and an entry, the lesser edge first.
#[derive(Clone, Copy, PartialEq, Eq, PartialOrd, Ord)]
struct Spot {
    lesser: u32,
    greater: u32,
    entry: u32,
}

impl Spot {
    // The spot of two edges and an entry.
    fn new(one: u32, other: u32, entry: u32) -> Spot {
        Spot {
            lesser: one.min(other),
            greater: one.max(other),
            entry,
        }
    }
}

// Adds the spot of two edges and a path, where the path is an entry's.
fn add_spot(
    named: &Named<'_>,
    maker: u32,
    user: u32,
    path: &Name,
    spots: &mut Vec<Spot>,
) -> Result<(), AllocError> {
    if let Some(entry) = named.entry_of(path) {
        spots.push(Spot::new(maker, user, entry))?;
    }
    Ok(())
}

// The spots of findings and of races, in their order.
fn spots_of(
    alloc: Global,
    named: &Named<'_>,
    findings: &[Finding<'_>],
    races: &[RaceFinding<'_>],
) -> Result<Vec<Spot>, AllocError> {
    let mut spots = Vec::new(alloc);
    for finding in findings {
        add_spot(named, finding.maker, finding.user, finding.path, &mut spots)?;
    }
    for race in races {
        add_spot(named, race.maker, race.user, race.path, &mut spots)?;
    }
    spots.sort_unstable();
    Ok(spots)
}

// Whether spots have the two commands of an obstacle at its entry, or at the folder of the entry.
fn is_among(named: &Named<'_>, spots: &[Spot], obstacle: &Obstacle) -> bool {
    let Obstacle::Conflict(conflict) = obstacle else {
        return false;
    };
    let (Some(maker), Some(user)) = (
        named.edge_of(conflict.made_by),
        named.edge_of(conflict.used_by),
    ) else {
        return false;
    };
    if spots
        .binary_search(&Spot::new(maker, user, conflict.entry))
        .is_ok()
    {
        return true;
    }
    match named.folder_of(conflict.entry) {
        Some(folder) => spots.binary_search(&Spot::new(maker, user, folder)).is_ok(),
        None => false,
    }
}

/// Of some obstacles those that neither a finding nor a race names: each is printed once.
///
/// # Errors
/// [`AllocError`] only where an allocation was refused.
pub(crate) fn unnamed(
    alloc: Global,
    named: &Named<'_>,
    obstacles: &[Obstacle],
    findings: &[Finding<'_>],
    races: &[RaceFinding<'_>],
) -> Result<Vec<Obstacle>, AllocError> {
    let spots = spots_of(alloc, named, findings, races)?;
    let mut left = Vec::new(alloc);
    for obstacle in obstacles {
        if !is_among(named, &spots, obstacle) {
            left.push(*obstacle)?;
        }
    }
    Ok(left)
}
