//! What happened here with a maker and a user.
ghost use Rattle.std.specs.Prelude.{◌≡◌, ◌++◌, ◌∷◌, [], ℕ, List, map, IfOk, OnOk};
ghost use Rattle.std.specs.List.{list_any};
ghost use Rattle.rev_races.specs.Races.{is_plan as is_plan_of};
ghost use Rattle.rev_races.specs.Runs.{AreRuns};
ghost use Rattle.rev_races.specs.Stories.{AreCones, ArePlans, ArePlansBy, after_end as after_end_of, happened_of, in_order as in_order_of, is_between, story_of};

use crate::cones::{Cones, cones_for, held, no_cones};
use crate::race::Race;
use crate::runs::{Run, Runs, all_runs, finished_run, last_run};
use rev_events::Event;
use rev_history::History;
use std::alloc::{AllocError, Global};

/// What happened here with the maker's last run and with that run of the user that wrote its list.
#[derive(Clone, Copy, Debug, PartialEq, Eq)]
pub enum Happened {
    /// One of the two did not run, or a kept plan stands between their starts.
    Apart,
    /// The user's run ended before the maker's began: it read an older file.
    Before,
    /// Neither run ended before the other began.
    AtOnce,
    /// The maker ended before the user began, and the user's start depends on that end, by way of others too, by more
    /// than jobs and slots.
    HeldRecord,
    /// The maker ended before the user began, and the user's start depends on that end by way of jobs and slots alone.
    HeldPlace,
    /// The maker ended before the user began, and nothing held the user's start: the end can be taken out with all that
    /// depends on it, and the start stays.
    Free,
}

/// What happened here, and the two runs.
#[derive(Clone, Copy, Debug, PartialEq, Eq)]
pub struct Story {
    /// What happened.
    pub happened: Happened,
    /// The maker's last run, where it began here.
    pub maker: Option<Run>,
    /// The user's last run that ended well, where there is one here.
    pub user: Option<Run>,
}

// What happened where the user's run did not end before the maker's began.
fn after_end(
    alloc: Global,
    history: &History,
    ended: Option<u32>,
    began: u32,
    cones: &mut Cones,
) -> Result<Happened, AllocError>
    requires cones { AreCones history.now.timeline cones.old }
    ensures cones { OnOk result (AreCones history.now.timeline cones.new) }
    ensures happened { IfOk result (λ happened. happened ≡ after_end_of history.now.timeline ended began) }
{
    let Some(number) = ended else {
        return Ok(Happened::AtOnce);
    };
    if number >= began {
        return Ok(Happened::AtOnce);
    }
    let place = cones_for(alloc, history, number, cones)?;
    held(alloc, history, place, began, cones)
}

// What happened with two runs that no plan parts.
fn in_order(
    alloc: Global,
    history: &History,
    maker: &Run,
    user: &Run,
    cones: &mut Cones,
) -> Result<Happened, AllocError>
    requires cones { AreCones history.now.timeline cones.old }
    ensures cones { OnOk result (AreCones history.now.timeline cones.new) }
    ensures happened { IfOk result (λ happened. happened
        ≡ in_order_of history.now.timeline maker.now user.now user.now.ended) }
{
    if let Some(ended) = user.ended {
        if ended < maker.began {
            return Ok(Happened::Before);
        }
    }
    let happened = after_end(alloc, history, maker.ended, user.began, cones)?;
    Ok(happened)
}

// Whether a number stands between two others.
fn stands_between(first: u32, second: u32, number: u32) -> bool
    ensures { result ≡ is_between first second number }
{
    (first < number && number < second) || (second < number && number < first)
}

// Whether one of some numbers stands between two others.
fn are_apart(plans: &[u32], first: u32, second: u32) -> bool
    ensures { result ≡ list_any (is_between first second) plans.now }
{
    plans
        .iter()
        .any(|plan| stands_between(first, second, *plan))
}

// What happened with two runs.
fn what_happened(
    alloc: Global,
    history: &History,
    plans: &[u32],
    maker: Option<Run>,
    user: Option<Run>,
    cones: &mut Cones,
) -> Result<Happened, AllocError>
    requires plans { ArePlans history.now.timeline plans.now }
    requires cones { AreCones history.now.timeline cones.old }
    ensures cones { OnOk result (AreCones history.now.timeline cones.new) }
    ensures happened { IfOk result (λ happened. happened ≡ happened_of history.now.timeline maker user) }
{
    let Some(maker) = maker else {
        return Ok(Happened::Apart);
    };
    let Some(user) = user else {
        return Ok(Happened::Apart);
    };
    if are_apart(plans, maker.began, user.began) {
        return Ok(Happened::Apart);
    }
    let happened = in_order(alloc, history, &maker, &user, cones)?;
    Ok(happened)
}

// What happened with the two edges of a race.
fn one_story(
    alloc: Global,
    history: &History,
    runs: &Runs,
    plans: &[u32],
    race: &Race,
    cones: &mut Cones,
) -> Result<Story, AllocError>
    requires runs { AreRuns history.now.timeline runs.now }
    requires plans { ArePlans history.now.timeline plans.now }
    requires cones { AreCones history.now.timeline cones.old }
    ensures cones { OnOk result (AreCones history.now.timeline cones.new) }
    ensures story { IfOk result (λ story. story ≡ story_of history.now.timeline race.now) }
{
    let maker = last_run(history, runs, race.maker);
    let user = finished_run(history, runs, race.user);
    let happened = what_happened(alloc, history, plans, maker, user, cones)?;
    Ok(Story {
        happened,
        maker,
        user,
    })
}

// Whether an event is a plan.
fn is_plan(event: &Event) -> bool
    ensures { result ≡ is_plan_of event.now }
{
    match event {
        Event::Plan(_) => true,
        _ => false,
    }
}

// Adds a number where a plan stands under it.
fn add_plan(history: &History, number: u32, plans: &mut Vec<u32>) -> Result<(), AllocError>
    ensures { OnOk result ((ks : List ℕ) → ArePlansBy history.now.timeline ks plans.old.items
        → ArePlansBy history.now.timeline (ks ++ number ∷ []) plans.new.items) }
{
    let Some(event) = history.event(number) else {
        return Ok(());
    };
    if !is_plan(event) {
        return Ok(());
    }
    plans.push(number)?;
    Ok(())
}

// The numbers of the kept plans.
fn plan_numbers(alloc: Global, history: &History) -> Result<Vec<u32>, AllocError>
    ensures { IfOk result (λ plans. ArePlans history.now.timeline plans.items) }
{
    let mut plans = Vec::new(alloc);
    for number in history.kept() {
        add_plan(history, *number, &mut plans)?;
    }
    Ok(plans)
}

// Adds the end of a maker's last run, unless it was added last.
fn add_end(
    history: &History,
    runs: &Runs,
    maker: u32,
    ends: &mut Vec<u32>,
) -> Result<(), AllocError>
    requires runs { AreRuns history.now.timeline runs.now }
{
    let Some(run) = last_run(history, runs, maker) else {
        return Ok(());
    };
    let Some(end) = run.ended else {
        return Ok(());
    };
    if ends.last().copied() != Some(end) {
        ends.push(end)?;
    }
    Ok(())
}

// The ends of the makers' last runs, of which is asked at once. On these hangs what it takes, and not what is found.
fn ends_of(
    alloc: Global,
    history: &History,
    runs: &Runs,
    races: &[Race],
) -> Result<Vec<u32>, AllocError>
    requires runs { AreRuns history.now.timeline runs.now }
{
    let mut ends = Vec::new(alloc);
    for race in races {
        add_end(history, runs, race.maker, &mut ends)?;
    }
    Ok(ends)
}

/// What happened here with the two edges of each race, in the same order.
///
/// The kept events are gone through five times, and once or twice for each 64 makers that race: a second time where a
/// user was held.
///
/// # Errors
/// [`AllocError`] only where an allocation was refused.
pub fn stories(alloc: Global, history: &History, races: &[Race]) -> Result<Vec<Story>, AllocError>
    ensures { IfOk result (λ stories. stories.items ≡ map (story_of history.now.timeline) races.now) }
{
    let runs = all_runs(alloc, history)?;
    let plans = plan_numbers(alloc, history)?;
    let ends = ends_of(alloc, history, &runs, races)?;
    let mut cones = no_cones(alloc, ends);
    let mut stories = Vec::new(alloc);
    for race in races {
        stories.push(one_story(alloc, history, &runs, &plans, race, &mut cones)?)?;
    }
    Ok(stories)
}
