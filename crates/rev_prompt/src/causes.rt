//! What an event rests on, and what rests on it.
ghost use Rattle.std.specs.Prelude.{◌≡◌, IfOk};
ghost use Rattle.std.specs.Option.{option_copied};
ghost use Rattle.rev_prompt.specs.Answers.{IsDependents, IsNeeds, items_in, looks_of as looks_at, needs_links};
ghost use Rattle.rev_prompt.specs.declared.question.Reach.TheVariants as reach;

use crate::answers::{Answer, Needs};
use crate::question::Reach;
use rev_held::{Link, links_of, links_on, links_to, needed, ways_to};
use rev_history::History;
use rev_looked::Need;
use rev_observed::Observation;
use std::alloc::{AllocError, Global};

// The links to the earlier kept events that one rests on itself, from the latest.
fn own_links(alloc: Global, history: &History, number: u32) -> Result<Vec<Link>, AllocError>
    ensures { IfOk result (λ links. links.items ≡ needs_links history.now.timeline number reach.Itself) }
{
    let mut numbers = needed(alloc, history, number)?;
    numbers.reverse();
    links_to(alloc, history, &numbers, number)
}

// The same, also by way of others.
fn all_links(alloc: Global, history: &History, number: u32) -> Result<Vec<Link>, AllocError>
    ensures { IfOk result (λ links. links.items ≡ needs_links history.now.timeline number reach.All) }
{
    let pairs = ways_to(alloc, history, number)?;
    links_of(alloc, history, &pairs)
}

// The links to the earlier kept events that one rests on, as far as it is asked.
fn links(
    alloc: Global,
    history: &History,
    number: u32,
    reach: Reach,
) -> Result<Vec<Link>, AllocError>
    ensures { IfOk result (λ links. links.items ≡ needs_links history.now.timeline number reach) }
{
    match reach {
        Reach::Itself => own_links(alloc, history, number),
        Reach::All => all_links(alloc, history, number),
        Reach::Observed => Ok(Vec::new(alloc)),
    }
}

// What an event rests on by what its command was seen to look at; none where nothing was observed.
fn looks(
    alloc: Global,
    history: &History,
    observation: Option<&Observation>,
    edges: &[u32],
    number: u32,
) -> Result<Option<Vec<Need>>, AllocError>
    ensures { IfOk result (λ looks. items_in looks
        ≡ looks_at history.now.timeline (option_copied observation.entry) edges.now number) }
{
    match observation {
        Some(observation) => Ok(Some(rev_looked::needs(
            alloc,
            history,
            observation,
            edges,
            number,
        )?)),
        None => Ok(None),
    }
}

/// `needs EVENT`: the earlier kept events that it rests on, from the latest. Where all are asked for, those are among
/// them on which it rests by way of others. What its command was seen to look at and its build line does not declare
/// stands beside them.
pub(crate) fn needs(
    alloc: Global,
    history: &History,
    observation: Option<&Observation>,
    edges: &[u32],
    number: u32,
    reach: Reach,
) -> Result<Answer, AllocError>
    ensures { IfOk result (λ answer. IsNeeds history.now.timeline (option_copied observation.entry) edges.now number
        reach answer) }
{
    let links = links(alloc, history, number, reach)?;
    let looks = looks(alloc, history, observation, edges, number)?;
    Ok(Answer::Needs(Needs {
        number,
        reach,
        links,
        looks,
    }))
}

/// `dependents EVENT`: the later kept events that rest on it.
pub(crate) fn dependents(
    alloc: Global,
    history: &History,
    number: u32,
) -> Result<Answer, AllocError>
    ensures { IfOk result (λ answer. IsDependents history.now.timeline number answer) }
{
    let numbers = rev_held::dependents(alloc, history, number)?;
    let links = links_on(alloc, history, number, &numbers)?;
    Ok(Answer::Dependents(number, links))
}
