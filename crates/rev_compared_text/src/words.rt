//! The comparison in words.
use crate::alike::{FEW, Group, alike_changes, alike_runs};
use crate::changes::{Part, flags_that_differ, inputs_alone, outputs_alone, part_of};
use crate::facts::{Changed, Differing, Facts, Inverted, alone_in, counts};
use crate::flakes::{
    Days, Flake, Maker, Pasts, failed_in_one, failed_in_other, makers_of, story_of,
};
use crate::reads::{beside, listed, there_alone};
use crate::side::{Day, Side, ending_word, event_name};
use rev_manifest::Build;
use rev_races_text::{Shown, Text};
use std::alloc::{AllocError, Global};

// How many groups of alike entries a section has at most. Behind the first few the words have no details.
const GROUPS: usize = 10;
// Of how many commands that failed on one day alone the makers are told, and of how many where the words tell all.
const FLAKES: usize = 3;

const ALL_FLAKES: usize = 20;

// How many entries a section has, and how many paths a line.
fn entries(all: bool) -> usize {
    if all { usize::MAX } else { FEW }
}

// Adds how many entries are left out.
fn push_rest(text: &mut String, indent: &str, count: usize, most: usize) -> Result<(), AllocError> {
    let more = count.saturating_sub(most);
    if more == 0 {
        return Ok(());
    }
    write!(text, "{indent}and {more} more (--all tells them)\n")
}

// Adds how many entries more are like the one that was told.
fn push_alike(text: &mut String, group: Group) -> Result<(), AllocError> {
    let more = group.count.saturating_sub(1);
    if more == 0 {
        return Ok(());
    }
    write!(text, "    and {more} more like it (--all tells them)\n")
}

// How many entries are in the groups that are told.
fn told_in(groups: &[Group]) -> usize {
    let mut told: usize = 0;
    for group in groups.iter().take(GROUPS) {
        told = told.saturating_add(group.count);
    }
    told
}

// Adds what one recording has.
fn push_day<'a>(text: &mut String, day: Day<'a>) -> Result<(), AllocError> {
    let letter = day.letter;
    let name = Text(day.side.name);
    let edges = day.side.edges();
    let noun = if edges == 1 { "edge" } else { "edges" };
    let (ran, failed) = counts(day.lasts);
    write!(
        text,
        "{letter}: {name}, {edges} {noun}, {ran} ran, {failed} failed\n"
    )
}

// Adds edges of one recording, each with its place.
fn push_edges<'a>(
    text: &mut String,
    day: Day<'a>,
    edges: &[u32],
    all: bool,
) -> Result<(), AllocError> {
    let count = edges.len();
    if count == 0 {
        return Ok(());
    }
    let letter = day.letter;
    write!(text, "edges of {letter} alone: {count}\n")?;
    let most = entries(all);
    for edge in edges.iter().take(most) {
        let placed = day.side.edge(*edge);
        write!(text, "  {placed}\n")?;
    }
    push_rest(text, "  ", count, most)
}

// Adds those edges that ran in one recording alone and ended well, or the others, at most so many, and gives how many it
// adds.
fn push_ran_edges<'a>(
    text: &mut String,
    day: Day<'a>,
    edges: &[u32],
    ended_well: bool,
    most: usize,
) -> Result<usize, AllocError> {
    let mut told: usize = 0;
    for edge in edges {
        if told < most && day.ended_well(*edge) == ended_well {
            told = told.saturating_add(1);
            push_ran_edge(text, day, *edge, ended_well)?;
        }
    }
    Ok(told)
}

// Adds an edge that ran in one recording alone, and how it ended, unless it ended well.
fn push_ran_edge<'a>(
    text: &mut String,
    day: Day<'a>,
    edge: u32,
    ended_well: bool,
) -> Result<(), AllocError> {
    let placed = day.side.edge(edge);
    let (between, status) = if ended_well {
        ("", "")
    } else {
        (": ", day.status(edge).unwrap_or(""))
    };
    write!(text, "  {placed}{between}{status}\n")
}

// Adds the edges that ran in one recording alone: first those that did not end well.
fn push_ran<'a>(
    text: &mut String,
    day: Day<'a>,
    edges: &[u32],
    all: bool,
) -> Result<(), AllocError> {
    let count = edges.len();
    if count == 0 {
        return Ok(());
    }
    let letter = day.letter;
    write!(text, "ran in {letter} alone: {count}\n")?;
    let most = entries(all);
    let told = push_ran_edges(text, day, edges, false, most)?;
    push_ran_edges(text, day, edges, true, most.saturating_sub(told))?;
    push_rest(text, "  ", count, most)
}

// Adds paths that stand on one side alone, and says whether there are any.
fn push_paths(
    text: &mut String,
    heading: &str,
    letter: &str,
    paths: &[Shown<'_>],
    all: bool,
) -> Result<bool, AllocError> {
    let count = paths.len();
    if count == 0 {
        return Ok(false);
    }
    let most = entries(all);
    write!(text, "    {heading} in {letter} alone:")?;
    for path in paths.iter().take(most) {
        write!(text, " {path}")?;
    }
    let more = count.saturating_sub(most);
    if more != 0 {
        write!(text, " and {more} more")?;
    }
    text.push_str("\n")?;
    Ok(true)
}

// Adds a part of a command.
fn push_part(text: &mut String, letter: &str, part: Part<'_>) -> Result<(), AllocError> {
    let before = if part.has_before { ".. " } else { "" };
    let behind = if part.has_behind { " .." } else { "" };
    let command = Text(part.text);
    write!(text, "    {letter}: {before}{command}{behind}\n")
}

// Adds which inputs two statements do not share.
fn push_inputs(
    alloc: Global,
    text: &mut String,
    build: &Build,
    other: &Build,
    all: bool,
) -> Result<(), AllocError> {
    let here = inputs_alone(alloc, build, other)?;
    let has_here = push_paths(text, "inputs", "A", &here, all)?;
    let there = inputs_alone(alloc, other, build)?;
    let has_there = push_paths(text, "inputs", "B", &there, all)?;
    if !has_here && !has_there {
        text.push_str("    the same inputs, of other kinds or in another order\n")?;
    }
    Ok(())
}

// Adds which outputs two statements do not share.
fn push_outputs(
    alloc: Global,
    text: &mut String,
    build: &Build,
    other: &Build,
    all: bool,
) -> Result<(), AllocError> {
    let here = outputs_alone(alloc, build, other)?;
    let has_here = push_paths(text, "outputs", "A", &here, all)?;
    let there = outputs_alone(alloc, other, build)?;
    let has_there = push_paths(text, "outputs", "B", &there, all)?;
    if !has_here && !has_there {
        text.push_str("    the same outputs, of other kinds or in another order\n")?;
    }
    Ok(())
}

// Adds the names of flags.
fn push_flags(text: &mut String, flags: &[Shown<'_>]) -> Result<(), AllocError> {
    if flags.is_empty() {
        return Ok(());
    }
    text.push_str("    flags:")?;
    for flag in flags {
        write!(text, " {flag}")?;
    }
    text.push_str("\n")
}

// Adds an edge with its place.
fn push_placed<'a>(text: &mut String, side: Side<'a>, edge: u32) -> Result<(), AllocError> {
    let placed = side.edge(edge);
    write!(text, "  {placed}\n")
}

// Adds an edge whose statements differ.
fn push_change<'a>(
    alloc: Global,
    text: &mut String,
    one: Side<'a>,
    other: Side<'a>,
    changed: &Changed,
    all: bool,
) -> Result<(), AllocError> {
    push_placed(text, one, changed.edge)?;
    let (Some(build), Some(twin)) = (one.build(changed.edge), other.build(changed.twin)) else {
        return Ok(());
    };
    let changes = changed.changes;
    if changes.outputs {
        push_outputs(alloc, text, build, twin, all)?;
    }
    if changes.inputs {
        push_inputs(alloc, text, build, twin, all)?;
    }
    if changes.command {
        push_part(text, "A", part_of(build.command(), twin.command(), all))?;
        push_part(text, "B", part_of(twin.command(), build.command(), all))?;
    }
    let flags = flags_that_differ(alloc, one, build, other, twin)?;
    push_flags(text, &flags)
}

// Adds an edge of each group whose statements differ alike, and how many are like it.
fn push_alike_changes<'a>(
    alloc: Global,
    text: &mut String,
    one: Side<'a>,
    other: Side<'a>,
    changed: &[Changed],
) -> Result<(), AllocError> {
    let groups = alike_changes(alloc, one, other, changed)?;
    for (place, group) in groups.iter().take(GROUPS).enumerate() {
        if let Some(change) = changed.get(group.first) {
            if place < FEW {
                push_change(alloc, text, one, other, change, false)?;
            } else {
                push_placed(text, one, change.edge)?;
            }
            push_alike(text, *group)?;
        }
    }
    push_rest(text, "  ", changed.len(), told_in(&groups))
}

// Adds the edges whose statements differ.
fn push_changed<'a>(
    alloc: Global,
    text: &mut String,
    one: Side<'a>,
    other: Side<'a>,
    changed: &[Changed],
    all: bool,
) -> Result<(), AllocError> {
    let count = changed.len();
    if count == 0 {
        return Ok(());
    }
    write!(text, "statements that differ: {count}\n")?;
    if !all && count > FEW {
        return push_alike_changes(alloc, text, one, other, changed);
    }
    for change in changed {
        push_change(alloc, text, one, other, change, all)?;
    }
    Ok(())
}

// Adds which outputs are there on one side alone.
fn push_presence<'a>(
    alloc: Global,
    text: &mut String,
    one: Side<'a>,
    other: Side<'a>,
    d: &Differing,
    all: bool,
) -> Result<(), AllocError> {
    let heading = "outputs that are there afterwards";
    let here = there_alone(alloc, one, d.edge, &d.last, other, &d.other)?;
    push_paths(text, heading, "A", &here, all)?;
    let there = there_alone(alloc, other, d.twin, &d.other, one, &d.last)?;
    push_paths(text, heading, "B", &there, all)?;
    Ok(())
}

// Adds which paths are listed as read on one side alone.
fn push_reads<'a>(
    alloc: Global,
    text: &mut String,
    one: Side<'a>,
    other: Side<'a>,
    d: &Differing,
    all: bool,
) -> Result<(), AllocError> {
    let here = listed(alloc, one, d.edge, &d.last)?;
    let there = listed(alloc, other, d.twin, &d.other)?;
    let alone = beside(alloc, here.as_slice(), there.as_slice())?;
    let has_here = push_paths(text, "listed as read", "A", &alone, all)?;
    let other_alone = beside(alloc, there.as_slice(), here.as_slice())?;
    let has_there = push_paths(text, "listed as read", "B", &other_alone, all)?;
    if !has_here && !has_there {
        text.push_str("    the same is listed as read, in another order or form\n")?;
    }
    Ok(())
}

// Adds an edge, and how it ended on both sides.
fn push_endings<'a>(text: &mut String, one: Side<'a>, d: &Differing) -> Result<(), AllocError> {
    let placed = one.edge(d.edge);
    let ending = ending_word(d.last.ending);
    let other_ending = ending_word(d.other.ending);
    write!(text, "  {placed}: {ending} in A, {other_ending} in B\n")
}

// Adds an edge whose runs differ.
fn push_difference<'a>(
    alloc: Global,
    text: &mut String,
    one: Side<'a>,
    other: Side<'a>,
    d: &Differing,
    all: bool,
) -> Result<(), AllocError> {
    push_endings(text, one, d)?;
    if d.differences.presence {
        push_presence(alloc, text, one, other, d, all)?;
    }
    if d.differences.reads {
        push_reads(alloc, text, one, other, d, all)?;
    }
    Ok(())
}

// Adds an edge of each group whose runs differ alike, and how many are like it.
fn push_alike_runs<'a>(
    alloc: Global,
    text: &mut String,
    one: Side<'a>,
    other: Side<'a>,
    differing: &[Differing],
) -> Result<(), AllocError> {
    let groups = alike_runs(alloc, one, other, differing)?;
    for (place, group) in groups.iter().take(GROUPS).enumerate() {
        if let Some(difference) = differing.get(group.first) {
            if place < FEW {
                push_difference(alloc, text, one, other, difference, false)?;
            } else {
                push_endings(text, one, difference)?;
            }
            push_alike(text, *group)?;
        }
    }
    push_rest(text, "  ", differing.len(), told_in(&groups))
}

// Adds the edges whose runs differ.
fn push_differing<'a>(
    alloc: Global,
    text: &mut String,
    one: Side<'a>,
    other: Side<'a>,
    differing: &[Differing],
    all: bool,
) -> Result<(), AllocError> {
    let count = differing.len();
    if count == 0 {
        return Ok(());
    }
    write!(text, "runs that differ: {count}\n")?;
    if !all && count > FEW {
        return push_alike_runs(alloc, text, one, other, differing);
    }
    for difference in differing {
        push_difference(alloc, text, one, other, difference, all)?;
    }
    Ok(())
}

// Adds a maker that had finished on the good day alone, and what became of it on the bad day.
fn push_maker<'a>(text: &mut String, days: Days<'a>, maker: &Maker) -> Result<(), AllocError> {
    let placed = days.good.side.edge(maker.edge);
    let story = story_of(days.bad, maker);
    let (bad, good) = (days.bad.letter, days.good.letter);
    write!(text, "    {placed}: {story} in {bad}")?;
    if maker.is_earlier {
        write!(text, "; had been made before {good}")?;
    }
    if maker.is_listed {
        write!(text, "; listed as read in {good}")?;
    }
    text.push_str("\n")
}

// Adds those makers that are listed as read, or the others, at most so many, and gives how many it adds.
fn push_makers<'a>(
    text: &mut String,
    days: Days<'a>,
    makers: &[Maker],
    are_listed: bool,
    most: usize,
) -> Result<usize, AllocError> {
    let mut told: usize = 0;
    for maker in makers {
        if maker.is_listed == are_listed && told < most {
            told = told.saturating_add(1);
            push_maker(text, days, maker)?;
        }
    }
    Ok(told)
}

// Adds the makers that had finished before a command on the good day alone: first those that are listed as read.
fn push_flake<'a>(
    alloc: Global,
    text: &mut String,
    days: Days<'a>,
    pasts: &Pasts,
    flake: &Flake,
    all: bool,
) -> Result<(), AllocError> {
    let placed = days.bad.side.edge(flake.bad_edge);
    let (bad, good) = (days.bad.letter, days.good.letter);
    let makers = makers_of(alloc, days, pasts, flake)?;
    let count = makers.len();
    if count == 0 {
        return write!(
            text,
            "  {placed}: nothing had finished before it in {good} alone\n"
        );
    }
    write!(
        text,
        "  {placed}: {count} had finished before it in {good} and not in {bad}\n"
    )?;
    let most = entries(all);
    let told = push_makers(text, days, &makers, true, most)?;
    push_makers(text, days, &makers, false, most.saturating_sub(told))?;
    push_rest(text, "    ", count, most)
}

// Adds the commands that failed on the bad day and passed on the good day.
fn push_flakes<'a>(
    alloc: Global,
    text: &mut String,
    days: Days<'a>,
    flakes: &[Flake],
    all: bool,
) -> Result<(), AllocError> {
    let count = flakes.len();
    if count == 0 {
        return Ok(());
    }
    let (bad, good) = (days.bad.letter, days.good.letter);
    write!(text, "failed in {bad} and passed in {good}: {count}\n")?;
    let pasts = Pasts::new(alloc, days)?;
    let most = if all { ALL_FLAKES } else { FLAKES };
    for flake in flakes.iter().take(most) {
        push_flake(alloc, text, days, &pasts, flake, all)?;
    }
    let more = count.saturating_sub(most);
    if more != 0 {
        write!(
            text,
            "  and {more} more, which are among the runs that differ\n"
        )?;
    }
    Ok(())
}

// Adds two events of a recording in their order.
fn push_order<'a>(
    text: &mut String,
    letter: &str,
    side: Side<'a>,
    first: u32,
    second: u32,
) -> Result<(), AllocError> {
    let (word, output) = event_name(side, first);
    let (later, later_output) = event_name(side, second);
    write!(text, "  {letter}: {word} {output} ({first})")?;
    write!(text, " before {later} {later_output} ({second})\n")
}

// Adds the pair of dependent events of one recording that stand the other way round in the other.
fn push_inverted<'a>(
    text: &mut String,
    here: Day<'a>,
    there: Day<'a>,
    inverted: Option<Inverted>,
) -> Result<(), AllocError> {
    let Some(inverted) = inverted else {
        return Ok(());
    };
    let (letter, other_letter) = (here.letter, there.letter);
    write!(
        text,
        "dependent in {letter}, and the other way round in {other_letter}\n"
    )?;
    push_order(text, letter, here.side, inverted.first, inverted.second)?;
    let (first, second) = (inverted.other_first, inverted.other_second);
    push_order(text, other_letter, there.side, second, first)
}

// Adds the edges that stand or ran in one recording alone.
fn push_alone<'a>(
    alloc: Global,
    text: &mut String,
    a: Day<'a>,
    b: Day<'a>,
    facts: &Facts,
    all: bool,
) -> Result<(), AllocError> {
    let only = alone_in(alloc, a.twins)?;
    push_edges(text, a, &only, all)?;
    let other_only = alone_in(alloc, b.twins)?;
    push_edges(text, b, &other_only, all)?;
    push_ran(text, a, &facts.ran, all)?;
    push_ran(text, b, &facts.other_ran, all)
}

/// The comparison of two recordings in words: a few entries of each section, or all.
pub(crate) fn comparison_words<'a>(
    alloc: Global,
    a: Day<'a>,
    b: Day<'a>,
    facts: &Facts,
    all: bool,
) -> Result<String, AllocError> {
    let (one, other) = (a.side, b.side);
    let mut text = String::new(alloc);
    push_day(&mut text, a)?;
    push_day(&mut text, b)?;
    let flakes = failed_in_one(alloc, &facts.differing)?;
    push_flakes(alloc, &mut text, Days { bad: a, good: b }, &flakes, all)?;
    let flakes = failed_in_other(alloc, &facts.differing)?;
    push_flakes(alloc, &mut text, Days { bad: b, good: a }, &flakes, all)?;
    push_inverted(&mut text, a, b, facts.inverted)?;
    push_inverted(&mut text, b, a, facts.other_inverted)?;
    push_differing(alloc, &mut text, one, other, &facts.differing, all)?;
    push_changed(alloc, &mut text, one, other, &facts.changed, all)?;
    push_alone(alloc, &mut text, a, b, facts, all)?;
    if facts.are_none() {
        text.push_str("nothing differs\n")?;
    }
    Ok(text)
}
