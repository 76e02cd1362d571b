//! The conflicts of two commands.
ghost use Rattle.std.specs.Prelude.{◌≡◌, ℕ, ◌+◌, ◌<◌, ◌^◌, List, [], ◌∷◌, ◌++◌, length, Some, All, OnOk};
ghost use Rattle.std.specs.List.{cons_option, filter};
ghost use Rattle.rev_ranks.specs.Graph.{graph_of};
ghost use Rattle.rev_entry_conflicts.specs.declared.conflict.Conflict.{Conflict};
ghost use Rattle.rev_entry_conflicts.specs.Conflicts.{is_kind as is_kind_of, kind_at as kind_of, kind_number, of_pair, places, told};
ghost use Rattle.rev_entry_conflicts.specs.Orders.{AreEnough, AreOfEdges, IsOrder, scene};

use crate::conflict::{Conflict, Kind};
use crate::deed::{Command, Entry};
use crate::kinds::kind_at;
use crate::order::Order;
use std::alloc::AllocError;

// The number of a kind in the order of kinds.
fn number(kind: Kind) -> u32
    ensures { result ≡ kind_number kind }
{
    match kind {
        Kind::Clash => 0,
        Kind::Race => 1,
        Kind::Folder => 2,
        Kind::Link => 3,
        Kind::Cycle => 4,
        Kind::Unstable => 5,
    }
}

// Whether a kind was found, and is this one.
fn is_kind(kind: Kind, found: Option<Kind>) -> bool
    ensures { result ≡ is_kind_of kind found }
{
    match found {
        Some(found) => number(found) == number(kind),
        None => false,
    }
}

// The answer with one more entry.
fn with_place(
    answer: Option<Conflict>,
    made_by: u32,
    used_by: u32,
    kind: Kind,
    entry: u32,
) -> Option<Conflict>
    requires room { (c : Conflict) → answer ≡ Some c → c.others + 1 < 2 ^ 32 }
    ensures told { (xs : List ℕ) → answer ≡ told made_by used_by kind xs
        → result ≡ told made_by used_by kind (xs ++ entry ∷ []) }
    ensures bound { (most : ℕ) → ((c : Conflict) → answer ≡ Some c → c.others < most)
        → (c : Conflict) → result ≡ Some c → c.others < most + 1 }
{
    match answer {
        Some(found) => Some(Conflict {
            kind: found.kind,
            made_by: found.made_by,
            used_by: found.used_by,
            entry: found.entry,
            others: found.others + 1,
        }),
        None => Some(Conflict {
            kind,
            made_by,
            used_by,
            entry,
            others: 0,
        }),
    }
}

// What is told of two commands and a kind, by the entries of a list.
fn told_at(
    steps: &[Vec<u32>],
    entries: &[Entry],
    commands: &[Command],
    order: &Order,
    made: &Command,
    used: &Command,
    made_by: u32,
    used_by: u32,
    numbers: &[u32],
    kind: Kind,
) -> Option<Conflict>
    requires order { IsOrder (graph_of steps.now) used.now.edge order.now.waited.items order.now.waiting.items }
    requires commands { AreOfEdges steps.now commands.now }
    requires made { made.now.edge < length steps.now }
    requires numbers { All (λ n. n < length entries.now) numbers.now }
    requires small { length numbers.now < 2 ^ 32 }
    ensures { result ≡ told made_by used_by kind (filter (λ n. is_kind_of kind
        (kind_of (scene steps.now entries.now commands.now) made.now used.now n)) numbers.now) }
{
    let mut answer = None;
    for entry in numbers {
        let found = kind_at(steps, entries, commands, order, made, used, *entry);
        let here = is_kind(kind, found);
        if here {
            answer = with_place(answer, made_by, used_by, kind, *entry);
        }
    }
    answer
}

// Adds what is told of two commands and a kind.
fn add_kind(
    steps: &[Vec<u32>],
    entries: &[Entry],
    commands: &[Command],
    order: &Order,
    made: &Command,
    used: &Command,
    made_by: u32,
    used_by: u32,
    numbers: &[u32],
    kind: Kind,
    found: &mut Vec<Conflict>,
) -> Result<(), AllocError>
    requires order { IsOrder (graph_of steps.now) used.now.edge order.now.waited.items order.now.waiting.items }
    requires commands { AreOfEdges steps.now commands.now }
    requires made { made.now.edge < length steps.now }
    requires numbers { All (λ n. n < length entries.now) numbers.now }
    requires small { length numbers.now < 2 ^ 32 }
    ensures { OnOk result (found.new.items ≡ found.old.items ++ cons_option (told made_by used_by kind
        (filter (λ n. is_kind_of kind (kind_of (scene steps.now entries.now commands.now) made.now used.now n))
        numbers.now)) []) }
{
    let told = told_at(
        steps, entries, commands, order, made, used, made_by, used_by, numbers, kind,
    );
    if let Some(conflict) = told {
        found.push(conflict)?;
    }
    Ok(())
}

/// Adds the conflicts of two commands. `numbers` has each entry at which they can conflict.
///
/// # Errors
/// [`AllocError`] only where an allocation was refused.
pub(crate) fn add_pair(
    steps: &[Vec<u32>],
    entries: &[Entry],
    commands: &[Command],
    order: &Order,
    made: &Command,
    used: &Command,
    made_by: u32,
    used_by: u32,
    numbers: &[u32],
    found: &mut Vec<Conflict>,
) -> Result<(), AllocError>
    requires order { IsOrder (graph_of steps.now) used.now.edge order.now.waited.items order.now.waiting.items }
    requires commands { AreOfEdges steps.now commands.now }
    requires made { made.now.edge < length steps.now }
    requires numbers { All (λ n. n < length entries.now) numbers.now }
    requires small { length numbers.now < 2 ^ 32 }
    requires places { AreEnough (scene steps.now entries.now commands.now) made.now used.now numbers.now }
    ensures { OnOk result (found.new.items ≡ found.old.items
        ++ of_pair (scene steps.now entries.now commands.now) made.now used.now made_by used_by) }
{
    add_kind(
        steps,
        entries,
        commands,
        order,
        made,
        used,
        made_by,
        used_by,
        numbers,
        Kind::Clash,
        found,
    )?;
    add_kind(
        steps,
        entries,
        commands,
        order,
        made,
        used,
        made_by,
        used_by,
        numbers,
        Kind::Race,
        found,
    )?;
    add_kind(
        steps,
        entries,
        commands,
        order,
        made,
        used,
        made_by,
        used_by,
        numbers,
        Kind::Folder,
        found,
    )?;
    add_kind(
        steps,
        entries,
        commands,
        order,
        made,
        used,
        made_by,
        used_by,
        numbers,
        Kind::Link,
        found,
    )?;
    add_kind(
        steps,
        entries,
        commands,
        order,
        made,
        used,
        made_by,
        used_by,
        numbers,
        Kind::Cycle,
        found,
    )?;
    add_kind(
        steps,
        entries,
        commands,
        order,
        made,
        used,
        made_by,
        used_by,
        numbers,
        Kind::Unstable,
        found,
    )?;
    Ok(())
}
