//! How two commands conflict at an entry.
ghost use Rattle.std.specs.Prelude.{◌≡◌, ◌<◌, ◌&&◌, length, slice_index_or};
ghost use Rattle.std.specs.List.{list_any};
ghost use Rattle.rev_ranks.specs.Graph.{graph_of};
ghost use Rattle.rev_entry_conflicts.specs.Conflicts.{comes_before as before_of, is_determined as determined_of, is_edge as is_edge_of, kind_at as kind_of, kind_back as back_of, kind_of_look as look_kind_of, kind_unordered as unordered_of, kind_where_ensured as ensured_of, kind_where_left as left_of};
ghost use Rattle.rev_entry_conflicts.specs.Deeds.{asks as asks_of, does as does_of, lists_at as lists_of, looks as looks_of, no_entry};
ghost use Rattle.rev_entry_conflicts.specs.Orders.{AreOfEdges, IsOrder, scene};

use crate::conflict::Kind;
use crate::deed::{Command, Entry, does};
use crate::order::{Order, are_apart, comes_before, is_waited_by};
use crate::word::Act;

// An entry by its number.
fn entry_at(entries: &[Entry], entry: u32) -> Entry
    requires { entry < length entries.now }
    ensures { result ≡ slice_index_or entries.now entry no_entry }
{
    entries[entry as usize]
}

// Whether a command lists a folder, and did not change an entry of it before.
fn lists_at(command: &Command, entry: u32, folder: Option<u32>) -> bool
    ensures { result ≡ lists_of command.now entry folder }
{
    match folder {
        Some(folder) => does(command, Act::Lists, folder) && !does(command, Act::Owns, entry),
        None => false,
    }
}

/// Whether a command asks for an entry.
pub(crate) fn asks(
    steps: &[Vec<u32>],
    entries: &[Entry],
    commands: &[Command],
    command: &Command,
    entry: u32,
) -> bool
    requires { entry < length entries.now }
    ensures { result ≡ asks_of (scene steps.now entries.now commands.now) command.now entry }
{
    let _steps = steps.len();
    let _commands = commands.len();
    let folder = entry_at(entries, entry).folder;
    (does(command, Act::Asks, entry) || lists_at(command, entry, folder))
        && !does(command, Act::Began, entry)
}

// Whether it asks for the entry or passes it.
fn looks(
    steps: &[Vec<u32>],
    entries: &[Entry],
    commands: &[Command],
    command: &Command,
    entry: u32,
) -> bool
    requires { entry < length entries.now }
    ensures { result ≡ looks_of (scene steps.now entries.now commands.now) command.now entry }
{
    asks(steps, entries, commands, command, entry) || does(command, Act::Passes, entry)
}

// Whether one for which the user waits did an act at an entry.
fn any_before(
    steps: &[Vec<u32>],
    entries: &[Entry],
    commands: &[Command],
    order: &Order,
    used: &Command,
    act: Act,
    entry: u32,
) -> bool
    requires order { IsOrder (graph_of steps.now) used.now.edge order.now.waited.items order.now.waiting.items }
    requires commands { AreOfEdges steps.now commands.now }
    ensures { result ≡ list_any (λ c. before_of (scene steps.now entries.now commands.now) used.now c
        && does_of act c entry) commands.now }
{
    for command in commands {
        if comes_before(steps, entries, commands, order, used, command)
            && does(command, act, entry)
        {
            return true;
        }
    }
    false
}

// Whether it is determined that the user finds a folder.
fn is_determined(
    steps: &[Vec<u32>],
    entries: &[Entry],
    commands: &[Command],
    order: &Order,
    used: &Command,
    entry: u32,
) -> bool
    requires order { IsOrder (graph_of steps.now) used.now.edge order.now.waited.items order.now.waiting.items }
    requires commands { AreOfEdges steps.now commands.now }
    ensures { result ≡ determined_of (scene steps.now entries.now commands.now) used.now entry }
{
    any_before(steps, entries, commands, order, used, Act::Ensures, entry)
        && !any_before(steps, entries, commands, order, used, Act::Leaves, entry)
}

// How a look meets what the maker leaves.
fn kind_of_look(
    steps: &[Vec<u32>],
    entries: &[Entry],
    commands: &[Command],
    made: &Command,
    used: &Command,
    entry: u32,
) -> Kind
    requires { entry < length entries.now }
    ensures { result ≡ look_kind_of (scene steps.now entries.now commands.now) made.now used.now entry }
{
    if does(made, Act::Removes, entry) {
        Kind::Folder
    } else if does(made, Act::Links, entry)
        || (does(used, Act::SeesLink, entry) || !asks(steps, entries, commands, used, entry))
    {
        Kind::Link
    } else {
        Kind::Race
    }
}

// Where the maker leaves the entry.
fn kind_where_left(
    steps: &[Vec<u32>],
    entries: &[Entry],
    commands: &[Command],
    made: &Command,
    used: &Command,
    entry: u32,
) -> Option<Kind>
    requires { entry < length entries.now }
    ensures { result ≡ left_of (scene steps.now entries.now commands.now) made.now used.now entry }
{
    if does(used, Act::Leaves, entry) {
        if made.edge < used.edge {
            Some(Kind::Clash)
        } else {
            None
        }
    } else if does(used, Act::Ensures, entry) {
        Some(Kind::Folder)
    } else if looks(steps, entries, commands, used, entry) {
        Some(kind_of_look(steps, entries, commands, made, used, entry))
    } else {
        None
    }
}

// Where the maker ensures a folder there.
fn kind_where_ensured(
    steps: &[Vec<u32>],
    entries: &[Entry],
    commands: &[Command],
    order: &Order,
    used: &Command,
    entry: u32,
) -> Option<Kind>
    requires order { IsOrder (graph_of steps.now) used.now.edge order.now.waited.items order.now.waiting.items }
    requires commands { AreOfEdges steps.now commands.now }
    requires entry { entry < length entries.now }
    ensures { result ≡ ensured_of (scene steps.now entries.now commands.now) used.now entry }
{
    if !does(used, Act::Leaves, entry)
        && (asks(steps, entries, commands, used, entry)
            && !is_determined(steps, entries, commands, order, used, entry))
    {
        Some(Kind::Folder)
    } else {
        None
    }
}

// Where neither waits for the other.
fn kind_unordered(
    steps: &[Vec<u32>],
    entries: &[Entry],
    commands: &[Command],
    order: &Order,
    made: &Command,
    used: &Command,
    entry: u32,
) -> Option<Kind>
    requires order { IsOrder (graph_of steps.now) used.now.edge order.now.waited.items order.now.waiting.items }
    requires commands { AreOfEdges steps.now commands.now }
    requires entry { entry < length entries.now }
    ensures { result ≡ unordered_of (scene steps.now entries.now commands.now) made.now used.now entry }
{
    if does(made, Act::Leaves, entry) {
        kind_where_left(steps, entries, commands, made, used, entry)
    } else if does(made, Act::Ensures, entry) {
        kind_where_ensured(steps, entries, commands, order, used, entry)
    } else {
        None
    }
}

// Whether it is this edge.
fn is_edge(maker: Option<u32>, edge: u32) -> bool
    ensures { result ≡ is_edge_of maker edge }
{
    match maker {
        Some(maker) => maker == edge,
        None => false,
    }
}

// Where the maker waits for the user.
fn kind_back(
    steps: &[Vec<u32>],
    entries: &[Entry],
    commands: &[Command],
    made: &Command,
    used: &Command,
    entry: u32,
) -> Option<Kind>
    requires { entry < length entries.now }
    ensures { result ≡ back_of (scene steps.now entries.now commands.now) made.now used.now entry }
{
    let _steps = steps.len();
    let _commands = commands.len();
    if does(made, Act::Leaves, entry)
        && (does(made, Act::Stays, entry) && does(used, Act::Asks, entry))
    {
        if is_edge(entry_at(entries, entry).maker, made.edge) {
            Some(Kind::Cycle)
        } else if does(used, Act::Sees, entry) {
            Some(Kind::Unstable)
        } else {
            None
        }
    } else {
        None
    }
}

/// How a maker and the user conflict at an entry.
pub(crate) fn kind_at(
    steps: &[Vec<u32>],
    entries: &[Entry],
    commands: &[Command],
    order: &Order,
    made: &Command,
    used: &Command,
    entry: u32,
) -> Option<Kind>
    requires order { IsOrder (graph_of steps.now) used.now.edge order.now.waited.items order.now.waiting.items }
    requires commands { AreOfEdges steps.now commands.now }
    requires made { made.now.edge < length steps.now }
    requires entry { entry < length entries.now }
    ensures { result ≡ kind_of (scene steps.now entries.now commands.now) made.now used.now entry }
{
    if are_apart(steps, entries, commands, order, made, used) && !entry_at(entries, entry).hidden {
        if is_waited_by(steps, order, used, made.edge) {
            kind_back(steps, entries, commands, made, used, entry)
        } else {
            kind_unordered(steps, entries, commands, order, made, used, entry)
        }
    } else {
        None
    }
}
