//! How findings of an observation are mended.

use crate::brought::note_brought;
use crate::found::orderable_output;
use crate::listed_names::names_in;
use crate::writers::Writers;
use indexmap::IndexMap;
use rev_conflicts::{Change, Conflict, ConflictKind, Look, Place, does, look_at};
use rev_conflicts_text::{Finding, Kind, Mending, Reverse, build_folder};
use rev_graph::Graph;
use rev_history::History;
use rev_manifest::Build;
use rev_observed::{Command, Kind as Use, Observation};
use rev_paths::Name;
use rev_races::{Happened, listed};
use rev_races_text::Story;
use std::alloc::{AllocError, Global};

// Whether a command takes a file away, and does nothing else to it.
fn takes_away(command: &Command, path: u64) -> bool {
    does(command, Use::Deletes, path)
        && !does(command, Use::Writes, path)
        && !does(command, Use::Temps, path)
}

// What an edge does that leaves a file, or has it as a temporary.
fn change_of(graph: &Graph, path: &Name, edge: u32, command: &Command, number: u64) -> Change {
    if !does(command, Use::Writes, number) {
        return Change::Temporary;
    }
    if graph.producer(path) == Some(edge) {
        return Change::Output;
    }
    if does(command, Use::Edits, number) {
        return Change::Edit;
    }
    Change::Undeclared
}

// An edge with its command: the edge by its number, and the command by its place in the observation.
#[derive(Clone, Copy)]
struct Party<'b> {
    edge: u32,
    place: u64,
    command: &'b Command,
}

// The conflict of one that takes a file away and one that leaves it. Where the first one reads the file, it uses what
// the other one leaves.
fn taken_away(
    graph: &Graph,
    path: &Name,
    number: u64,
    taker: Party<'_>,
    leaver: Party<'_>,
) -> Conflict {
    let place = Place::File(number);
    if does(taker.command, Use::Reads, number) {
        let change = change_of(graph, path, leaver.edge, leaver.command, number);
        return Conflict {
            kind: ConflictKind::Race {
                look: Look::Read,
                change,
            },
            maker: leaver.edge,
            user: taker.edge,
            place,
            made_by: leaver.place,
            used_by: taker.place,
        };
    }
    let look = look_at(leaver.command, place).unwrap_or(Look::Stat);
    Conflict {
        kind: ConflictKind::Race {
            look,
            change: Change::Delete,
        },
        maker: taker.edge,
        user: leaver.edge,
        place,
        made_by: taker.place,
        used_by: leaver.place,
    }
}

// A clash as what it is: a race where one of the two takes the file away and does not leave it.
fn regraded_clash(graph: &Graph, observation: &Observation, clash: Conflict) -> Conflict {
    let Place::File(number) = clash.place else {
        return clash;
    };
    let commands = observation.commands();
    let made = commands.get(clash.made_by as usize);
    let used = commands.get(clash.used_by as usize);
    let (Some(made), Some(used)) = (made, used) else {
        return clash;
    };
    if number >= observation.paths().len() {
        return clash;
    }
    let path = observation.paths().path(number);
    let one = Party {
        edge: clash.maker,
        place: clash.made_by,
        command: made,
    };
    let other = Party {
        edge: clash.user,
        place: clash.used_by,
        command: used,
    };
    match (takes_away(made, number), takes_away(used, number)) {
        (true, false) => taken_away(graph, path, number, one, other),
        (false, true) => taken_away(graph, path, number, other, one),
        _ => clash,
    }
}

/// Conflicts by what they are told as. A clash of a command that takes the file away, and does not leave it, is a race:
/// where that command reads the file, it uses what the other one leaves, and else the other one finds it taken away.
/// They stand in the order of their makers and users.
///
/// # Errors
/// [`AllocError`] only where an allocation was refused.
pub(crate) fn regraded(
    alloc: Global,
    graph: &Graph,
    observation: &Observation,
    conflicts: &[Conflict],
) -> Result<Vec<Conflict>, AllocError> {
    let mut graded = Vec::new(alloc);
    for conflict in conflicts {
        graded.push(match conflict.kind {
            ConflictKind::Clash => regraded_clash(graph, observation, *conflict),
            _ => *conflict,
        })?;
    }
    graded.sort_by_key(|conflict| pair_key(conflict.maker, conflict.user))?;
    Ok(graded)
}

// Two edges as one number.
fn pair_key(one: u32, other: u32) -> u64 {
    u64::from(one) << 32 | u64::from(other)
}

// Two edges as one number, whichever comes first.
fn spot_key(finding: &Finding<'_>) -> u64 {
    pair_key(
        finding.maker.min(finding.user),
        finding.maker.max(finding.user),
    )
}

// Whether an order of the two commands of a finding is what mends it.
fn is_of_order(finding: &Finding<'_>) -> bool {
    matches!(finding.kind, Kind::Race | Kind::Clash)
}

// The command of an edge, by the places of the commands.
fn command_at<'b>(
    observation: &'b Observation,
    places: &IndexMap<u32, usize>,
    edge: u32,
) -> Option<&'b Command> {
    observation.commands().get(*places.get(&edge)?)
}

// The places of the commands in the observation, by their edges.
fn places_by_edge(
    alloc: Global,
    graph: &Graph,
    observation: &Observation,
) -> Result<IndexMap<u32, usize>, AllocError> {
    let mut places = IndexMap::new(alloc);
    for (place, command) in observation.commands().iter().enumerate() {
        if let Some(edge) = graph.producer(command.output()) {
            places.insert(edge, place)?;
        }
    }
    Ok(places)
}

// Whether the user of a finding takes away the folder that the finding is about, or the maker what the user looks at:
// then the manifest does not say which of the two comes first.
fn is_open(
    observation: &Observation,
    places: &IndexMap<u32, usize>,
    finding: &Finding<'_>,
) -> bool {
    if finding.kind == Kind::Clash || finding.change == Change::Delete {
        return true;
    }
    if finding.change != Change::Entry {
        return false;
    }
    let number = observation.paths().find(finding.path);
    match (number, command_at(observation, places, finding.user)) {
        (Some(number), Some(command)) => takes_away(command, number),
        _ => false,
    }
}

// Whether the user came first in this recording, by the ends of two runs where neither ended before the other began.
fn is_user_first(story: Option<Story>) -> bool {
    let Some(story) = story else {
        return false;
    };
    match story.happened {
        Happened::Before => true,
        Happened::AtOnce => match (story.maker, story.user) {
            (Some(maker), Some(user)) => match (maker.ended, user.ended) {
                (Some(maker), Some(user)) => user < maker,
                (None, Some(_)) => true,
                _ => false,
            },
            _ => false,
        },
        Happened::Apart | Happened::HeldRecord | Happened::HeldPlace | Happened::Free => false,
    }
}

// Whether the user of a finding reads what was not there before its maker made it.
fn is_needed(finding: &Finding<'_>) -> bool {
    finding.kind == Kind::Race
        && finding.look == Look::Read
        && matches!(finding.change, Change::Output | Change::Undeclared)
}

// What is known of two commands that meet.
#[derive(Clone, Copy)]
struct Meeting {
    // Whether the lesser edge leaves what the greater one looks at, and the other way round.
    is_forward: bool,
    is_backward: bool,
    // Whether the greater edge reads what only the lesser one makes, so that it cannot come first, and the other way
    // round.
    is_forward_needed: bool,
    is_backward_needed: bool,
    // Whether the manifest does not say which of the two comes first.
    is_open: bool,
    // Whether the lesser edge came first in this recording.
    is_lesser_first: bool,
    // Whether the user is to name its input behind a `|`.
    is_listed: bool,
}

impl Meeting {
    // What is known by a finding.
    fn of(finding: &Finding<'_>, is_open: bool, is_listed: bool) -> Meeting {
        let is_maker_lesser = finding.maker < finding.user;
        // Who read what another one took away came first.
        let is_read = finding.change == Change::Delete && finding.look == Look::Read;
        let is_user_first = is_read || is_user_first(finding.story);
        let is_needed = is_needed(finding);
        Meeting {
            is_forward: is_maker_lesser,
            is_backward: !is_maker_lesser,
            is_forward_needed: is_needed && is_maker_lesser,
            is_backward_needed: is_needed && !is_maker_lesser,
            is_open,
            is_lesser_first: is_maker_lesser != is_user_first,
            is_listed,
        }
    }

    // What is known by two findings.
    fn with(self, other: Meeting) -> Meeting {
        Meeting {
            is_forward: self.is_forward || other.is_forward,
            is_backward: self.is_backward || other.is_backward,
            is_forward_needed: self.is_forward_needed || other.is_forward_needed,
            is_backward_needed: self.is_backward_needed || other.is_backward_needed,
            is_open: self.is_open || other.is_open,
            is_lesser_first: self.is_lesser_first,
            is_listed: self.is_listed || other.is_listed,
        }
    }

    // Whether either order can be right, unless one of the two reads what only the other one makes.
    fn has_two_orders(self) -> bool {
        self.is_open || (self.is_forward && self.is_backward)
    }

    // Whether the lesser edge has to come first, or the greater one, where exactly one of the two reads what only the
    // other one makes.
    fn needed_first(self) -> Option<bool> {
        if self.is_forward_needed == self.is_backward_needed {
            return None;
        }
        Some(self.is_forward_needed)
    }
}

// Whether the command of an edge leaves a list of what it reads.
fn keeps_list(builds: &[Build], edge: u32) -> bool {
    match builds.get(edge as usize) {
        Some(build) => build.keeps_deps() || !build.depfile().is_empty(),
        None => false,
    }
}

// Whether an edge has a list of what it read.
fn has_list(history: &History, edge: u32) -> bool {
    edge < history.graph().edges() && listed(history, edge).is_some()
}

// The names that the lists of users have, each with its user: as they are, and in the folder of the build.
struct Lists<'a> {
    plain: IndexMap<Vec<u8>, &'a Name>,
    within: IndexMap<Vec<u8>, &'a Name>,
}

impl Drop for Lists<'_> {
    fn drop(self) {
        let Lists {
            plain: _plain,
            within: _within,
        } = self;
    }
}

impl<'a> Lists<'a> {
    // The lists of the users of findings.
    fn new(
        alloc: Global,
        history: &'a History,
        findings: &[Finding<'_>],
    ) -> Result<Lists<'a>, AllocError> {
        let folder = build_folder(history.graph());
        let plain = names_in(alloc, history, b"", findings)?;
        let within = if folder.is_empty() {
            IndexMap::new(alloc)
        } else {
            names_in(alloc, history, folder, findings)?
        };
        Ok(Lists { plain, within })
    }

    // Whether the list of a user has a path.
    fn has(&self, alloc: Global, user: u32, path: &Name) -> Result<bool, AllocError> {
        let key = crate::listed_names::key_of(alloc, user, path.as_bytes())?;
        Ok(self.plain.contains_key(key.as_slice()) || self.within.contains_key(key.as_slice()))
    }
}

// Whether a user that waits for the maker of a finding has to name its input behind a `|`: else Ninja does not run it
// again when the file changes, since no list of the user has the file.
fn is_to_be_listed(
    alloc: Global,
    history: &History,
    builds: &[Build],
    lists: &Lists<'_>,
    finding: &Finding<'_>,
) -> Result<bool, AllocError> {
    if finding.kind != Kind::Race || finding.change == Change::Delete {
        return Ok(false);
    }
    match finding.look {
        Look::Read => {
            if has_list(history, finding.user) {
                return Ok(!lists.has(alloc, finding.user, finding.path)?);
            }
            Ok(!keeps_list(builds, finding.user))
        }
        // Who found nothing, or listed a folder, reads what is there once it waits.
        Look::Miss | Look::List => Ok(!keeps_list(builds, finding.user)),
        Look::Stat => Ok(false),
    }
}

// What is known of each two commands of findings that an order mends.
fn meetings_of(
    alloc: Global,
    history: &History,
    builds: &[Build],
    observation: &Observation,
    findings: &[Finding<'_>],
) -> Result<IndexMap<u64, Meeting>, AllocError> {
    let lists = Lists::new(alloc, history, findings)?;
    let places = places_by_edge(alloc, history.graph(), observation)?;
    let mut meetings: IndexMap<u64, Meeting> = IndexMap::new(alloc);
    for finding in findings {
        if is_of_order(finding) {
            // Who takes away what it looks at does not use it.
            let is_open = is_open(observation, &places, finding);
            let is_listed = !is_open && is_to_be_listed(alloc, history, builds, &lists, finding)?;
            let meeting = Meeting::of(finding, is_open, is_listed);
            let key = spot_key(finding);
            let meeting = match meetings.get(&key) {
                Some(known) => Meeting::with(*known, meeting),
                None => meeting,
            };
            meetings.insert(key, meeting)?;
        }
    }
    Ok(meetings)
}

// Whether the maker of a finding can name its path among its outputs: no line names it, and no other command leaves it.
fn is_declarable(graph: &Graph, writers: &Writers, finding: &Finding<'_>) -> bool {
    !graph.known(finding.path) && writers.is_one(finding.path)
}

// Whether the maker of a finding, whose two commands meet so, comes behind the user in this recording, or has to: none
// where the maker alone can come first.
fn is_reversed(finding: &Finding<'_>, meeting: Meeting) -> Option<bool> {
    let is_maker_lesser = finding.maker < finding.user;
    if let Some(is_lesser_first) = meeting.needed_first() {
        return if is_lesser_first == is_maker_lesser {
            None
        } else {
            Some(true)
        };
    }
    if meeting.has_two_orders() {
        return Some(meeting.is_lesser_first != is_maker_lesser);
    }
    None
}

// How a finding is mended whose two commands meet so.
fn mending_of<'a>(builds: &'a [Build], finding: &Finding<'a>, meeting: Meeting) -> Mending<'a> {
    let reverse = match is_reversed(finding, meeting) {
        Some(is_here) => Some(Reverse {
            output: orderable_output(builds, finding.user),
            is_here,
        }),
        None => None,
    };
    Mending {
        is_declared: finding.mending.is_declared,
        is_listed: meeting.is_listed,
        reverse,
        brought_by: None,
    }
}

/// Notes how findings are mended: whether a maker can name the path among its outputs, behind which sign a user names
/// its input, where either order of two commands can be right, and which findings the order of another one mends.
///
/// # Errors
/// [`AllocError`] only where an allocation was refused.
pub(crate) fn note_mends<'a>(
    alloc: Global,
    history: &'a History,
    builds: &'a [Build],
    observation: &Observation,
    findings: &mut Vec<Finding<'a>>,
) -> Result<(), AllocError> {
    if findings.is_empty() {
        return Ok(());
    }
    let writers = Writers::new(alloc, observation, findings)?;
    let meetings = meetings_of(alloc, history, builds, observation, findings)?;
    for finding in findings.iter_mut() {
        finding.mending.is_declared = is_declarable(history.graph(), &writers, finding);
        if is_of_order(finding) {
            if let Some(meeting) = meetings.get(&spot_key(finding)) {
                finding.mending = mending_of(builds, finding, *meeting);
            }
        }
    }
    note_brought(alloc, history.graph(), findings)
}
