//! What differs between two runs of one command.
ghost use Rattle.std.specs.Prelude.{◌≡◌, not};
ghost use Rattle.std.specs.Cmp.Lexicographic.{pointwise};
ghost use Rattle.std.specs.Option.{option_copied};
ghost use Rattle.rev_compared.specs.Differences.{differences_of, both_or_neither, same_ending as same_ending_of, same_listing as same_listing_of, same_reads as same_reads_of, end_of as end_of_run, stamps_of as stamps_of_event};

use crate::lasts::{Ending, Last};
use rev_events::{Event, Listing};
use rev_history::History;

/// What differs between the last run of an edge and that of its twin.
#[derive(Clone, Copy, Debug, PartialEq, Eq)]
pub struct Differences {
    /// Whether the commands ended otherwise: well, failed, stopped or not at all.
    pub status: bool,
    /// Whether an output is there after one and not after the other, output by output in the order of the statement.
    pub presence: bool,
    /// Whether the lists of what the commands read differ, where both ended well.
    pub reads: bool,
}

fn same_ending(one: Ending, other: Ending) -> bool
    ensures { result ≡ same_ending_of one other }
{
    match (one, other) {
        (Ending::Well, Ending::Well) => true,
        (Ending::Failed, Ending::Failed) => true,
        (Ending::Stopped, Ending::Stopped) => true,
        (Ending::Running, Ending::Running) => true,
        _ => false,
    }
}

/// The stamps that the event which ended a command gave its outputs, in the order of the statement; none of any other
/// event.
pub fn stamps_of(event: Option<&Event>) -> &[u64]
    ensures { result.now ≡ stamps_of_event (option_copied event.entry) }
{
    match event {
        Some(Event::Finish { stamps, .. }) => stamps.as_slice(),
        Some(Event::Fail { stamps, .. }) => stamps.as_slice(),
        Some(Event::Abort { stamps, .. }) => stamps.as_slice(),
        _ => &[],
    }
}

/// The event that ended a run, by its number; `None` where the run has not ended.
pub fn end_of(history: &History, ended: Option<u32>) -> Option<&Event>
    ensures { option_copied result ≡ end_of_run history.now.timeline ended }
{
    match ended {
        Some(number) => history.event(number),
        None => None,
    }
}

// Whether the same outputs are there, by their stamps: 0 is that of a file that is not there.
fn same_presence(stamps: &[u64], others: &[u64]) -> bool
    ensures { result ≡ pointwise both_or_neither stamps.now others.now }
{
    if stamps.len() != others.len() {
        return false;
    }
    for (place, stamp) in stamps.iter().enumerate() {
        if (*stamp == 0) != (others[place] == 0) {
            return false;
        }
    }
    true
}

fn same_listing(listing: &Listing, other: &Listing) -> bool
    ensures { result ≡ same_listing_of listing.now other.now }
{
    match (listing, other) {
        (Listing::Nothing, Listing::Nothing) => true,
        (Listing::Depfile(text), Listing::Depfile(other)) => text.as_slice() == other.as_slice(),
        (Listing::Paths(paths), Listing::Paths(other)) => paths.as_slice() == other.as_slice(),
        _ => false,
    }
}

// Whether the same is said of what commands read, where both ended well.
fn same_reads(event: Option<&Event>, other: Option<&Event>) -> bool
    ensures { result ≡ same_reads_of (option_copied event.entry) (option_copied other.entry) }
{
    match (event, other) {
        (Some(Event::Finish { listing, .. }), Some(Event::Finish { listing: other, .. })) =>
            same_listing(listing, other),
        _ => true,
    }
}

/// What differs between a run of a history and a run of another one.
pub fn compare_runs(
    history: &History,
    last: &Last,
    other: &History,
    other_last: &Last,
) -> Differences
    ensures { result ≡ differences_of history.now.timeline last.now other.now.timeline other_last.now }
{
    let event = end_of(history, last.ended);
    let other_event = end_of(other, other_last.ended);
    Differences {
        status: !same_ending(last.ending, other_last.ending),
        presence: !same_presence(stamps_of(event), stamps_of(other_event)),
        reads: !same_reads(event, other_event),
    }
}
