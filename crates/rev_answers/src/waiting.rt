//! What a command waited for when all commands that it waits for had ended.
use crate::told::{Context, history_of};
use rev_graph::Graph;
use rev_prompt::{Chain, Timed};
use rev_runs::{Run, runs};
use std::alloc::{AllocError, Global};

/// What a command waited for beside the ends of those that it waits for.
#[derive(Clone, Copy, PartialEq, Eq)]
pub(crate) enum Held {
    /// A job. So many commands ran until one of them ended and the command began. More never ran at once.
    ByJobs(u64),
    /// A slot of its pool.
    ByPool,
}

/// The kept runs of a recording.
#[derive(Drop)]
pub(crate) struct Crowd {
    runs: Vec<Run>,
    // How many of them ran at once at most.
    most: u64,
}

// Whether a command ran right before the event of a number.
fn ran_before(run: &Run, number: u32) -> bool {
    run.began < number
        && match run.ended {
            Some(ended) => number <= ended,
            None => true,
        }
}

// What the event of a number is to commands.
#[derive(Clone, Copy, PartialEq, Eq)]
enum Turn {
    Begins,
    Ends,
    Neither,
}

// Notes what the event of a number is.
fn note(turns: &mut [Turn], number: u32, turn: Turn) {
    if let Some(place) = turns.get_mut(number as usize) {
        *place = turn;
    }
}

// What the event of each number is to commands that ran, up to the last number.
fn turns_of(alloc: Global, runs: &[Run], last: u32) -> Result<Vec<Turn>, AllocError> {
    let count = usize::saturating_add(last as usize, 1);
    let mut turns = vec![in alloc; Turn::Neither; count]?;
    for run in runs {
        note(&mut turns, run.began, Turn::Begins);
        if let Some(ended) = run.ended {
            note(&mut turns, ended, Turn::Ends);
        }
    }
    Ok(turns)
}

// How many commands ran at once at most.
fn most_at_once(turns: &[Turn]) -> u64 {
    let mut running = 0u64;
    let mut most = 0u64;
    for turn in turns {
        running = match *turn {
            Turn::Begins => running.saturating_add(1),
            Turn::Ends => running.saturating_sub(1),
            Turn::Neither => running,
        };
        most = most.max(running);
    }
    most
}

// The pool of an edge and its depth, where it has one that limits.
fn pool_of(graph: &Graph, edge: u32) -> Option<(u32, u32)> {
    if edge < graph.edges() {
        return graph.pool(edge);
    }
    None
}

impl Crowd {
    /// The kept runs of the history of an answer.
    ///
    /// # Errors
    /// [`AllocError`] only where an allocation was refused.
    pub(crate) fn new(alloc: Global, told: Context<'_>) -> Result<Crowd, AllocError> {
        let history = history_of(told);
        let mut kept = Vec::new(alloc);
        for run in &runs(alloc, history)? {
            if run.kept {
                kept.push(*run)?;
            }
        }
        let turns = turns_of(alloc, &kept, history.last())?;
        let most = most_at_once(&turns);
        Ok(Crowd { runs: kept, most })
    }

    // The last end of a command before the event of a number.
    fn last_end(&self, number: u32) -> Option<u32> {
        let mut last: Option<u32> = None;
        for run in &self.runs {
            if let Some(ended) = run.ended {
                if ended < number && last.is_none_or(|last| last < ended) {
                    last = Some(ended);
                }
            }
        }
        last
    }

    // How many commands ran right before the event of a number.
    fn running(&self, number: u32) -> u64 {
        self.runs
            .iter()
            .filter(|run| ran_before(run, number))
            .count() as u64
    }

    // How many of these are in a pool.
    fn running_in(&self, graph: &Graph, pool: (u32, u32), number: u32) -> u64 {
        self.runs
            .iter()
            .filter(|run| ran_before(run, number) && pool_of(graph, run.edge) == Some(pool))
            .count() as u64
    }

    // What a command waited for, where the last one that it waits for ended by the event of a number: it began when a
    // later command ended, until which its pool was full, or as many commands ran as never more at once.
    fn held(&self, graph: &Graph, timed: &Timed, ready: u32) -> Option<Held> {
        let freed = self.last_end(timed.began)?;
        if freed <= ready {
            return None;
        }
        if let Some(pool) = pool_of(graph, timed.edge) {
            let (_, depth) = pool;
            if self.running_in(graph, pool, freed) >= u64::from(depth) {
                return Some(Held::ByPool);
            }
        }
        if self.running(freed) == self.most {
            return Some(Held::ByJobs(self.most));
        }
        None
    }
}

/// The link of a chain behind that at a place: the run for which that one waited.
pub(crate) fn link_behind(chain: &Chain, place: usize) -> Option<&Timed> {
    match chain.links.get(usize::saturating_add(place, 1)) {
        Some(next) => Some(next),
        None => chain.next.as_ref(),
    }
}

/// What the command of a link waited for though the one behind it had ended; None where nothing held it, or nothing is
/// known of that.
pub(crate) fn held_of(
    told: Context<'_>,
    crowd: &Crowd,
    timed: &Timed,
    behind: Option<&Timed>,
) -> Option<Held> {
    let behind = behind?;
    if timed.from <= behind.to {
        return None;
    }
    crowd.held(history_of(told).graph(), timed, behind.ended)
}
