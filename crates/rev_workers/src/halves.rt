//! Jobs by halves, each half in a thread of its own.
ghost use Rattle.std.specs.Prelude.{◌≡◌, ◌<◌, ◌≤◌, ◌/◌, ◌++◌, [], ℕ, Contains, EachIndex, IfOk, IfSome, List, OnOk, drop, length, map, slice_index, take, vec_len};
ghost use Rattle.std.specs.List.{AllByRecursion};
ghost use Rattle.std.specs.Thread.{IsSync};
ghost use Rattle.rev_commands.specs.declared.command.Command.{Command};
ghost use Rattle.rev_workers.specs.Tracks.{Track};
ghost use Rattle.rev_workers.specs.Running.{AreBelow, Covers, HaveTold, IsUnder, numbers_in};

use crate::closing::lesser;
use crate::gate::Gate;
use crate::jobs::{Done, Job, run_job};
use crate::shared::Shared;
use std::alloc::{AllocError, Global};
use std::snapshot::Snapshot;
use std::sync::Wait;
use std::sync::ledger::Ledger;
use std::thread;
use std::thread::{Promise, Threads};

// What lanes come to: those that said all that they had to say, and the least number of the others.
type Ran<L> = (Vec<Done<L>>, Option<u32>);

// What the thread of a half owes: each lane said its commands, and the gate was told of them, or the lane's number is not
// below the one that is told.
#[derive(Drop)]
struct AllSay<L: Ledger, G: Gate>(Snapshot<Vec<Job<L>>>, Snapshot<G>);

impl<L: Ledger, G: Gate> Promise<Ran<L>> for AllSay<L, G> {
    ghost kept_by = { λ p r. Covers r.1 p.0.value.items r.0.items
        × IfSome r.1 (λ n. Contains (numbers_in p.0.value.items) n)
        × HaveTold G.told G.answered p.1.value r.1 p.0.value.items };
}

impl<L: Ledger, G: Gate> AllSay<L, G> {
    // What is owed of these jobs and this gate.
    fn of(jobs: &Vec<Job<L>>, gate: &G) -> AllSay<L, G>
        ensures { (result.0.value ≡ jobs.now) × (result.1.value ≡ gate.now) }
    {
        AllSay(Snapshot::of(jobs), Snapshot::of(gate))
    }
}

// The later half of some jobs, with room for the lanes that come back.
fn later_half<L: Ledger>(
    alloc: Global,
    jobs: &mut Vec<Job<L>>,
) -> Result<(Vec<Job<L>>, Vec<Done<L>>), AllocError>
    requires { 1 < vec_len jobs.old }
    ensures later { IfOk result (λ half. half.0.items ≡ drop (vec_len jobs.old / 2) jobs.old.items) }
    ensures room { IfOk result (λ half. half.1.items ≡ []) }
    ensures earlier { OnOk result (jobs.new.items ≡ take (vec_len jobs.old / 2) jobs.old.items) }
{
    let middle = jobs.len() / 2;
    let room = Vec::with_capacity(alloc, jobs.len() - middle)?;
    let later = jobs.split_off(middle)?;
    Ok((later, room))
}

// Runs one job, or none.
fn run_last<L: Ledger, R: Wait, G: Gate>(
    rt: &R,
    shared: &Shared<L>,
    gate: &G,
    jobs: Vec<Job<L>>,
    room: Vec<Done<L>>,
) -> Ran<L>
    requires few { vec_len jobs < 2 }
    requires below { AreBelow shared.now jobs.items }
    requires room { room.items ≡ [] }
    ensures ran { Covers result.1 jobs.items result.0.items }
    ensures told { HaveTold G.told G.answered gate.now result.1 jobs.items }
    ensures stopped { IfSome result.1 (λ n. Contains (numbers_in jobs.items) n) }
{
    let mut jobs = jobs;
    let mut room = room;
    let Some(job) = jobs.pop() else {
        return (room, None);
    };
    let number = job.number();
    match run_job(rt, shared, gate, job) {
        Ok(done) => {
            if room.push(done).is_err() {
                return (room, Some(number));
            }
            (room, None)
        }
        Err(stopped) => (room, Some(stopped)),
    }
}

// The least of some numbers.
pub(crate) fn least_of(numbers: &[u32]) -> u32
    requires { 0 < length numbers.now }
    ensures among { Contains numbers.now result }
    ensures least { EachIndex numbers.now (λ k. result ≤ slice_index numbers.now k) }
{
    let mut least = numbers[0];
    for number in numbers {
        if *number < least {
            least = *number;
        }
    }
    least
}

// Notes that the lanes of these numbers send no more.
fn end_all<L: Ledger, R: Wait>(rt: &R, shared: &Shared<L>, numbers: &[u32])
    requires { AllByRecursion (λ n. n < shared.now) numbers.now }
{
    for number in numbers {
        shared.end(rt, *number);
    }
}

// What comes of two halves together. Where there is no room for the later lanes, all count as stopped.
fn together<L: Ledger>(numbers: &[u32], earlier: Ran<L>, later: Ran<L>) -> Ran<L>
    requires some { 0 < length numbers.now }
    requires earlier { IfSome earlier.1 (λ n. Contains numbers.now n) }
    requires later { IfSome later.1 (λ n. Contains numbers.now n) }
    ensures ran { (js ks : List (Track × List Command)) → numbers.now ≡ numbers_in js ++ numbers_in ks
        → Covers earlier.1 js earlier.0.items → Covers later.1 ks later.0.items
        → Covers result.1 (js ++ ks) result.0.items }
    ensures under { AllByRecursion (λ n. IsUnder result.1 n → IsUnder earlier.1 n × IsUnder later.1 n) numbers.now }
    ensures stopped { IfSome result.1 (λ n. Contains numbers.now n) }
{
    let (mut done, first) = earlier;
    let (mut others, second) = later;
    if done.append(&mut others).is_err() {
        done.clear();
        return (done, Some(least_of(numbers)));
    }
    (done, lesser(first, second))
}

// Runs jobs, each in a thread of its own: the later half of them from a new thread, and the earlier half from this
// one, down to one job a thread. It gives the lanes that said all, in the order of the jobs, and the least number of
// those that stopped. Where no thread can be had for a half, that counts for each lane of it.
#[cycle(halves)]
pub(crate) fn run_halves<L: Ledger + Send + Sync, R: Threads + Wait + Sync, G: Gate>(
    rt: &R,
    alloc: Global,
    shared: &Shared<L>,
    gate: &G,
    numbers: &[u32],
    jobs: Vec<Job<L>>,
    room: Vec<Done<L>>,
) -> Ran<L>
    requires below { AreBelow shared.now jobs.items }
    requires numbers { numbers.now ≡ numbers_in jobs.items }
    requires room { room.items ≡ [] }
    ensures ran { Covers result.1 jobs.items result.0.items }
    ensures told { HaveTold G.told G.answered gate.now result.1 jobs.items }
    ensures stopped { IfSome result.1 (λ n. Contains (numbers_in jobs.items) n) }
{
    if jobs.len() < 2 {
        return run_last(rt, shared, gate, jobs, room);
    }
    let mut jobs = jobs;
    let middle = jobs.len() / 2;
    let (first, second) = numbers.split_at(middle);
    let Ok((later, later_room)) = later_half(alloc, &mut jobs) else {
        end_all(rt, shared, numbers);
        return (room, Some(least_of(numbers)));
    };
    run_both(
        rt, alloc, shared, gate, first, jobs, room, second, later, later_room, numbers,
    )
}

// Runs two halves, the later one in a new thread.
#[cycle(halves)]
fn run_both<L: Ledger + Send + Sync, R: Threads + Wait + Sync, G: Gate>(
    rt: &R,
    alloc: Global,
    shared: &Shared<L>,
    gate: &G,
    numbers: &[u32],
    jobs: Vec<Job<L>>,
    room: Vec<Done<L>>,
    later_numbers: &[u32],
    later: Vec<Job<L>>,
    later_room: Vec<Done<L>>,
    all: &[u32],
) -> Ran<L>
    requires below { AreBelow shared.now jobs.items }
    requires numbers { numbers.now ≡ numbers_in jobs.items }
    requires room { room.items ≡ [] }
    requires later_below { AreBelow shared.now later.items }
    requires later_numbers { later_numbers.now ≡ numbers_in later.items }
    requires later_room { later_room.items ≡ [] }
    requires all { all.now ≡ numbers_in jobs.items ++ numbers_in later.items }
    requires all_some { 0 < length all.now }
    requires earlier_some { 0 < vec_len jobs }
    requires later_some { 0 < vec_len later }
    ensures ran { Covers result.1 (jobs.items ++ later.items) result.0.items }
    ensures told { HaveTold G.told G.answered gate.now result.1 (jobs.items ++ later.items) }
    ensures stopped { IfSome result.1 (λ n. Contains (numbers_in jobs.items ++ numbers_in later.items) n) }
{
    thread::scope(
        thread::scope_env(),
        rt,
        move |scope| -> Ran<L>
            requires { IsSync R.row × AreBelow shared.now jobs.items × (numbers.now ≡ numbers_in jobs.items)
                × (room.items ≡ [])
                × AreBelow shared.now later.items × (later_numbers.now ≡ numbers_in later.items)
                × (later_room.items ≡ [])
                × (all.now ≡ numbers_in jobs.items ++ numbers_in later.items) × (0 < vec_len jobs)
                × (0 < vec_len later) × (0 < length all.now) × IsSync G.row }
            ensures { Covers result.1 (jobs.items ++ later.items) result.0.items
                × IfSome result.1 (λ n. Contains (numbers_in jobs.items ++ numbers_in later.items) n)
                × HaveTold G.told G.answered gate.entry.now result.1 (jobs.items ++ later.items) }
        {
            let promise = AllSay::of(&later, gate);
            let worker = scope.spawn_with(
                promise,
                move || -> Ran<L>
                    requires { IsSync R.row × AreBelow shared.now later.items
                        × (later_numbers.now ≡ numbers_in later.items)
                        × (later_room.items ≡ []) × IsSync G.row }
                    ensures { Covers result.1 later.items result.0.items
                        × IfSome result.1 (λ n. Contains (numbers_in later.items) n)
                        × HaveTold G.told G.answered gate.entry.now result.1 later.items }
                { run_halves(rt, alloc, shared, gate, later_numbers, later, later_room) },
            );
            if worker.is_err() {
                end_all(rt, shared, later_numbers);
            }
            let earlier = run_halves(rt, alloc, shared, gate, numbers, jobs, room);
            match worker {
                Ok(handle) => together(all, earlier, handle.join(rt)),
                Err(_refused) => {
                    let none = Vec::new(alloc);
                    together(all, earlier, (none, Some(least_of(later_numbers))))
                }
            }
        },
    )
}
