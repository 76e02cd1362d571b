//! The breaks that stand.
ghost use Rattle.std.specs.Prelude.{◌≡◌, [], ◌∷◌, ◌++◌, IfOk, OnOk, OnErr, Some, true, slice_get, if◌then◌else◌};
ghost use Rattle.rev_causal.specs.Chosen.{IsRising, without};
ghost use Rattle.rev_desk.specs.declared.break_key.BreakKey.{BreakKey};
ghost use Rattle.rev_desk.specs.Breaks.{AreBelow, AreSound, listed_at};
ghost use Rattle.rev_desk.specs.BreakKeys.{both_same, least_met, point_break_key as point_break_key_in, numbers_of, same_break_key, stands};
ghost use Rattle.rev_desk.specs.BreakKeys.{without_break};
ghost use Rattle.rev_manifest.specs.Manifest.{ManifestValue};

use crate::break_key::{BreakKey, event_break_key, point_break_key};
use crate::numbers::take_out;
use indexmap::IndexMap;
use rev_commands::Point;
use rev_events::Event;
use rev_graph::Graph;
use rev_numbers::place_of;
use std::alloc::{AllocError, Global};

// Adds a number to the entry of a key.
fn note(
    break_keys: &mut IndexMap<BreakKey, Vec<u32>>,
    alloc: Global,
    break_key: BreakKey,
    number: u32,
) -> Result<(), AllocError>
    ensures ok { OnOk result ((s : BreakKey) → listed_at break_keys.new.entries s ≡
        (if same_break_key break_key s then listed_at break_keys.old.entries s ++ number ∷ []
        else listed_at break_keys.old.entries s)) }
    ensures err { OnErr result ((s : BreakKey) → listed_at break_keys.new.entries s ≡ listed_at break_keys.old.entries s) }
{
    match break_keys.get_mut(&break_key) {
        Some(numbers) => {
            numbers.push(number)?;
            Ok(())
        }
        None => {
            let mut numbers = Vec::new(alloc);
            numbers.push(number)?;
            break_keys.insert(break_key, numbers)?;
            Ok(())
        }
    }
}

// Removes a number from the entry of a key.
fn forget(break_keys: &mut IndexMap<BreakKey, Vec<u32>>, break_key: &BreakKey, number: u32)
    requires { IsRising (listed_at break_keys.old.entries break_key.now) }
    ensures { (s : BreakKey) → listed_at break_keys.new.entries s ≡
        (if same_break_key break_key.now s then without number (listed_at break_keys.old.entries s)
        else listed_at break_keys.old.entries s) }
{
    match break_keys.get_mut(break_key) {
        Some(numbers) => take_out(numbers, number),
        None => {}
    }
}

// Removes a break's number from the entry of its point.
fn forget_at(
    break_keys: &mut IndexMap<BreakKey, Vec<u32>>,
    graph: &Graph,
    point: &Point,
    number: u32,
) -> Result<(), AllocError>
    requires { (s : BreakKey) → IsRising (listed_at break_keys.old.entries s) }
    ensures ok { OnOk result ((s : BreakKey) → listed_at break_keys.new.entries s ≡
        (if both_same (point_break_key_in graph.now.manifest point.now) (Some s)
        then without number (listed_at break_keys.old.entries s) else listed_at break_keys.old.entries s)) }
    ensures err { OnErr result ((s : BreakKey) → listed_at break_keys.new.entries s ≡ listed_at break_keys.old.entries s) }
{
    match point_break_key(graph, point)? {
        Some(break_key) => {
            forget(break_keys, &break_key, number);
            Ok(())
        }
        None => Ok(()),
    }
}

/// The breaks that stand, in rising number, and the numbers of those that wait for the same events, so that those
/// that an event meets are looked up at once.
pub(crate) struct Breaks {
    pub(crate) standing: Vec<(u32, Point)>,
    pub(crate) numbers: Vec<u32>,
    pub(crate) break_keys: IndexMap<BreakKey, Vec<u32>>,
}

impl Drop for Breaks {
    fn drop(self) {
        let Breaks {
            standing: _standing,
            numbers: _numbers,
            break_keys: _break_keys,
        } = self;
    }
}

impl Breaks {
    /// No break.
    pub(crate) fn new(alloc: Global) -> Breaks
        ensures none { result.standing.items ≡ [] }
        ensures sound { (manifest : ManifestValue) → AreSound manifest result }
    {
        Breaks {
            standing: Vec::new(alloc),
            numbers: Vec::new(alloc),
            break_keys: IndexMap::new(alloc),
        }
    }

    /// The breaks under their numbers.
    pub(crate) fn standing(&self) -> &[(u32, Point)]
        ensures { result.now ≡ self.now.standing.items }
    {
        self.standing.as_slice()
    }

    /// The least break that an event meets.
    pub(crate) fn least_met(&self, graph: &Graph, event: &Event) -> Result<Option<u32>, AllocError>
        requires { AreSound graph.now.manifest self.now }
        ensures { IfOk result (λ met. met
            ≡ least_met graph.now.manifest event.now self.now.standing.items) }
    {
        // Where no break stands, the event's edge is not looked up.
        if self.standing.is_empty() {
            return Ok(None);
        }
        match event_break_key(graph, event)? {
            Some(break_key) => Ok(self.first_at(&break_key)),
            None => Ok(None),
        }
    }

    // The least number beside a key.
    fn first_at(&self, break_key: &BreakKey) -> Option<u32>
        ensures { result ≡ slice_get (listed_at self.now.break_keys.entries break_key.now) 0 }
    {
        match self.break_keys.get(break_key) {
            Some(numbers) => numbers.first().copied(),
            None => None,
        }
    }

    /// Whether the break of a number stands.
    pub(crate) fn stands(&self, number: u32) -> bool
        requires numbers { self.now.numbers.items ≡ numbers_of self.now.standing.items }
        requires rising { IsRising (numbers_of self.now.standing.items) }
        ensures { result ≡ stands self.now.standing.items number }
    {
        place_of(&self.numbers, number).is_some()
    }

    /// A break of a number above the others stands.
    pub(crate) fn add(
        &mut self,
        alloc: Global,
        graph: &Graph,
        number: u32,
        point: Point,
        break_key: BreakKey,
    ) -> Result<(), AllocError>
        requires sound { AreSound graph.now.manifest self.old }
        requires above { AreBelow number self.old.standing.items }
        requires break_key { point_break_key_in graph.now.manifest point ≡ Some break_key }
        ensures ok { OnOk result (self.new.standing.items ≡ self.old.standing.items ++ (number, point) ∷ []) }
        ensures err { OnErr result (self.new.standing.items ≡ self.old.standing.items) }
        ensures sound { AreSound graph.now.manifest self.new }
    {
        self.standing.reserve(1)?;
        self.numbers.reserve(1)?;
        note(&mut self.break_keys, alloc, break_key, number)?;
        self.numbers.push_reserved(number);
        self.standing.push_reserved((number, point));
        Ok(())
    }

    /// The break of a number that stands does so no more.
    pub(crate) fn remove(&mut self, graph: &Graph, number: u32) -> Result<(), AllocError>
        requires sound { AreSound graph.now.manifest self.old }
        requires stands { stands self.old.standing.items number ≡ true }
        ensures ok { OnOk result (self.new.standing.items ≡ without_break number self.old.standing.items) }
        ensures err { OnErr result (self.new.standing.items ≡ self.old.standing.items) }
        ensures sound { AreSound graph.now.manifest self.new }
    {
        let Some(place) = place_of(&self.numbers, number) else {
            unreachable!()
        };
        let (_, point) = &self.standing[place];
        forget_at(&mut self.break_keys, graph, point, number)?;
        self.numbers.remove(place);
        self.standing.remove(place);
        Ok(())
    }
}
