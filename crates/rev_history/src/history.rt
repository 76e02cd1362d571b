//! The history.
ghost use Rattle.std.specs.Prelude.{◌≡◌, ◌↔◌, ◌<◌, ℕ, length, IfOk, OnOk, OnErr, IsErrOf, IsTrue, Some, None, true};
ghost use Rattle.std.specs.Option.{option_copied};
ghost use Rattle.rev_causal.specs.Laws.{IsLeastCone, IsLeastInTheWay};
ghost use Rattle.rev_cells.specs.Table.{raised_by};
ghost use Rattle.rev_cells.specs.Opened.{IsOpened};
ghost use Rattle.rev_events.specs.declared.refusal.Refusal.{Refusal};
ghost use Rattle.rev_events.specs.Same.{event_eq};
ghost use Rattle.rev_footprint.specs.Value.{FootprintValue, print_of};
ghost use Rattle.rev_history.specs.Along.{HavePrints, inverted_along};
ghost use Rattle.rev_history.specs.Checked.{HasNow, IsChecked, WritesNow};
ghost use Rattle.rev_history.specs.Order.{IsOrder, IsSameOpening, answer_of, order_of};
ghost use Rattle.rev_history.specs.Timeline.{IsHistory, IsRising, Timeline, accept_refusal, accepted_as, back_refusal, cone_numbers, cone_refusal, coned, event_at, greatest_kept, kept_events, kept_footprint, last_of, machine_at, nearest_conflict, opened, redo_refusal, redone, state_at, undo_refusal, undone};
ghost use Rattle.rev_history.specs.Value.{cells_written};

use crate::access_updates::{nearest, write_noted};
use crate::closing::cone;
use crate::kept::KeptFootprint;
use crate::order::{Order, accesses_of, both, first_pair, pair_by_places};
use crate::removal::{put_all_back, put_back, remove_members};
use crate::step::{Checked, effect_if_accepted, refusal};
use crate::steps::{Step, step_of};
use indexmap::IndexMap;
use rev_accesses::Accesses;
use rev_cells::{Cell, Cells, Opening, Value};
use rev_events::{Event, Fault, Refusal};
use rev_footprint::{Footprint, footprint as footprint_now};
use rev_graph::Graph;
use rev_numbers::{SortedNumbers, place_of};
use rev_order::matched_places;
use std::alloc::{AllocError, Global};
use std::marker::Model;

/// A graph, an opening, the events that were accepted under rising numbers, and those of them that are kept. The state
/// is the one to which the kept events lead from the opening, in the order of their numbers. Beside each kept event
/// stands a step: its footprint, by the places of its cells, and what it replaced, so that an undo can restore that.
/// No step stands beside an event that is not kept. Under each cell stand the kept numbers whose events access it.
pub struct History {
    alloc: Global,
    graph: Graph,
    opening: Opening,
    accepted: IndexMap<u32, Event>,
    steps: Vec<Option<Step>>,
    kept: SortedNumbers,
    accesses: Accesses,
    cells: Cells,
    last: u32,
}

impl Drop for History {
    fn drop(self) {
        let History {
            alloc: _alloc,
            graph: _graph,
            opening: _opening,
            accepted: _accepted,
            steps: _steps,
            kept: _kept,
            accesses: _accesses,
            cells: _cells,
            last: _last,
        } = self;
    }
}

impl Model for History {
    ghost use Rattle.rev_history.specs.Value.{HistoryValue, value_code};

    ghost Value = { HistoryValue };

    ghost coded = { value_code };

    ghost use Rattle.rev_history.specs.Sound.{value_of, IsListed};

    ghost view = { value_of };

    ghost invariant = { IsListed };
}

impl History {
    /// A history of an opening in which nothing was accepted yet.
    ///
    /// # Errors
    /// [`AllocError`] only where an allocation was refused.
    pub fn new(alloc: Global, graph: Graph, opening: &Opening) -> Result<History, AllocError>
        ensures { IfOk result (λ h. h
            ≡ record {
              timeline = opened graph.manifest opening.now.jobs opening.now.state;
              writes = 0;
            }) }
    {
        // A build starts and ends each edge once: with room for that, and for its plans and the like, nothing is moved
        // as the history grows.
        let usual = (graph.edges() as usize)
            .saturating_mul(2)
            .saturating_add(64);
        let cells = Cells::new(alloc, opening)?;
        let _first = cells.place(0);
        Ok(History {
            alloc,
            graph,
            opening: opening.copy()?,
            accepted: IndexMap::with_capacity(alloc, usual)?,
            steps: Vec::with_capacity(alloc, usual)?,
            kept: SortedNumbers::with_capacity(alloc, usual)?,
            accesses: Accesses::new(alloc),
            cells,
            last: 0,
        })
    }

    /// The graph of the builds.
    pub fn graph(&self) -> &Graph
        ensures { result.now.manifest ≡ self.now.timeline.manifest }
    {
        &self.graph
    }

    /// The greatest number under which an event was accepted; 0 where none was.
    pub fn last(&self) -> u32
        ensures { result ≡ last_of self.now.timeline.accepted }
    {
        self.last
    }

    /// The event that was accepted under a number, whether it is kept or not; none where no event was.
    pub fn event(&self, number: u32) -> Option<&Event>
        ensures { option_copied result ≡ event_at self.now.timeline number }
    {
        self.accepted.get(&number)
    }

    /// The kept numbers. They rise, an event was accepted under each, and each of these events is accepted in the
    /// state that the kept events before it lead to.
    pub fn kept(&self) -> &[u32]
        ensures kept { result.now ≡ self.now.timeline.kept }
        ensures legal { IsHistory self.now.timeline }
    {
        self.kept.as_slice()
    }

    /// The state that the kept events lead to from the opening.
    pub fn cells(&self) -> &Cells
        ensures state { result.now.state ≡ state_at self.now.timeline }
        ensures jobs { result.now.jobs ≡ self.now.timeline.jobs }
        ensures writes { result.now.writes ≡ self.now.writes }
        ensures opened { IsOpened self.now.timeline.opening }
    {
        let _jobs = self.opening.jobs();
        &self.cells
    }

    /// The footprint that a kept event has in the state at its place; none where the number is not kept.
    pub fn footprint_of(&self, number: u32) -> Option<KeptFootprint<'_>>
        ensures { result ≡ kept_footprint self.now.timeline number }
    {
        let _place = place_of(self.kept.as_slice(), number)?;
        let step = step_of(&self.accepted, &self.steps, number)?;
        Some(KeptFootprint {
            step,
            cells: &self.cells,
        })
    }

    /// As [`History::footprint_of`], in a footprint with a list of its own, which [`History::nearest`] takes.
    ///
    /// # Errors
    /// [`AllocError`] only where an allocation was refused.
    pub fn footprint_copy(&self, number: u32) -> Result<Option<Footprint>, AllocError>
        ensures { IfOk result (λ footprint. footprint ≡ kept_footprint self.now.timeline number) }
    {
        match self.footprint_of(number) {
            Some(lent) => Ok(Some(lent.to_footprint(self.alloc)?)),
            None => Ok(None),
        }
    }

    /// The least kept number above `number` whose event conflicts with a footprint. It takes no memory, and looks up
    /// the footprint's cells alone.
    pub fn nearest(&self, number: u32, footprint: &Footprint) -> Option<u32>
        ensures same { result ≡ nearest_conflict number footprint.now self.now.timeline }
        // Of the kept events above that number, the one that is named conflicts, and none of a lower number does.
        ensures least { let t = self.now.timeline in (k : ℕ) → result ≡ Some k
            → IsLeastInTheWay (machine_at t) t.opening (kept_events t) number (print_of footprint.now) k }
    {
        nearest(
            number,
            footprint,
            self.kept.as_slice(),
            &self.accesses,
            &self.cells,
        )
    }

    /// As [`History::nearest`], with the footprint of the kept event `other`; none where `other` is not kept. It takes
    /// no memory, and hashes no cell.
    pub fn nearest_to(&self, number: u32, other: u32) -> Option<u32>
        ensures same { (f : FootprintValue) → kept_footprint self.now.timeline other ≡ Some f
            → result ≡ nearest_conflict number f self.now.timeline }
        ensures none { kept_footprint self.now.timeline other ≡ None → result ≡ None }
    {
        let _place = place_of(self.kept.as_slice(), other)?;
        let step = step_of(&self.accepted, &self.steps, other)?;
        self.accesses
            .nearest_by(number, &step.places, self.kept.as_slice())
    }

    /// Accepts an event under a number above all others, and keeps it.
    ///
    /// # Errors
    /// [`Fault::Refused`] where the present state refuses the event; [`Fault::Memory`] where an allocation was refused,
    /// which may be before the refusal is known, or where the place of a cell would not fit in a u32 (more than
    /// 4,294,967,295 cells). The history is then as before.
    pub fn accept(&mut self, number: u32, event: &Event) -> Result<(), Fault>
        requires { last_of self.old.timeline.accepted < number }
        ensures refused { (r : Refusal) → IsErrOf result (Fault.Refused r)
            → accept_refusal self.old.timeline event.now ≡ Some r }
        ensures free { OnOk result (accept_refusal self.old.timeline event.now ≡ None) }
        ensures ok { OnOk result (self.new.timeline ≡ accepted_as number event.now self.old.timeline) }
        ensures err { OnErr result (self.new ≡ self.old) }
    {
        let writes = effect_if_accepted(self.alloc, &self.graph, &self.cells, event)?;
        let footprint = footprint_now(self.alloc, &self.graph, &self.cells, event)?;
        let event = event.copy()?;
        self.accepted.reserve(1)?;
        self.steps.reserve(1)?;
        self.kept.reserve()?;
        let step = write_noted(
            self.alloc,
            &mut self.accesses,
            &mut self.cells,
            number,
            &footprint,
            writes,
        )?;
        self.accepted.insert(number, event)?;
        self.steps.push(Some(step))?;
        self.kept.put(number)?;
        self.last = number;
        Ok(())
    }

    /// Takes a kept event out on which no later kept event depends. The other events stay, and the state is then that
    /// of the other events alone. It takes no memory, and writes the cells that the event wrote.
    ///
    /// # Errors
    /// [`Fault::Refused`] where the number has no event, is not kept, or a later kept event depends on it. The history
    /// is then as before.
    pub fn undo(&mut self, number: u32) -> Result<(), Fault>
        ensures refused { (r : Refusal) → IsErrOf result (Fault.Refused r)
            ↔ (undo_refusal self.old.timeline number ≡ Some r) }
        ensures free { OnOk result (undo_refusal self.old.timeline number ≡ None) }
        ensures no_memory { IsErrOf result Fault.Memory → ⊥ }
        ensures ok { OnOk result (self.new.timeline ≡ undone number self.old.timeline) }
        ensures writes { OnOk result (self.new.writes
            ≡ raised_by (cells_written number self.old.timeline) self.old.writes) }
        ensures err { OnErr result (self.new ≡ self.old) }
    {
        if let Some(refusal) = self.undo_refused(number) {
            return Err(Fault::Refused(refusal));
        }
        self.put_back(number);
        Ok(())
    }

    /// Puts an event that was undone back at its number's place.
    ///
    /// # Errors
    /// [`Fault::Refused`] where the number has no event, is kept, the present state refuses the event, or a later kept
    /// event conflicts with it; [`Fault::Memory`] where an allocation was refused, which may be before it is known
    /// whether a later event conflicts, or where the place of a cell would not fit in a u32, as [`History::accept`]
    /// says. The history is then as before.
    pub fn redo(&mut self, number: u32) -> Result<(), Fault>
        ensures refused { (r : Refusal) → IsErrOf result (Fault.Refused r)
            → redo_refusal self.old.timeline number ≡ Some r }
        ensures free { OnOk result (redo_refusal self.old.timeline number ≡ None) }
        ensures ok { OnOk result (self.new.timeline ≡ redone number self.old.timeline) }
        ensures err { OnErr result (self.new ≡ self.old) }
    {
        match self.redo_checked(number)? {
            Checked::Refused(refusal) => Err(Fault::Refused(refusal)),
            Checked::Free(footprint, writes) => {
                self.keep(number, footprint, writes)?;
                Ok(())
            }
        }
    }

    /// Takes out the event of the greatest kept number, and gives that number. It takes no memory, and writes the cells
    /// that the event wrote.
    ///
    /// # Errors
    /// [`Fault::Refused`] where no event is kept. The history is then as before.
    pub fn back(&mut self) -> Result<u32, Fault>
        ensures refused { (r : Refusal) → IsErrOf result (Fault.Refused r)
            ↔ (back_refusal self.old.timeline ≡ Some r) }
        ensures no_memory { IsErrOf result Fault.Memory → ⊥ }
        ensures greatest { IfOk result (λ n. greatest_kept self.old.timeline ≡ Some n) }
        ensures ok { IfOk result (λ n. self.new.timeline ≡ undone n self.old.timeline) }
        ensures writes { IfOk result (λ n. self.new.writes
            ≡ raised_by (cells_written n self.old.timeline) self.old.writes) }
        ensures err { OnErr result (self.new ≡ self.old) }
    {
        let Some(number) = self.greatest() else {
            return Err(Fault::Refused(Refusal::NothingKept));
        };
        self.put_back(number);
        Ok(number)
    }

    /// Takes out a kept event and each later one that depends on it, itself or by way of others, and gives their
    /// numbers, which rise. The other events stay, and the state is then that of the other events alone.
    ///
    /// # Errors
    /// [`Fault::Refused`] where the number has no event or is not kept; [`Fault::Memory`] only where an allocation was
    /// refused. The history is then as before.
    pub fn cone(&mut self, number: u32) -> Result<Vec<u32>, Fault>
        ensures refused { (r : Refusal) → IsErrOf result (Fault.Refused r)
            ↔ (cone_refusal self.old.timeline number ≡ Some r) }
        ensures free { OnOk result (cone_refusal self.old.timeline number ≡ None) }
        ensures numbers { IfOk result (λ numbers. numbers.items ≡ cone_numbers number self.old.timeline) }
        ensures least { let t = self.old.timeline in
            OnOk result (IsLeastCone (machine_at t) t.opening (kept_events t) number) }
        ensures ok { OnOk result (self.new.timeline ≡ coned number self.old.timeline) }
        ensures err { OnErr result (self.new ≡ self.old) }
    {
        if let Some(refusal) = self.cone_refused(number) {
            return Err(Fault::Refused(refusal));
        }
        let members = self.members(number)?;
        self.take_down(number, &members);
        Ok(members)
    }

    /// Why [`History::accept`] would refuse an event now, where it would.
    ///
    /// # Errors
    /// [`AllocError`] only where an allocation was refused.
    pub fn accept_refused(&self, event: &Event) -> Result<Option<Refusal>, AllocError>
        ensures { IfOk result (λ refused. refused ≡ accept_refusal self.now.timeline event.now) }
    {
        refusal(self.alloc, &self.graph, &self.cells, event)
    }

    /// Why [`History::back`] would be refused now, where it would. It takes no memory.
    pub fn back_refused(&self) -> Option<Refusal>
        ensures { result ≡ back_refusal self.now.timeline }
    {
        match self.greatest() {
            Some(_number) => None,
            None => Some(Refusal::NothingKept),
        }
    }

    /// Why [`History::cone`] would refuse a number now, where it would. It takes no memory.
    pub fn cone_refused(&self, number: u32) -> Option<Refusal>
        ensures { result ≡ cone_refusal self.now.timeline number }
    {
        if self.event(number).is_none() {
            return Some(Refusal::NoSuchEvent);
        }
        if !self.kept.has(number) {
            return Some(Refusal::NotKept);
        }
        None
    }

    /// The numbers of the events that [`History::cone`] would take out now, which rise.
    ///
    /// # Errors
    /// [`AllocError`] only where an allocation was refused.
    pub fn members(&self, number: u32) -> Result<Vec<u32>, AllocError>
        requires { cone_refusal self.now.timeline number ≡ None }
        ensures members { IfOk result (λ members. members.items ≡ cone_numbers number self.now.timeline) }
        ensures rising { IfOk result (λ members. IsRising members.items) }
        ensures least { let t = self.now.timeline in IsLeastCone (machine_at t) t.opening (kept_events t) number }
        ensures legal { IsHistory self.now.timeline }
    {
        cone(
            self.alloc,
            number,
            self.kept.as_slice(),
            &self.accepted,
            &self.steps,
            &self.accesses,
        )
    }

    // Takes the members of a cone out of the access lists, out of the state, and out of the kept numbers. Each list is
    // gone through once.
    fn take_down(&mut self, number: u32, members: &[u32])
        requires rising { IsRising members.now }
        requires members { members.now ≡ cone_numbers number self.old.timeline }
        ensures { self.new.timeline ≡ coned number self.old.timeline }
    {
        remove_members(members, &self.accepted, &self.steps, &mut self.accesses);
        put_all_back(members, &self.accepted, &mut self.steps, &mut self.cells);
        self.kept.take_all(members);
    }

    // The greatest kept number.
    fn greatest(&self) -> Option<u32>
        ensures greatest { result ≡ greatest_kept self.now.timeline }
        ensures legal { IsHistory self.now.timeline }
    {
        self.kept.as_slice().last().copied()
    }

    /// Why [`History::undo`] would refuse a number now, where it would. It takes no memory.
    pub fn undo_refused(&self, number: u32) -> Option<Refusal>
        ensures { result ≡ undo_refusal self.now.timeline number }
    {
        if self.event(number).is_none() {
            return Some(Refusal::NoSuchEvent);
        }
        let Some(_place) = place_of(self.kept.as_slice(), number) else {
            return Some(Refusal::NotKept);
        };
        let Some(step) = step_of(&self.accepted, &self.steps, number) else {
            unreachable!()
        };
        let dependent = self
            .accesses
            .nearest_by(number, &step.places, self.kept.as_slice())?;
        Some(Refusal::DependedOn(dependent))
    }

    /// Why [`History::redo`] would refuse a number now, where it would.
    ///
    /// # Errors
    /// [`AllocError`] only where an allocation was refused.
    pub fn redo_refused(&self, number: u32) -> Result<Option<Refusal>, AllocError>
        ensures { IfOk result (λ refused. refused ≡ redo_refusal self.now.timeline number) }
    {
        match self.redo_checked(number)? {
            Checked::Refused(refusal) => Ok(Some(refusal)),
            Checked::Free(_, _) => Ok(None),
        }
    }

    // Whether `redo` would put an event back now. What the event then writes is worked out with its refusal.
    fn redo_checked(&self, number: u32) -> Result<Checked, AllocError>
        ensures { IfOk result (IsChecked self.now.timeline number) }
    {
        let Some(event) = self.event(number) else {
            return Ok(Checked::Refused(Refusal::NoSuchEvent));
        };
        if self.kept.has(number) {
            return Ok(Checked::Refused(Refusal::AlreadyKept));
        }
        match effect_if_accepted(self.alloc, &self.graph, &self.cells, event) {
            Err(Fault::Memory) => Err(AllocError),
            Err(Fault::Refused(refusal)) => {
                let [first, _] = refusal.numbers();
                Ok(Checked::Refused(Refusal::NotNow {
                    refusal: refusal.code(),
                    first,
                }))
            }
            Ok(writes) => {
                let footprint = footprint_now(self.alloc, &self.graph, &self.cells, event)?;
                match self.nearest(number, &footprint) {
                    Some(other) => Ok(Checked::Refused(Refusal::Overtaken(other))),
                    None => Ok(Checked::Free(footprint, writes)),
                }
            }
        }
    }

    /// Whether another history keeps the same events in an equivalent order. The two agree only where their graphs lend
    /// the same and their openings are the same. Equal events are matched by occurrence, and the other history's events
    /// take the numbers of this one's. Time is linear in the events and their footprints, up to hashing.
    ///
    /// # Errors
    /// [`AllocError`] only where an allocation was refused.
    pub fn same_order(&self, other: &History) -> Result<Order, AllocError>
        ensures order { IfOk result (λ order. IsOrder event_eq self.now.timeline other.now.timeline (answer_of order)) }
        // Where the openings are the same, it is what a function of the kept events says.
        ensures answer { IsSameOpening self.now.timeline other.now.timeline
            → IfOk result (λ order. answer_of order ≡ order_of event_eq true self.now.timeline other.now.timeline) }
    {
        if !self.same_opening(other) {
            return Ok(Order::EventsDiffer);
        }
        let order = self.order_of_events(other)?;
        Ok(order)
    }

    // Whether another history has the same graph, by what it lends, and the same opening.
    fn same_opening(&self, other: &History) -> bool
        ensures same { IsTrue result ↔ IsSameOpening self.now.timeline other.now.timeline }
        ensures legal { IsHistory self.now.timeline }
    {
        let graphs = self.graph.lends_alike(&other.graph);
        let openings = self.opening.same(&other.opening);
        both(graphs, openings)
    }

    // What the order check answers where the openings are the same.
    fn order_of_events(&self, other: &History) -> Result<Order, AllocError>
        ensures { IfOk result (λ order. answer_of order
            ≡ order_of event_eq true self.now.timeline other.now.timeline) }
    {
        let matched = matched_places(
            self.alloc,
            self.kept.as_slice(),
            &self.accepted,
            other.kept.as_slice(),
            &other.accepted,
            self.last,
        )?;
        match matched {
            None => Ok(Order::EventsDiffer),
            Some(places) => Ok(first_pair(
                &places,
                self.kept.as_slice(),
                &self.accepted,
                &self.steps,
                &self.accesses,
            )),
        }
    }

    /// Of all pairs of some kept events that conflict and of which the later one stands before the earlier one by the
    /// places of their numbers the one with the least first number, and of these the least second one. It takes time
    /// linear in what the events read and write, and hashes no cell.
    ///
    /// # Errors
    /// [`AllocError`] only where an allocation was refused.
    pub fn inverted_pair(
        &self,
        places: &[u32],
        numbers: &[u32],
    ) -> Result<Option<(u32, u32)>, AllocError>
        requires rising { IsRising numbers.now }
        requires kept { HavePrints self.now.timeline numbers.now }
        ensures { IfOk result (λ pair. pair ≡ inverted_along self.now.timeline places.now numbers.now) }
    {
        let accesses = accesses_of(self.alloc, numbers, &self.accepted, &self.steps)?;
        Ok(pair_by_places(places, numbers, &self.accepted, &self.steps, &accesses))
    }

    /// A history of the same graph, built again, and the same opening, in which nothing was accepted yet.
    ///
    /// # Errors
    /// [`AllocError`] only where an allocation was refused.
    pub fn reopened(&self) -> Result<History, AllocError>
        ensures { IfOk result (λ h. h
            ≡ record {
              timeline = opened self.now.timeline.manifest self.now.timeline.jobs self.now.timeline.opening;
              writes = 0;
            }) }
    {
        let graph = self.graph.again(self.alloc)?;
        let history = History::new(self.alloc, graph, &self.opening)?;
        Ok(history)
    }

    // Removes a kept event that nothing depends on, with its step.
    fn put_back(&mut self, number: u32)
        requires { undo_refusal self.old.timeline number ≡ None }
        ensures timeline { self.new.timeline ≡ undone number self.old.timeline }
        ensures writes { self.new.writes ≡ raised_by (cells_written number self.old.timeline) self.old.writes }
    {
        remove_members(&[number], &self.accepted, &self.steps, &mut self.accesses);
        put_back(number, &self.accepted, &mut self.steps, &mut self.cells);
        self.kept.take(number);
    }

    // Keeps an event at its number's place, with the footprint that it has now and what it writes now. No later kept
    // event may conflict with it.
    fn keep(
        &mut self,
        number: u32,
        footprint: Footprint,
        writes: Vec<(Cell, Value)>,
    ) -> Result<(), AllocError>
        requires free { redo_refusal self.old.timeline number ≡ None }
        requires print { HasNow self.old.timeline number footprint }
        requires writes { WritesNow self.old.timeline number writes.items }
        ensures ok { OnOk result (self.new.timeline ≡ redone number self.old.timeline) }
        ensures err { OnErr result (self.new ≡ self.old) }
    {
        let Some(index) = self.accepted.get_index_of(&number) else {
            unreachable!()
        };
        self.kept.reserve()?;
        let step = write_noted(
            self.alloc,
            &mut self.accesses,
            &mut self.cells,
            number,
            &footprint,
            writes,
        )?;
        self.kept.put(number)?;
        self.steps[index] = Some(step);
        Ok(())
    }
}
