//! What questions are answered.
use crate::found::Found;
use crate::question::Reach;
use rev_dirty::Reason;
use rev_held::Link;
use rev_looked::{Naming, Need, User};
use rev_observed::Kind;
use rev_order_text::Ordered;
use rev_paths::Name;
use std::alloc::AllocError;

/// When a command ran: the numbers of its start, and of its end where it ended.
#[derive(Clone, Copy)]
pub struct Span {
    /// The number of its start.
    pub began: u32,
    /// The number of its finish, fail or abort.
    pub ended: Option<u32>,
}

/// A command of the recording that was said.
#[derive(Clone, Copy)]
pub struct Step {
    /// Its place among the commands of the recording, from 0.
    pub at: usize,
    /// The event that it names, as `undo` does, or that `back` took back.
    pub number: Option<u32>,
    /// What the desk replied; nothing where its journal was full.
    pub reply: Option<rev_desk::Reply>,
}

/// What came of `run`.
#[derive(Clone, Copy)]
pub struct Tally {
    /// How many commands were said.
    pub said: u64,
    /// How many of them were refused.
    pub refused: u64,
    /// The first that was.
    pub first: Option<Step>,
    /// How many commands of edges run where the recording has ended; 0 where it has not.
    pub running: u64,
}

/// A reason with what it names.
pub struct Because {
    /// The reason, whose positions are those of the paths below.
    pub reason: Reason,
    /// The output that it names.
    pub output: Option<Name>,
    /// The input that it names.
    pub input: Option<Name>,
}

// Written, since a derived drop is proved again at each exit of each caller.
impl Drop for Because {
    fn drop(self) {
        let Because {
            reason: _reason,
            output: _output,
            input: _input,
        } = self;
    }
}

/// A step from an edge without reasons of its own to one that it waits for.
pub struct Wait {
    /// The edge.
    pub edge: u32,
    /// The input by which the way goes on.
    pub input: Option<Name>,
}

// Written, since a derived drop is proved again at each exit of each caller.
impl Drop for Wait {
    fn drop(self) {
        let Wait {
            edge: _edge,
            input: _input,
        } = self;
    }
}

/// Why an edge runs: from the edge by inputs to one with reasons.
pub struct Way {
    /// The steps.
    pub steps: Vec<Wait>,
    /// The edge at which they end.
    pub last: u32,
    /// Its reasons.
    pub reasons: Vec<Because>,
}

// Written, since a derived drop is proved again at each exit of each caller.
impl Drop for Way {
    fn drop(self) {
        let Way {
            steps: _steps,
            last: _last,
            reasons: _reasons,
        } = self;
    }
}

/// What an event rests on.
pub struct Needs {
    /// The number of the event.
    pub number: u32,
    /// How far it was asked.
    pub reach: Reach,
    /// The earlier events on which it rests, from the latest, and through what; none where it was asked for what was
    /// observed alone.
    pub links: Vec<Link>,
    /// What it rests on by what its command was seen to look at, which its build line does not declare; none where
    /// nothing was observed.
    pub looks: Option<Vec<Need>>,
}

// Written, since a derived drop is proved again at each exit of each caller.
impl Drop for Needs {
    fn drop(self) {
        let Needs {
            number: _number,
            reach: _reach,
            links: _links,
            looks: _looks,
        } = self;
    }
}

/// An edge whose command was seen to do something with a path.
#[derive(Clone, Copy)]
pub struct Deed {
    /// The edge.
    pub edge: u32,
    /// What its command does with the path.
    pub kind: Kind,
    /// The last kept run of the command.
    pub run: Option<Span>,
}

/// Which commands read a path.
pub enum Readers {
    /// Those that were seen to.
    Observed(Vec<Deed>),
    /// Where nothing was observed, those that name it.
    Named(Vec<Naming>),
}

// Written, since a derived drop is proved again at each exit of each caller.
impl Drop for Readers {
    fn drop(self) {
        match self {
            Readers::Observed(_deeds) => {}
            Readers::Named(_namings) => {}
        }
    }
}

/// Which commands write a path.
pub enum Writers {
    /// Those that were seen to.
    Observed(Vec<Deed>),
    /// Where nothing was observed, the edge that has it as an output.
    Declared(Option<u32>),
}

// Written, since a derived drop is proved again at each exit of each caller.
impl Drop for Writers {
    fn drop(self) {
        match self {
            Writers::Observed(_deeds) => {}
            Writers::Declared(_edge) => {}
        }
    }
}

/// What a question is answered, by numbers of events. Its words and its JSON are made of it.
pub enum Answer {
    /// Nothing was asked.
    Nothing,
    /// The words of the prompt.
    Help,
    /// Lines as a report has them.
    Lines(Vec<u8>),
    /// No build statement has this path as an output.
    NoOutput(Name),
    /// No such event at this path is kept.
    NoneKept(Name),
    /// No event was accepted under the number or label.
    NoEvent,
    /// An event.
    Event(u32),
    /// The kept events.
    Kept(Vec<u32>),
    /// The events of the edge of an output, also those that were undone.
    Who(Name, Vec<u32>),
    /// What an event rests on.
    Needs(Needs),
    /// Which commands read a path.
    Readers(Name, Readers),
    /// Which commands write a path.
    Writers(Name, Writers),
    /// What rests on an event.
    Dependents(u32, Vec<Link>),
    /// What a cone of an event would take.
    WouldCone(u32, Vec<u32>),
    /// What a cone of an event took.
    Cone(u32, Vec<u32>),
    /// What was taken back with the events of an output's edge, and how many events are left.
    Without(Name, Vec<u32>, usize),
    /// The last run of an output's edge, and the runs of other commands that overlapped it.
    With(Name, Option<Span>, Vec<Span>),
    /// Why an output's edge runs: its last run, where the reasons are those of a plan before it, the number of that
    /// plan, and else the reasons of the present state.
    Why(Name, Option<Span>, Option<u32>, Way),
    /// What another order of events makes.
    Order(Ordered),
    /// What the desk replied to a typed command, and the event that it names; no reply where the journal was full.
    Said(Option<rev_desk::Reply>, Option<u32>),
    /// What the desk replied to an undo that was carried out, the event, and who was seen to look at what it left.
    Undone(rev_desk::Reply, u32, Vec<User>),
    /// What came of `run`, and whether a break stands.
    Run(Tally, bool),
    /// Commands of the recording, one by one; whether it ended, and whether a break stands.
    Steps(Vec<Step>, bool, bool),
    /// What a question about edges, files and times is answered.
    Found(Found),
}

// Written, since a derived drop is proved again at each exit of each caller.
impl Drop for Answer {
    fn drop(self) {
        match self {
            Answer::Nothing => {}
            Answer::Help => {}
            Answer::Lines(_text) => {}
            Answer::NoOutput(_path) => {}
            Answer::NoneKept(_path) => {}
            Answer::NoEvent => {}
            Answer::Event(_number) => {}
            Answer::Kept(_numbers) => {}
            Answer::Who(_path, _numbers) => {}
            Answer::Needs(_needs) => {}
            Answer::Readers(_path, _readers) => {}
            Answer::Writers(_path, _writers) => {}
            Answer::Dependents(_number, _links) => {}
            Answer::WouldCone(_number, _members) => {}
            Answer::Cone(_number, _members) => {}
            Answer::Without(_path, _members, _left) => {}
            Answer::With(_path, _run, _others) => {}
            Answer::Why(_path, _run, _plan, _way) => {}
            Answer::Order(_ordered) => {}
            Answer::Said(_reply, _number) => {}
            Answer::Undone(_reply, _number, _users) => {}
            Answer::Run(_tally, _paused) => {}
            Answer::Steps(_steps, _ended, _paused) => {}
            Answer::Found(_found) => {}
        }
    }
}

/// Whether an answer is one: what the question names is there.
pub fn has_answer(answer: &Answer) -> bool {
    match answer {
        Answer::NoOutput(_) | Answer::NoneKept(_) | Answer::NoEvent => false,
        Answer::Nothing
        | Answer::Help
        | Answer::Lines(_)
        | Answer::Event(_)
        | Answer::Kept(_)
        | Answer::Who(_, _)
        | Answer::Needs(_)
        | Answer::Readers(_, _)
        | Answer::Writers(_, _)
        | Answer::Dependents(_, _)
        | Answer::WouldCone(_, _)
        | Answer::Cone(_, _)
        | Answer::Without(_, _, _)
        | Answer::With(_, _, _)
        | Answer::Why(_, _, _, _)
        | Answer::Order(_)
        | Answer::Said(_, _)
        | Answer::Undone(_, _, _)
        | Answer::Run(_, _)
        | Answer::Steps(_, _, _)
        | Answer::Found(_) => true,
    }
}

/// An equal name, where there is one.
pub(crate) fn copied(name: Option<&Name>) -> Result<Option<Name>, AllocError> {
    match name {
        Some(name) => Ok(Some(name.copy()?)),
        None => Ok(None),
    }
}
