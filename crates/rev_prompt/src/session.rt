//! A prompt's session over a recording.
ghost use Rattle.std.specs.Prelude.{◌≡◌, true, IfOk};
ghost use Rattle.std.specs.Option.{option_copied};
ghost use Rattle.rev_prompt.specs.Answers.{IsDependents, IsNeeds};
ghost use Rattle.rev_prompt.specs.Asked.{IsAnswer};
ghost use Rattle.rev_prompt.specs.Asking.{is_quit as is_quit_of, only_asks as only_asks_of};
ghost use Rattle.rev_prompt.specs.Cones.{IsWouldCone};
ghost use Rattle.rev_prompt.specs.Named.{OfEvent};
ghost use Rattle.rev_prompt.specs.Past.{IsOpeningOf};
ghost use Rattle.rev_prompt.specs.declared.answers.Answer.TheVariants as answers;

use crate::advance::{advance, run, until};
use crate::answers::Answer;
use crate::causes::{dependents, needs};
use crate::commands::{apply, cone, event_of, undo, without, would_cone};
use crate::events::{named_event, who};
use crate::listings::{kept, logs, marks, order, stamps};
use crate::queries::queried;
use crate::question::{EventName, Question, Reach};
use crate::reasons::why;
use crate::spans::with;
use crate::users::{readers, writers};
use indexmap::IndexMap;
use rev_cells::Opening;
use rev_commands::{Command, Which};
use rev_desk::Desk;
use rev_manifest::Build;
use rev_observed::Observation;
use rev_paths::Name;
use rev_script::Turn;
use std::alloc::{AllocError, Global};

/// What a session has of a recording, and how far it has come in it.
#[derive(Clone, Copy)]
pub struct Session<'a> {
    /// The commands of the recording, in the order of their turns.
    pub turns: &'a [Turn<'a>],
    /// How many of them were said to the desk.
    pub taken: usize,
    /// The lane of what is typed.
    pub lane: u32,
    /// The edges of the manifest.
    pub builds: &'a [Build],
    /// The opening of the recording.
    pub opening: &'a Opening,
    /// What was observed of its commands, if they were.
    pub observation: Option<&'a Observation>,
    /// The edge of each command that was observed, in their order.
    pub edges: &'a [u32],
    /// When events happened, by their numbers, in milliseconds, as far as that is known.
    pub times: &'a [Option<u32>],
    /// The files that the manifest was read from, each with its name.
    pub files: &'a [(Vec<u8>, Vec<u8>)],
    /// The pools of the manifest, each with its depth.
    pub pools: &'a [(Vec<u8>, u32)],
    /// Other names of files, each with the own name of its file.
    pub names: &'a IndexMap<Name, Name>,
}

/// What comes of a question.
pub struct Reply {
    /// What is answered.
    pub answer: Answer,
    /// How many of the recording's commands were said by now.
    pub taken: usize,
    /// Whether the session ends.
    pub ends: bool,
}

// Written, since a derived drop is proved again at each exit of each caller.
impl Drop for Reply {
    fn drop(self) {
        let Reply {
            answer: _answer,
            taken: _taken,
            ends: _ends,
        } = self;
    }
}

// `needs EVENT`: what the event of a name rests on, as far as it is asked.
fn needs_of(
    alloc: Global,
    session: &Session<'_>,
    desk: &Desk,
    name: &EventName,
    reach: Reach,
) -> Result<Answer, AllocError>
    ensures { IfOk result (λ answer. OfEvent desk.now name.now (λ n. IsNeeds desk.now.history
        (option_copied session.now.observation) session.now.edges.now n reach answer) answer) }
{
    let number = match named_event(desk, name)? {
        Ok(number) => number,
        Err(answer) => return Ok(answer),
    };
    needs(
        alloc,
        desk.history(),
        session.observation,
        session.edges,
        number,
        reach,
    )
}

// `dependents EVENT`: what rests on the event of a name.
fn dependents_of(alloc: Global, desk: &Desk, name: &EventName) -> Result<Answer, AllocError>
    ensures { IfOk result (λ answer. OfEvent desk.now name.now (λ n. IsDependents desk.now.history n answer) answer) }
{
    match named_event(desk, name)? {
        Ok(number) => dependents(alloc, desk.history(), number),
        Err(answer) => Ok(answer),
    }
}

// `would cone EVENT`: what a cone of the event of a name would take.
fn would_cone_of(desk: &Desk, name: &EventName) -> Result<Answer, AllocError>
    ensures { IfOk result (λ answer. OfEvent desk.now name.now (λ n. IsWouldCone desk.now.history n answer) answer) }
{
    match named_event(desk, name)? {
        Ok(number) => would_cone(desk.history(), number),
        Err(answer) => Ok(answer),
    }
}

// `what EVENT`: the event of a name.
fn what(desk: &Desk, name: &EventName) -> Result<Answer, AllocError>
    ensures { IfOk result (λ answer. OfEvent desk.now name.now (λ n. answer ≡ answers.Event n) answer) }
{
    match named_event(desk, name)? {
        Ok(number) => Ok(Answer::Event(number)),
        Err(answer) => Ok(answer),
    }
}

/// What a question that only asks is answered ([`only_asks`]). The desk is read alone. What `why` is answered is said
/// where the history has the opening of the session.
///
/// # Errors
/// [`AllocError`] only where an allocation was refused.
pub fn asked(
    alloc: Global,
    session: &Session<'_>,
    desk: &Desk,
    question: &Question,
) -> Result<Answer, AllocError>
    ensures { IsOpeningOf desk.now.history session.now.opening.now → IfOk result (λ answer.
        IsAnswer desk.now (option_copied session.now.observation) session.now.edges.now question.now answer) }
{
    let history = desk.history();
    match question {
        Question::Needs(name, reach) => needs_of(alloc, session, desk, name, *reach),
        Question::Dependents(name) => dependents_of(alloc, desk, name),
        Question::WouldCone(name) => would_cone_of(desk, name),
        Question::What(name) => what(desk, name),
        Question::Who(out) => who(alloc, history, out),
        Question::Readers(path) => {
            readers(alloc, history, session.observation, session.edges, path)
        }
        Question::Writers(path) => {
            writers(alloc, history, session.observation, session.edges, path)
        }
        Question::Why(out) => why(alloc, history, session.opening, out),
        Question::With(out) => with(alloc, history, out),
        Question::Order(names) => order(alloc, desk, names),
        Question::Kept(_) => kept(alloc, history),
        Question::Marks(out) => marks(alloc, history, out.as_ref()),
        Question::Stamps(path) => stamps(alloc, history, path.as_ref()),
        Question::Logs(path) => logs(alloc, history, path.as_ref()),
        Question::Query(query, _) => queried(alloc, session, desk, query),
        Question::Help | Question::HelpOf(_) => Ok(Answer::Help),
        Question::Races(_) | Question::Quit | Question::Nothing => Ok(Answer::Nothing),
        Question::Run
        | Question::Next(_)
        | Question::Until(_)
        | Question::Without(_)
        | Question::Undo(_)
        | Question::Redo(_)
        | Question::Cone(_)
        | Question::Command(_) => Ok(Answer::Nothing),
    }
}

// `undo EVENT`: what the undo of the event of a name is answered.
fn undo_of(
    alloc: Global,
    session: &Session<'_>,
    desk: &mut Desk,
    name: &EventName,
) -> Result<Answer, AllocError> {
    match named_event(desk, name)? {
        Ok(number) => undo(alloc, session, desk, number),
        Err(answer) => Ok(answer),
    }
}

// `redo EVENT`
fn redo_of(session: &Session<'_>, desk: &mut Desk, name: &EventName) -> Result<Answer, AllocError> {
    match named_event(desk, name)? {
        Ok(number) => {
            let redo = Command::Redo(Which::Number(number));
            apply(session, desk, redo, Some(number))
        }
        Err(answer) => Ok(answer),
    }
}

// `cone EVENT`
fn cone_of(session: &Session<'_>, desk: &mut Desk, name: &EventName) -> Result<Answer, AllocError> {
    match named_event(desk, name)? {
        Ok(number) => cone(session, desk, number),
        Err(answer) => Ok(answer),
    }
}

/// Whether a question only asks. `run`, `next`, `until`, `undo`, `redo`, `cone`, `without` and the commands of a script do
/// more than ask, and every other question only asks.
pub fn only_asks(question: &Question) -> bool
    ensures { result ≡ only_asks_of question.now }
{
    match question {
        Question::Run => false,
        Question::Next(_) => false,
        Question::Until(_) => false,
        Question::Undo(_) => false,
        Question::Redo(_) => false,
        Question::Cone(_) => false,
        Question::Without(_) => false,
        Question::Command(_) => false,
        Question::Needs(_, _)
        | Question::Dependents(_)
        | Question::WouldCone(_)
        | Question::Who(_)
        | Question::Readers(_)
        | Question::Writers(_)
        | Question::What(_)
        | Question::Why(_)
        | Question::With(_)
        | Question::Order(_)
        | Question::Kept(_)
        | Question::Races(_)
        | Question::Marks(_)
        | Question::Stamps(_)
        | Question::Logs(_)
        | Question::Query(_, _)
        | Question::Help
        | Question::HelpOf(_)
        | Question::Quit
        | Question::Nothing => true,
    }
}

// Whether a question is `quit`.
fn is_quit(question: &Question) -> bool
    ensures { result ≡ is_quit_of question.now }
{
    matches!(question, Question::Quit)
}

// What a question that does more than ask is answered, and how many of the recording's commands were said by then.
fn done(
    alloc: Global,
    session: &Session<'_>,
    desk: &mut Desk,
    question: &Question,
) -> Result<(Answer, usize), AllocError> {
    let answer = match question {
        Question::Run => return run(alloc, session, desk),
        Question::Next(count) => return advance(alloc, session, desk, *count),
        Question::Until(out) => return until(alloc, session, desk, out),
        Question::Undo(name) => undo_of(alloc, session, desk, name)?,
        Question::Redo(name) => redo_of(session, desk, name)?,
        Question::Cone(name) => cone_of(session, desk, name)?,
        Question::Without(out) => without(alloc, session, desk, out)?,
        Question::Command(command) => {
            let number = event_of(desk, command);
            apply(session, desk, command.copy()?, number)?
        }
        Question::Needs(_, _)
        | Question::Dependents(_)
        | Question::WouldCone(_)
        | Question::Who(_)
        | Question::Readers(_)
        | Question::Writers(_)
        | Question::What(_)
        | Question::Why(_)
        | Question::With(_)
        | Question::Order(_)
        | Question::Kept(_)
        | Question::Races(_)
        | Question::Marks(_)
        | Question::Stamps(_)
        | Question::Logs(_)
        | Question::Query(_, _)
        | Question::Help
        | Question::HelpOf(_)
        | Question::Quit
        | Question::Nothing => Answer::Nothing,
    };
    Ok((answer, session.taken))
}

/// What a question is answered, over the desk of a session. One that only asks leaves the desk as it was, and says no
/// command of the recording; `quit` ends the session, and nothing else does.
///
/// # Errors
/// [`AllocError`] only where an allocation was refused.
pub fn answer_to(
    alloc: Global,
    session: &Session<'_>,
    desk: &mut Desk,
    question: &Question,
) -> Result<Reply, AllocError>
    ensures same { only_asks_of question.now ≡ true → desk.new ≡ desk.old }
    ensures taken { only_asks_of question.now ≡ true → IfOk result (λ reply. reply.taken ≡ session.now.taken) }
    ensures ends { IfOk result (λ reply. reply.ends ≡ is_quit_of question.now) }
    ensures answered { only_asks_of question.now ≡ true → IsOpeningOf desk.old.history session.now.opening.now
        → IfOk result (λ reply. IsAnswer desk.old (option_copied session.now.observation) session.now.edges.now
        question.now reply.answer) }
{
    let ends = is_quit(question);
    if only_asks(question) {
        let answer = asked(alloc, session, desk, question)?;
        return Ok(Reply {
            answer,
            taken: session.taken,
            ends,
        });
    }
    let (answer, taken) = done(alloc, session, desk, question)?;
    Ok(Reply {
        answer,
        taken,
        ends,
    })
}
