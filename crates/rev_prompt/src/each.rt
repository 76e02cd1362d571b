//! Several questions of one kind, whose common parts are worked out once.
ghost use Rattle.std.specs.Prelude.{◌≡◌, IfOk, IfSome, OnOk};
ghost use Rattle.std.specs.Option.{option_copied};
ghost use Rattle.rev_prompt.specs.Asked.{AreAnswers, IsAnswer};
ghost use Rattle.rev_prompt.specs.Past.{IsOpeningOf, IsPlanned};
ghost use Rattle.rev_runs.specs.Runs.{runs_of};

use crate::answers::Answer;
use crate::past::Planned;
use crate::queries::edge_by;
use crate::query::Query;
use crate::question::Question;
use crate::reasons::why_by;
use crate::session::{Session, asked};
use crate::spans::with_by;
use rev_desk::Desk;
use rev_runs::{Run, runs};
use std::alloc::{AllocError, Global};

// What one of several questions is answered, by the runs of the history and by the state after a plan, which is kept for
// the next question.
fn asked_among(
    alloc: Global,
    session: &Session<'_>,
    desk: &Desk,
    question: &Question,
    runs: &[Run],
    kept: &mut Option<Planned>,
) -> Result<Answer, AllocError>
    requires runs { runs.now ≡ runs_of desk.now.history }
    requires kept { IsOpeningOf desk.now.history session.now.opening.now
        → IfSome kept.old (IsPlanned desk.now.history) }
    ensures answered { IsOpeningOf desk.now.history session.now.opening.now → IfOk result (λ answer.
        IsAnswer desk.now (option_copied session.now.observation) session.now.edges.now question.now answer) }
    ensures kept { OnOk result (IsOpeningOf desk.now.history session.now.opening.now
        → IfSome kept.new (IsPlanned desk.now.history)) }
{
    let history = desk.history();
    match question {
        Question::Why(out) => why_by(alloc, history, session.opening, out, runs, kept),
        Question::With(out) => with_by(alloc, history, out, runs),
        Question::Query(Query::Edge(name), _) => edge_by(alloc, desk, name, runs),
        _ => asked(alloc, session, desk, question),
    }
}

/// What questions that only ask are answered, in their order, each as by [`asked`]. The desk is read alone. What the
/// questions have in common is worked out once: the runs of the history, and the state after a plan, as long as the next
/// `why` is about the same one.
///
/// # Errors
/// [`AllocError`] only where an allocation was refused.
pub fn asked_each(
    alloc: Global,
    session: &Session<'_>,
    desk: &Desk,
    questions: &[Question],
) -> Result<Vec<Answer>, AllocError>
    ensures { IsOpeningOf desk.now.history session.now.opening.now → IfOk result (λ answers.
        AreAnswers desk.now (option_copied session.now.observation) session.now.edges.now questions.now answers.items) }
{
    let runs = runs(alloc, desk.history())?;
    let mut kept = None;
    let mut answers = Vec::new(alloc);
    for question in questions {
        let answer = asked_among(alloc, session, desk, question, &runs, &mut kept)?;
        answers.push(answer)?;
    }
    Ok(answers)
}
