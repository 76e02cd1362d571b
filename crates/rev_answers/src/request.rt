//! What an answer takes from its question, beside what was answered.
use rev_commands::Command;
use rev_paths::Name;
use rev_prompt::{Query, Question};

/// What an answer takes from its question.
#[derive(Clone, Copy)]
pub(crate) enum Request<'a> {
    /// Help about all words, or about this one.
    Help(Option<&'a [u8]>),
    /// This command of a script, which the desk carries out or refuses.
    Command(&'a Command),
    /// What would be to do if these paths were touched.
    Rebuilds(&'a [Name]),
    /// A change of the history by one event.
    Change,
    /// Something of one output, which is no pattern.
    Output,
    /// Another order of events.
    Order,
    /// What was answered says all.
    Rest,
}

// What the answer to a question about edges, files and times takes from it.
fn request_of_query(query: &Query) -> Request<'_> {
    match query {
        Query::Rebuilds(paths) => Request::Rebuilds(paths.as_slice()),
        Query::Edge(_)
        | Query::Edges(_)
        | Query::Reads(_)
        | Query::Makes(_)
        | Query::Slowest(_)
        | Query::Critical => Request::Rest,
    }
}

/// What the answer to a question takes from it.
pub(crate) fn request_of(question: &Question) -> Request<'_> {
    match question {
        Question::Help => Request::Help(None),
        Question::HelpOf(word) => Request::Help(Some(word.as_slice())),
        Question::Command(command) => Request::Command(command),
        Question::Query(query, _) => request_of_query(query),
        Question::Undo(_) | Question::Redo(_) | Question::Cone(_) => Request::Change,
        Question::Without(_) | Question::Until(_) => Request::Output,
        Question::Order(_) => Request::Order,
        Question::Run
        | Question::Next(_)
        | Question::Needs(_, _)
        | Question::Dependents(_)
        | Question::WouldCone(_)
        | Question::Who(_)
        | Question::Readers(_)
        | Question::Writers(_)
        | Question::What(_)
        | Question::Why(_)
        | Question::With(_)
        | Question::Kept(_)
        | Question::Races(_)
        | Question::Marks(_)
        | Question::Stamps(_)
        | Question::Logs(_)
        | Question::Quit
        | Question::Nothing => Request::Rest,
    }
}
