//! What words and JSON are made from.
use rev_desk::Desk;
use rev_dyndep::Origins;
use rev_history::History;
use rev_paths::Name;
use rev_prompt::{Question, Session};
use rev_targets::Targets;

/// What words and JSON of an answer are made from, beside the answer.
#[derive(Clone, Copy)]
pub struct Context<'a> {
    /// The session.
    pub session: &'a Session<'a>,
    /// The desk, as the answer left it.
    pub desk: &'a Desk,
    /// What was asked.
    pub question: &'a Question,
    /// Which paths of the manifest come from dyndep files.
    pub origins: &'a Origins,
    /// The targets of the generator that wrote the manifest, where the recording names them.
    pub targets: Option<&'a Targets>,
}

/// The history of the desk.
pub(crate) fn history_of<'a>(told: Context<'a>) -> &'a History {
    told.desk.history()
}

/// The path of a number, of those that were observed.
pub(crate) fn path_of<'a>(told: Context<'a>, path: u64) -> Option<&'a Name> {
    let paths = told.session.observation?.paths();
    if path >= paths.len() {
        return None;
    }
    Some(paths.path(path))
}
