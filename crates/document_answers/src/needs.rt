//! What an event depends on.
use rev_document::{Shape, To, Writer};

/// What happened.
#[derive(Clone, Copy)]
pub enum Action<'a> {
    /// The plan of a target.
    Plan(&'a [u8]),
    /// A command began, under a job's number.
    Start(&'a [u8], u32),
    /// A command ended well.
    Finish(&'a [u8]),
}

/// An event.
#[derive(Clone, Copy)]
pub struct Event<'a> {
    /// Its number.
    pub number: u32,
    /// What happened.
    pub action: Action<'a>,
    /// Whether it is kept.
    pub is_kept: bool,
    /// When it happened, in milliseconds.
    pub time: Option<u64>,
}

/// A dependence.
#[derive(Clone, Copy)]
pub struct Link<'a> {
    /// The earlier event.
    pub event: Event<'a>,
    /// The number of the later one.
    pub other: u32,
    /// The output whose mark the later one read.
    pub mark: &'a [u8],
}

/// What an event depends on.
#[derive(Clone, Copy)]
pub struct Needs<'a> {
    /// The event.
    pub event: Event<'a>,
    /// Its dependences.
    pub links: &'a [Link<'a>],
}

// Adds the members that come before the number of an event.
fn push_kind(document: &mut Writer, event: &Event<'_>) {
    let (kind, job) = match event.action {
        Action::Plan(_) => ("plan", None),
        Action::Start(_, job) => ("start", Some(u64::from(job))),
        Action::Finish(_) => ("finish", None),
    };
    document.number_if(To::Json("job"), job);
    document.flag(To::Json("kept"), event.is_kept);
    document.word(To::Json("kind"), kind);
}

// Adds the members that come between the number of an event and its words.
fn push_path(document: &mut Writer, event: &Event<'_>) {
    match event.action {
        Action::Plan(target) => {
            document.null(To::Json("path"));
            document.open(To::Json("targets"), Shape::List);
            document.name(To::Json(""), target);
            document.close();
        }
        Action::Start(path, _) | Action::Finish(path) => document.name(To::Json("path"), path),
    }
    document.time_if(To::Json("time"), event.time);
}

// Adds what happened, in words.
fn push_action(document: &mut Writer, action: &Action<'_>) {
    document.open(To::Both("words"), Shape::Phrase);
    match action {
        Action::Plan(target) => {
            document.words("plan ");
            document.name(To::Words, target);
        }
        Action::Start(path, job) => {
            document.words("start ");
            document.name(To::Words, path);
            document.words(" (job ");
            document.number(To::Words, u64::from(*job));
            document.words(")");
        }
        Action::Finish(path) => {
            document.words("finish ");
            document.name(To::Words, path);
        }
    }
    document.close();
}

// Adds an event, as `5 start text.o (job 3)`.
fn push_event(document: &mut Writer, event: &Event<'_>) {
    document.open(To::Both("event"), Shape::Object);
    push_kind(document, event);
    document.event(To::Both("number"), event.number);
    document.words(" ");
    push_path(document, event);
    push_action(document, &event.action);
    document.close();
    if !event.is_kept {
        document.words(" (undone)");
    }
}

// Adds a dependence, in a line.
fn push_link(document: &mut Writer, link: &Link<'_>) {
    document.open(To::Both(""), Shape::Object);
    document.word(To::Json("cell"), "mark");
    document.words("  ");
    push_event(document, &link.event);
    document.name(To::Json("of"), link.mark);
    document.event(To::Json("other"), link.other);
    document.words(" through ");
    document.open(To::Both("through"), Shape::Phrase);
    document.words("the mark of ");
    document.name(To::Words, link.mark);
    document.close();
    document.line();
    document.close();
}

/// Adds what an event depends on.
pub fn push_needs(document: &mut Writer, needs: &Needs<'_>) {
    document.open(To::Both(""), Shape::Object);
    document.flag(To::Json("all"), false);
    push_event(document, &needs.event);
    document.words(" rests on");
    document.line();
    document.open(To::Both("events"), Shape::List);
    for link in needs.links {
        push_link(document, link);
    }
    document.close();
    document.word(To::Json("kind"), "needs");
    document.null(To::Json("observed"));
    document.close();
}
