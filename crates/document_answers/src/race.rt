//! A race.
use rev_document::{Shape, To, Tone, Writer};

/// An edge, with the events of the run that the answer is about.
#[derive(Clone, Copy)]
pub struct Edge<'a> {
    /// The event by which its command began.
    pub began: u32,
    /// The event by which its command ended.
    pub ended: u32,
    /// The file of its build statement.
    pub file: &'a [u8],
    /// The line of its build statement.
    pub line: u64,
    /// Its first output.
    pub output: &'a [u8],
}

/// A race of two commands that nothing held apart, and that an order mends.
#[derive(Clone, Copy)]
pub struct Race<'a> {
    /// Its number.
    pub number: u64,
    /// Its stable name.
    pub id: &'a [u8],
    /// The path.
    pub path: &'a [u8],
    /// The edge that makes the path.
    pub maker: Edge<'a>,
    /// The edge that uses it.
    pub user: Edge<'a>,
    /// The output that is to be added to the user's order-only inputs.
    pub mend: &'a [u8],
}

// Adds an edge in words, as `main.o (build.ninja:19)`.
fn push_edge(document: &mut Writer, edge: &Edge<'_>) {
    document.name(To::Words, edge.output);
    document.words(" (");
    document.place(To::Words, edge.file, edge.line);
    document.words(")");
}

// Adds an edge as an object.
fn push_edge_object(document: &mut Writer, member: &'static str, edge: &Edge<'_>) {
    document.open(To::Json(member), Shape::Object);
    document.event(To::Json("began"), edge.began);
    document.event(To::Json("ended"), edge.ended);
    document.name(To::Json("file"), edge.file);
    document.number(To::Json("line"), edge.line);
    document.name(To::Json("output"), edge.output);
    document.close();
}

// Adds the line of the maker.
fn push_maker(document: &mut Writer, race: &Race<'_>) {
    document.paint(Tone::Wrong);
    document.word(To::Both("kind"), "race");
    document.paint(Tone::Plain);
    document.words(" ");
    document.number(To::Json("number"), race.number);
    document.text(To::Json("id"), race.id);
    document.name(To::Both("path"), race.path);
    document.words(" made by ");
    push_edge(document, &race.maker);
    document.line();
}

// Adds the line of the user.
fn push_user(document: &mut Writer, race: &Race<'_>) {
    document.words("  used by ");
    push_edge(document, &race.user);
    document.words(", which does not wait for it ");
    document.paint(Tone::Number);
    document.words("[");
    document.number(To::Words, race.number);
    document.words("]");
    document.paint(Tone::Plain);
    document.line();
}

// Adds the line of what happened in the recording.
fn push_here(document: &mut Writer, race: &Race<'_>) {
    document.words("    here: the maker ended at ");
    document.event(To::Words, race.maker.ended);
    document.words(", the user began at ");
    document.event(To::Words, race.user.began);
    document.words("; ");
    document.word(To::Both("here"), "free");
    document.words(": nothing held it");
    document.line();
    document.word(To::Json("basis"), "finish");
}

// Adds the line of what mends the race.
fn push_mend(document: &mut Writer, race: &Race<'_>) {
    document.words("    ");
    document.paint(Tone::Well);
    document.words("mend: ");
    document.name(To::Words, race.user.file);
    document.words(":");
    document.number(To::Words, race.user.line);
    document.words(": build ");
    document.name(To::Words, race.user.output);
    document.words(": ... || ");
    document.name(To::Both("mend"), race.mend);
    document.paint(Tone::Plain);
    document.line();
}

/// Adds a race.
pub fn push_race(document: &mut Writer, race: &Race<'_>) {
    document.open(To::Both(""), Shape::Object);
    push_maker(document, race);
    push_edge_object(document, "maker", &race.maker);
    push_edge_object(document, "user", &race.user);
    push_user(document, race);
    push_here(document, race);
    push_mend(document, race);
    document.close();
}
