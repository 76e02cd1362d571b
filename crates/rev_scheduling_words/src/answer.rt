//! The answer about schedules.
use rev_document::{Shape, To, Tone, Writer};
use rev_manifest::Build;
use rev_schedule_wishes::Ninja;
use rev_scheduling::{Ending, Figures, Gain, Link, Recorded};
use std::alloc::{AllocError, Global};

// How many of the runs on which the end depends are printed.
const MOST_LINKS: usize = 10;
// How many gains are printed.
const MOST_GAINS: usize = 5;

/// An edge, as people know it.
#[derive(Clone, Copy)]
pub struct Edge<'a> {
    /// Its first output.
    pub output: &'a [u8],
    /// The file of its build statement.
    pub file: &'a [u8],
    /// The line of its build statement.
    pub line: u64,
}

/// What is answered.
#[derive(Clone, Copy)]
pub struct Answer<'a> {
    /// The Ninja that ran the build.
    pub ninja: &'a Ninja,
    /// The edges, by their numbers.
    pub edges: &'a [Edge<'a>],
    /// What was recorded.
    pub recorded: Recorded,
    /// How many runs have no times.
    pub untimed: u64,
    /// The figures; none where schedules foretell nothing.
    pub figures: Option<&'a Figures>,
    /// The ends of the build as it was recorded, in the order of the figures' endings, where another build was asked
    /// for.
    pub unchanged: &'a [u64],
}

/// The edges of build statements, by their numbers. The statements were read from these files.
///
/// # Errors
/// [`AllocError`] only where an allocation was refused.
pub fn edges_of<'a>(
    alloc: Global,
    builds: &'a [Build],
    files: &'a [(Vec<u8>, Vec<u8>)],
) -> Result<Vec<Edge<'a>>, AllocError> {
    let mut edges = Vec::with_capacity(alloc, builds.len())?;
    for build in builds {
        edges.push(Edge {
            output: first_output(build),
            file: match files.get(build.file() as usize) {
                Some((name, _)) => name.as_slice(),
                None => b"",
            },
            line: build.line(),
        })?;
    }
    Ok(edges)
}

// The first output of a build statement.
fn first_output(build: &Build) -> &[u8] {
    match build.explicit_outs().first() {
        Some(out) => out.as_bytes(),
        None => match build.implicit_outs().first() {
            Some(out) => out.as_bytes(),
            None => b"",
        },
    }
}

// Adds thousandths as a percentage.
fn push_percent(document: &mut Writer, thousandths: u64) {
    document.number(To::Words, thousandths / 10);
    document.words(".");
    document.number(To::Words, thousandths % 10);
    document.words(" %");
}

// Adds an edge, as `main.o (build.ninja:19)`.
fn push_edge(document: &mut Writer, edges: &[Edge<'_>], edge: u32) {
    let Some(edge) = edges.get(edge as usize) else {
        return;
    };
    document.name(To::Both("output"), edge.output);
    document.words(" (");
    document.place(To::Words, edge.file, edge.line);
    document.words(")");
    document.name(To::Json("file"), edge.file);
    document.number(To::Json("line"), edge.line);
}

// Adds which Ninja it was.
fn push_ninja(document: &mut Writer, ninja: &Ninja) {
    document.words("Ninja ");
    if ninja.version.is_empty() {
        document.null(To::Json("version"));
    } else {
        document.text(To::Both("version"), &ninja.version);
        document.words(" ");
    }
}

// Adds what was recorded beside its schedule.
fn push_recorded(document: &mut Writer, answer: &Answer<'_>) {
    let recorded = answer.recorded;
    document.open(To::Both(""), Shape::Object);
    document.word(To::Both("kind"), "schedule");
    document.words(": ");
    push_ninja(document, answer.ninja);
    document.words("with ");
    document.count(To::Words, u64::from(recorded.jobs), "job");
    document.number(To::Json("jobs"), u64::from(recorded.jobs));
    document.words(": recorded ");
    document.time(To::Both("recorded"), recorded.took);
    document.words(", by its rules ");
    document.time(To::Both("scheduled"), recorded.scheduled);
    document.words(" (");
    push_percent(document, recorded.apart());
    document.words(" apart)");
    document.line();
    document.flag(To::Json("foretold"), answer.figures.is_some());
    document.number(To::Json("work"), recorded.work);
    document.number(To::Json("untimed"), answer.untimed);
    document.number_if(To::Json("longest"), answer.figures.map(|it| it.longest));
    document.close();
}

// Adds how many runs have no times.
fn push_untimed(document: &mut Writer, untimed: u64) {
    if untimed == 0 {
        return;
    }
    document.words("  ");
    document.count(To::Words, untimed, "command");
    document.words(" without a time: the schedules do not have them");
    document.line();
}

// Adds what no schedule knows, with the figure that the recording has.
fn push_unknown(document: &mut Writer, recorded: Recorded) {
    let at_once = recorded.at_once();
    document.words("  each command takes as long as in the recording, where on average ");
    document.number(To::Words, at_once / 10);
    document.words(".");
    document.number(To::Words, at_once % 10);
    document.words(" ran at once");
    document.line();
    document.words(
        "  with more at once a command may take longer; the recording has no processor times",
    );
    document.line();
}

// Adds why nothing is foretold.
fn push_refusal(document: &mut Writer) {
    document.paint(Tone::Maybe);
    document.words(
        "  nothing is foretold: the schedule ends more than 5 % apart from the recording",
    );
    document.paint(Tone::Plain);
    document.line();
}

// Adds how the build goes with a number of jobs.
fn push_ending(document: &mut Writer, ending: &Ending, unchanged: Option<u64>) {
    document.open(To::Both(""), Shape::Object);
    document.word(To::Json("kind"), "end");
    document.words("  with ");
    document.count(To::Words, u64::from(ending.jobs), "job");
    document.number(To::Json("jobs"), u64::from(ending.jobs));
    document.words(": ");
    if let Some(unchanged) = unchanged {
        document.time(To::Words, unchanged);
        document.words(" -> ");
    }
    document.number_if(To::Json("unchanged"), unchanged);
    document.time(To::Both("end"), ending.end);
    document.words(", at least ");
    document.time(To::Both("bound"), ending.bound);
    document.words("; jobs idle ");
    push_percent(document, ending.idle);
    document.number(To::Json("idle"), ending.idle);
    document.line();
    document.close();
}

// Adds how the build goes with each number of jobs.
fn push_endings(document: &mut Writer, figures: &Figures, unchanged: &[u64]) {
    for (place, ending) in figures.endings.iter().enumerate() {
        push_ending(document, ending, unchanged.get(place).copied());
    }
}

// Adds a run on which the end depends.
fn push_link(document: &mut Writer, answer: &Answer<'_>, jobs: u32, link: &Link) {
    document.open(To::Both(""), Shape::Object);
    document.word(To::Json("kind"), "link");
    document.number(To::Json("jobs"), u64::from(jobs));
    document.words("    ");
    push_edge(document, answer.edges, link.edge);
    document.words(": from ");
    document.time(To::Both("start"), link.start);
    document.words(" to ");
    document.time(To::Both("end"), link.end);
    document.words("; jobs idle ");
    push_percent(document, link.idle);
    document.number(To::Json("idle"), link.idle);
    document.line();
    document.close();
}

// Adds the runs on which the end depends.
fn push_links(document: &mut Writer, answer: &Answer<'_>, figures: &Figures) {
    document.words("  with ");
    document.count(To::Words, u64::from(figures.jobs), "job");
    document.words(" the end depends on ");
    document.count(To::Words, figures.links.len() as u64, "command");
    document.words(", each of which begins when the one before it ends");
    document.line();
    for (place, link) in figures.links.iter().enumerate() {
        document.item(place >= MOST_LINKS);
        push_link(document, answer, figures.jobs, link);
    }
    document.rest("    and ", " more (--json has them)");
}

// Adds what is gained where a command takes half its time.
fn push_gain(document: &mut Writer, answer: &Answer<'_>, jobs: u32, gain: &Gain) {
    document.open(To::Both(""), Shape::Object);
    document.word(To::Json("kind"), "gain");
    document.number(To::Json("jobs"), u64::from(jobs));
    document.words("    ");
    push_edge(document, answer.edges, gain.edge);
    document.words(", which takes ");
    document.time(To::Both("took"), gain.took);
    document.words(": the build ends ");
    document.time(To::Both("gain"), gain.gain);
    document.words(" sooner");
    document.line();
    document.close();
}

// Adds what is gained by commands that take half their time.
fn push_gains(document: &mut Writer, answer: &Answer<'_>, figures: &Figures) {
    if figures.gains.is_empty() {
        return;
    }
    document.words("  twice as fast, with ");
    document.count(To::Words, u64::from(figures.jobs), "job");
    document.line();
    for (place, gain) in figures.gains.iter().enumerate() {
        document.item(place >= MOST_GAINS);
        push_gain(document, answer, figures.jobs, gain);
    }
    document.rest("    and ", " more (--json has them)");
}

/// Adds the answer. It begins with what was recorded beside its schedule, and ends with what no schedule knows. Between
/// them stand the ends with each number of jobs, the runs on which the end depends, and the gains of faster commands.
pub fn push_answer(document: &mut Writer, answer: &Answer<'_>) {
    push_recorded(document, answer);
    push_untimed(document, answer.untimed);
    let Some(figures) = answer.figures else {
        push_refusal(document);
        return;
    };
    push_endings(document, figures, answer.unchanged);
    push_links(document, answer, figures);
    push_gains(document, answer, figures);
    push_unknown(document, answer.recorded);
}
