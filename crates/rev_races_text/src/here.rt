//! What happened in a recording, in words.
ghost use Rattle.std.specs.Prelude.{◌≡◌, Some};
ghost use Rattle.rev_races_text.specs.Happened.{apart_words, both_words, end_words, held_words, here_line, runs_words};

use rev_races::{Happened, Run, Story};
use std::fmt;

/// The line of what happened.
#[derive(Clone, Copy)]
pub struct HereLine(pub Story);

// When a command ended, or that it runs, behind who it is.
#[derive(Clone, Copy)]
struct End {
    who: &'static str,
    run: Run,
}

// When both ran.
#[derive(Clone, Copy)]
struct Runs {
    happened: Happened,
    maker: Run,
    user: Run,
}

// When maker and user ran, where they did.
#[derive(Clone, Copy)]
struct Both(Story);

impl fmt::Display for End {
    ghost output = { λ end. Some (end_words end.who.now end.run end.run.ended) };

    fn fmt<W: fmt::Write>(&self, f: &mut fmt::Formatter<W>) -> fmt::Result {
        let who = self.who;
        let began = self.run.began;
        match self.run.ended {
            Some(number) => write!(f, "{who} ended at {number}"),
            None => write!(f, "{who} still runs, begun at {began}"),
        }
    }
}

impl fmt::Display for Runs {
    ghost output = { λ runs. Some (runs_words runs.happened runs.maker runs.user) };

    fn fmt<W: fmt::Write>(&self, f: &mut fmt::Formatter<W>) -> fmt::Result {
        let (maker, user) = (self.maker, self.user);
        match self.happened {
            Happened::Before => {
                let end = End {
                    who: "the user",
                    run: user,
                };
                write!(f, "{end}, the maker began at {}", maker.began)
            }
            _ => {
                let end = End {
                    who: "the maker",
                    run: maker,
                };
                write!(f, "{end}, the user began at {}", user.began)
            }
        }
    }
}

impl fmt::Display for Both {
    ghost output = { λ both. Some (both_words both.0.happened both.0.maker both.0.user) };

    fn fmt<W: fmt::Write>(&self, f: &mut fmt::Formatter<W>) -> fmt::Result {
        let happened = self.0.happened;
        match (self.0.maker, self.0.user) {
            (None, None) => write!(f, "neither ran"),
            (None, Some(user)) => {
                write!(f, "the maker did not run, the user began at {}", user.began)
            }
            (Some(run), None) => {
                let end = End {
                    who: "the maker",
                    run,
                };
                write!(f, "{end}, the user did not run")
            }
            (Some(maker), Some(user)) => {
                let runs = Runs {
                    happened,
                    maker,
                    user,
                };
                write!(f, "{runs}")
            }
        }
    }
}

// What two runs stand apart by.
fn apart_words(maker: Option<Run>, user: Option<Run>) -> &'static str
    ensures { result.now ≡ apart_words maker user }
{
    match (maker, user) {
        (Some(_), Some(_)) => "apart: another plan came between these runs",
        _ => "apart: not both ran",
    }
}

// What held the user, or did not.
fn held_words(story: Story) -> &'static str
    ensures { result.now ≡ held_words story.happened story.maker story.user }
{
    match story.happened {
        Happened::Apart => apart_words(story.maker, story.user),
        Happened::Before => "before: the user read an older file",
        Happened::AtOnce => "at once: both ran at one time",
        Happened::HeldRecord => {
            "held by a record of an earlier build: a clean build is not held so"
        }
        Happened::HeldPlace => "held by a job or a slot alone",
        Happened::Free => "free: nothing held it",
    }
}

impl fmt::Display for HereLine {
    ghost output = { λ line. Some (here_line line.0) };

    fn fmt<W: fmt::Write>(&self, f: &mut fmt::Formatter<W>) -> fmt::Result {
        let both = Both(self.0);
        let held = held_words(self.0);
        write!(f, "    here: {both}; {held}\n")
    }
}
