//! What is printed first of a certificate.
ghost use Rattle.std.specs.Prelude.{◌≡◌, IfOk, Some, is_some, string_bytes};
ghost use Rattle.rev_certainty.specs.Sayings.{SaysFirst, first_words, object_head, object_says_certain, says_certain};

use crate::certainty::Certainty;
use rev_races_text::Replayed;
use std::alloc::{AllocError, Global};
use std::fmt;

// The first lines of an answer.
#[derive(Clone, Copy)]
struct FirstLines<'a> {
    certainty: Option<Certainty>,
    why: &'a str,
    replayed: Replayed,
}

impl fmt::Display for FirstLines<'_> {
    ghost output = { λ l. Some (first_words l.certainty l.why.now l.replayed) };

    fn fmt<W: fmt::Write>(&self, f: &mut fmt::Formatter<W>) -> fmt::Result {
        let (why, replayed) = (self.why, self.replayed);
        match self.certainty {
            Some(certainty) => write!(f, "{certainty}\n"),
            None => write!(f, "not certain: {why}\n{replayed}"),
        }
    }
}

/// The first lines of an answer: what is certain. Where it is not, why, and how much of the recording counts.
///
/// # Errors
/// [`AllocError`] only where an allocation was refused.
pub fn first_lines(
    alloc: Global,
    certainty: Option<Certainty>,
    why: &str,
    replayed: Replayed,
) -> Result<String, AllocError>
    ensures { IfOk result (λ text. SaysFirst says_certain (string_bytes text) (is_some certainty)) }
{
    let lines = FirstLines {
        certainty,
        why,
        replayed,
    };
    let text = lines.to_string(alloc)?;
    Ok(text)
}

// What the first object begins with.
fn head_of(certainty: Option<Certainty>) -> &'static [u8]
    ensures { result.now ≡ object_head (is_some certainty) }
{
    match certainty {
        Some(_) => b"{\"kind\":\"certificate\",\"certain\":true,",
        None => b"{\"kind\":\"certificate\",\"certain\":false,",
    }
}

/// The first object of an answer, as a line. `members` has the other members of the object, and its end.
///
/// # Errors
/// [`AllocError`] only where an allocation was refused.
pub fn certificate_line(
    alloc: Global,
    certainty: Option<Certainty>,
    members: &[u8],
) -> Result<Vec<u8>, AllocError>
    ensures { IfOk result (λ text. SaysFirst object_says_certain text.items (is_some certainty)) }
{
    let mut text = Vec::from_slice(alloc, head_of(certainty))?;
    text.extend_from_slice(members)?;
    text.push(b'\n')?;
    Ok(text)
}
