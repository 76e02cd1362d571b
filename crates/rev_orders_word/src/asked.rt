//! What is asked of orders.
ghost use Rattle.std.specs.Prelude.{◌≡◌, ◌≤◌, IfOk, IsOkAnd, None};

use crate::fault::WordFault;
use rev_fields::wide_number;

// How many orders are chosen at most where nobody says how many.
const MOST_ORDERS: usize = 12;
// The fewest and the most orders that may be asked for.
const FEWEST: u64 = 2;

const MOST: u64 = 1_000;

/// What is asked, as it was given.
#[derive(Clone, Copy)]
pub struct Asked<'a> {
    /// How many orders are wanted at most, if it was said.
    pub runs: Option<&'a str>,
    /// Whether JSON is written in place of words.
    pub json: bool,
}

/// What is asked, as it was read.
#[derive(Clone, Copy, Debug, PartialEq, Eq)]
pub struct Wanted {
    /// How many orders are chosen at most, the first one among them.
    pub most: usize,
    /// Whether JSON is written in place of words.
    pub json: bool,
}

// The number of orders that a text says.
fn most_in(text: &str) -> Result<usize, WordFault>
    ensures { IfOk result (λ most. (2 ≤ most) × (most ≤ 1000)) }
{
    match wide_number(text.as_bytes()) {
        Ok(number) if FEWEST <= number && number <= MOST => Ok(number as usize),
        _ => Err(WordFault::Runs),
    }
}

/// Reads what is asked. Where no number of orders is given, there are at most twelve.
///
/// # Errors
/// [`WordFault::Runs`] where the number is none from 2 to 1,000.
pub fn wanted_of(asked: Asked<'_>) -> Result<Wanted, WordFault>
    ensures most { IfOk result (λ wanted. (2 ≤ wanted.most) × (wanted.most ≤ 1000)) }
    ensures json { IfOk result (λ wanted. wanted.json ≡ asked.entry.json) }
    ensures unsaid { asked.entry.runs ≡ None → IsOkAnd result (λ wanted. wanted.most ≡ 12) }
{
    let most = match asked.runs {
        Some(text) => most_in(text)?,
        None => MOST_ORDERS,
    };
    Ok(Wanted {
        most,
        json: asked.json,
    })
}
