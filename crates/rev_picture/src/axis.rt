//! What stands around the bars: the names of rows, and the axis.
ghost use Rattle.std.specs.Prelude.{◌≡◌, ◌++◌, ◌<◌, ◌^◌, length, OnOk};
ghost use Rattle.std.specs.List.{flat_map};
ghost use Rattle.rev_picture.specs.Picture.{row_text, rows_text, tick_head, tick_stroke, tick_text, tick_words};

use crate::escape::push_escaped_words;
use crate::shapes::{push_stroke, push_text_at, top_of};
use std::alloc::AllocError;

/// A row of bars.
#[derive(Clone, Copy, Debug, PartialEq, Eq)]
pub struct Row<'a> {
    /// The name that stands at its left. A name of a file in it stands as `push_shown` of `rev_shown` wrote it.
    pub name: &'a [u8],
}

/// A tick of the axis.
#[derive(Clone, Copy, Debug, PartialEq, Eq)]
pub struct Tick<'a> {
    /// The distance from the left edge, in units.
    pub left: u32,
    /// The words above it.
    pub words: &'a [u8],
}

// Adds the name of a row at its place.
#[tactic(auto, unfolding(crate::specs::Picture::row_text))]
fn push_row(text: &mut Vec<u8>, place: u32, row: &Row<'_>) -> Result<(), AllocError>
    ensures { OnOk result (text.new.items ≡ text.old.items ++ row_text place row.now) }
{
    push_text_at(text, 4, top_of(place) + 14)?;
    push_escaped_words(text, row.name)?;
    text.extend_from_slice(b"</text>\n")
}

/// Adds the names of rows.
///
/// # Errors
/// [`AllocError`] only where an allocation was refused.
pub(crate) fn push_rows(text: &mut Vec<u8>, rows: &[Row<'_>]) -> Result<(), AllocError>
    requires { length rows.now < 2 ^ 32 }
    ensures { OnOk result (text.new.items ≡ text.old.items ++ rows_text 0 rows.now) }
{
    for (place, row) in rows.iter().enumerate() {
        push_row(text, place as u32, row)?;
    }
    Ok(())
}

// Adds the beginning of a tick.
#[tactic(auto, unfolding(crate::specs::Picture::tick_head))]
fn push_tick_head(text: &mut Vec<u8>) -> Result<(), AllocError>
    ensures { OnOk result (text.new.items ≡ text.old.items ++ tick_head) }
{
    text.extend_from_slice(b"<g class=\"tick\">")
}

// Adds the stroke of a tick across so many rows.
#[tactic(auto, unfolding(crate::specs::Picture::tick_stroke))]
fn push_tick_stroke(text: &mut Vec<u8>, rows: u32, left: u64) -> Result<(), AllocError>
    ensures { OnOk result (text.new.items ≡ text.old.items ++ tick_stroke rows left) }
{
    let bottom = top_of(rows);
    push_tick_head(text)?;
    push_stroke(text, left, 54, left, bottom)
}

// Adds the words of a tick.
#[tactic(auto, unfolding(crate::specs::Picture::tick_words))]
fn push_tick_words(text: &mut Vec<u8>, left: u32, words: &[u8]) -> Result<(), AllocError>
    ensures { OnOk result (text.new.items ≡ text.old.items ++ tick_words left words.now) }
{
    push_text_at(text, u64::from(left) + 3, 56)?;
    push_escaped_words(text, words)?;
    text.extend_from_slice(b"</text></g>\n")
}

// Adds a tick across so many rows.
#[tactic(auto, unfolding(crate::specs::Picture::tick_text))]
fn push_tick(text: &mut Vec<u8>, rows: u32, tick: &Tick<'_>) -> Result<(), AllocError>
    ensures { OnOk result (text.new.items ≡ text.old.items ++ tick_text rows tick.now) }
{
    push_tick_stroke(text, rows, u64::from(tick.left))?;
    push_tick_words(text, tick.left, tick.words)
}

/// Adds the ticks of the axis, across so many rows.
///
/// # Errors
/// [`AllocError`] only where an allocation was refused.
pub(crate) fn push_ticks(
    text: &mut Vec<u8>,
    rows: u32,
    ticks: &[Tick<'_>],
) -> Result<(), AllocError>
    ensures { OnOk result (text.new.items ≡ text.old.items ++ flat_map (tick_text rows) ticks.now) }
{
    for tick in ticks {
        push_tick(text, rows, tick)?;
    }
    Ok(())
}
