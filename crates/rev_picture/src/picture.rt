//! The whole picture.
ghost use Rattle.std.specs.Prelude.{◌≡◌, ◌++◌, ◌<◌, ◌^◌, codes, length, OnOk};
ghost use Rattle.std.specs.List.{flat_map};
ghost use Rattle.rev_picture.specs.Picture.{bar_text, element, head, legend, legend_head, legend_look, legend_mark, legend_of_ends, legend_of_listed, legend_of_observed, legend_of_undone, legend_words, line_text, opening, picture, style};

use crate::axis::{Row, Tick, push_rows, push_ticks};
use crate::escape::push_escaped_words;
use crate::shapes::{Bar, Line, push_attribute, push_bar, push_line, push_rect, push_text_at};
use std::alloc::AllocError;

// Adds how each class looks.
#[tactic(auto, unfolding(crate::specs::Picture::style))]
fn push_style(text: &mut Vec<u8>) -> Result<(), AllocError>
    ensures { OnOk result (text.new.items ≡ text.old.items ++ style) }
{
    text.extend_from_slice(
        b"<style>text{font:10px monospace;fill:#222}.bar rect{fill:#bcd7f2;stroke:#47a}",
    )?;
    text.extend_from_slice(
        b".failed rect{fill:#f2a33c;stroke:#940}.stopped rect{fill:#ccc;stroke:#666}",
    )?;
    text.extend_from_slice(
        b".racing rect{fill:#f7b9b0;stroke:#c22;stroke-dasharray:3 2}.observed rect{fill:#f7b9b0;stroke:#c22;stroke-dasharray:none}",
    )?;
    text.extend_from_slice(
        b".failed.racing rect,.failed.observed rect{fill:#f2a33c;stroke-width:2}.undone rect{fill:none;stroke-dasharray:1 2}",
    )?;
    text.extend_from_slice(
        b".line line{stroke:#333}.race line{stroke:#c22;stroke-dasharray:5 3}.race.observed line{stroke-dasharray:none}",
    )?;
    text.extend_from_slice(b".race text{fill:#c22}.tick line{stroke:#ddd}.tick text{fill:#777}")?;
    text.extend_from_slice(
        b".line:hover line,.race:hover line{stroke-width:4}.line:hover text,.race:hover text{font-weight:bold}</style>\n",
    )
}

// Adds the beginning of a mark of the legend.
#[tactic(auto, unfolding(crate::specs::Picture::legend_head))]
fn push_legend_head(text: &mut Vec<u8>) -> Result<(), AllocError>
    ensures { OnOk result (text.new.items ≡ text.old.items ++ legend_head) }
{
    text.extend_from_slice(b"<g class=\"key")
}

// Adds a mark of the legend.
#[tactic(auto, unfolding(crate::specs::Picture::legend_look))]
fn push_legend_look(text: &mut Vec<u8>, class: &[u8], left: u64) -> Result<(), AllocError>
    ensures { OnOk result (text.new.items ≡ text.old.items ++ legend_look class.now left) }
{
    push_legend_head(text)?;
    text.extend_from_slice(class)?;
    text.extend_from_slice(b"\">")?;
    push_rect(text, left, 22, 14)
}

// Adds what a mark of the legend stands for.
#[tactic(auto, unfolding(crate::specs::Picture::legend_words))]
fn push_legend_words(text: &mut Vec<u8>, left: u64, words: &[u8]) -> Result<(), AllocError>
    requires { left < 1000 }
    ensures { OnOk result (text.new.items ≡ text.old.items ++ legend_words left words.now) }
{
    push_text_at(text, left + 18, 33)?;
    text.extend_from_slice(words)?;
    text.extend_from_slice(b"</text></g>\n")
}

// Adds a mark of the legend, and what it stands for.
#[tactic(auto, unfolding(crate::specs::Picture::legend_mark))]
fn push_legend_mark(
    text: &mut Vec<u8>,
    class: &[u8],
    left: u64,
    words: &[u8],
) -> Result<(), AllocError>
    requires { left < 1000 }
    ensures { OnOk result (text.new.items ≡ text.old.items ++ legend_mark class.now left words.now) }
{
    push_legend_look(text, class, left)?;
    push_legend_words(text, left, words)
}

// Adds what the looks by how a command ended stand for.
#[tactic(auto, unfolding(crate::specs::Picture::legend_of_ends))]
fn push_legend_of_ends(text: &mut Vec<u8>) -> Result<(), AllocError>
    ensures { OnOk result (text.new.items ≡ text.old.items ++ legend_of_ends) }
{
    push_legend_mark(text, b" bar", 4, b"command")?;
    push_legend_mark(text, b" bar failed", 80, b"failed")?;
    push_legend_mark(text, b" bar stopped", 150, b"stopped")
}

// Adds what the look of what is undone stands for.
#[tactic(auto, unfolding(crate::specs::Picture::legend_of_undone))]
fn push_legend_of_undone(text: &mut Vec<u8>) -> Result<(), AllocError>
    ensures { OnOk result (text.new.items ≡ text.old.items ++ legend_of_undone) }
{
    push_legend_mark(text, b" bar undone", 226, b"undone")
}

// Adds what the look of a race by lists stands for.
#[tactic(auto, unfolding(crate::specs::Picture::legend_of_listed))]
fn push_legend_of_listed(text: &mut Vec<u8>) -> Result<(), AllocError>
    ensures { OnOk result (text.new.items ≡ text.old.items ++ legend_of_listed) }
{
    push_legend_mark(text, b" bar racing", 296, b"race by lists")
}

// Adds what the look of an observed race stands for.
#[tactic(auto, unfolding(crate::specs::Picture::legend_of_observed))]
fn push_legend_of_observed(text: &mut Vec<u8>) -> Result<(), AllocError>
    ensures { OnOk result (text.new.items ≡ text.old.items ++ legend_of_observed) }
{
    push_legend_mark(text, b" bar observed", 412, b"observed race")
}

// Adds what each look of a bar stands for.
fn push_legend(text: &mut Vec<u8>) -> Result<(), AllocError>
    ensures { OnOk result (text.new.items ≡ text.old.items ++ legend) }
{
    push_legend_of_ends(text)?;
    push_legend_of_undone(text)?;
    push_legend_of_listed(text)?;
    push_legend_of_observed(text)
}

// Adds the element's name and its language.
#[tactic(auto, unfolding(crate::specs::Picture::element))]
fn push_element(text: &mut Vec<u8>) -> Result<(), AllocError>
    ensures { OnOk result (text.new.items ≡ text.old.items ++ element) }
{
    text.extend_from_slice(b"<svg xmlns=\"http://www.w3.org/2000/svg\"")
}

// Adds the beginning of the element.
#[tactic(auto, unfolding(crate::specs::Picture::opening))]
fn push_opening(text: &mut Vec<u8>, width: u64, height: u64) -> Result<(), AllocError>
    ensures { OnOk result (text.new.items ≡ text.old.items ++ opening width height) }
{
    push_element(text)?;
    push_attribute(text, b"width", width)?;
    push_attribute(text, b"height", height)?;
    text.extend_from_slice(b">\n")
}

// Adds what stands before all shapes.
#[tactic(auto, unfolding(crate::specs::Picture::head))]
fn push_head(text: &mut Vec<u8>, width: u64, height: u64, words: &[u8]) -> Result<(), AllocError>
    ensures { OnOk result (text.new.items ≡ text.old.items ++ head width height words.now) }
{
    push_opening(text, width, height)?;
    push_style(text)?;
    push_text_at(text, 4, 15)?;
    push_escaped_words(text, words)?;
    text.extend_from_slice(b"</text>\n")?;
    push_legend(text)
}

// Adds bars.
fn push_bars(text: &mut Vec<u8>, bars: &[Bar<'_>]) -> Result<(), AllocError>
    ensures { OnOk result (text.new.items ≡ text.old.items ++ flat_map bar_text bars.now) }
{
    for bar in bars {
        push_bar(text, bar)?;
    }
    Ok(())
}

// Adds lines.
fn push_lines(text: &mut Vec<u8>, lines: &[Line<'_>]) -> Result<(), AllocError>
    ensures { OnOk result (text.new.items ≡ text.old.items ++ flat_map line_text lines.now) }
{
    for line in lines {
        push_line(text, line)?;
    }
    Ok(())
}

/// Appends the picture of a build as one SVG element. `width` and `height` count units. The picture has `words` at its
/// top, below them what each look of a bar stands for, the ticks of the axis, the names of the rows, the bars in the
/// given order, and the lines above the bars.
///
/// # Errors
/// [`AllocError`] only where an allocation was refused.
pub fn push_picture(
    text: &mut Vec<u8>,
    width: u32,
    height: u32,
    words: &[u8],
    rows: &[Row<'_>],
    ticks: &[Tick<'_>],
    bars: &[Bar<'_>],
    lines: &[Line<'_>],
) -> Result<(), AllocError>
    requires { length rows.now < 2 ^ 32 }
    ensures { OnOk result (text.new.items ≡ text.old.items
        ++ picture width height words.now rows.now ticks.now bars.now lines.now) }
{
    push_head(text, u64::from(width), u64::from(height), words)?;
    push_ticks(text, rows.len() as u32, ticks)?;
    push_rows(text, rows)?;
    push_bars(text, bars)?;
    push_lines(text, lines)?;
    text.extend_from_slice(b"</svg>\n")
}
