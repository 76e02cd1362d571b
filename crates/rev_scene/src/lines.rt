//! The deeds of lines.
ghost use Rattle.std.specs.Prelude.{◌≡◌, ◌++◌, map, OnOk};
ghost use Rattle.rev_scene.specs.Lines.{act_at, acts_by, acts_of, acts_of_line, ninja_acts, ninja_line};

use crate::words::{ninja_word, word_of};
use rev_entry_conflicts::{Deed, Word};
use rev_observation::Line;
use rev_observed::PathRange;
use std::alloc::AllocError;

// Adds a deed for each of some ranges.
fn add_ranges(word: Word, ranges: &[PathRange], deeds: &mut Vec<Deed>) -> Result<(), AllocError>
    ensures { OnOk result (deeds.new.items ≡ deeds.old.items ++ map (act_at word) ranges.now) }
{
    for range in ranges {
        deeds.push(Deed {
            word,
            first: range.first,
            last: range.last,
        })?;
    }
    Ok(())
}

// Adds the deeds of a line that has a word, or none.
fn add_by(word: Option<Word>, ranges: &[PathRange], deeds: &mut Vec<Deed>) -> Result<(), AllocError>
    ensures { OnOk result (deeds.new.items ≡ deeds.old.items ++ acts_by word ranges.now) }
{
    match word {
        Some(word) => add_ranges(word, ranges, deeds),
        None => Ok(()),
    }
}

// Adds the deeds of a line.
fn add_line(line: &Line, deeds: &mut Vec<Deed>) -> Result<(), AllocError>
    ensures { OnOk result (deeds.new.items ≡ deeds.old.items ++ acts_of_line line.now) }
{
    add_by(word_of(line.deed), line.entries.ranges(), deeds)
}

/// Adds the deeds of a command's lines.
pub(crate) fn add_lines(lines: &[Line], deeds: &mut Vec<Deed>) -> Result<(), AllocError>
    ensures { OnOk result (deeds.new.items ≡ deeds.old.items ++ acts_of lines.now) }
{
    for line in lines {
        add_line(line, deeds)?;
    }
    Ok(())
}

// Adds the deeds of a line of Ninja's own.
fn add_ninja_line(line: &Line, deeds: &mut Vec<Deed>) -> Result<(), AllocError>
    ensures { OnOk result (deeds.new.items ≡ deeds.old.items ++ ninja_line line.now) }
{
    add_by(ninja_word(line.deed), line.entries.ranges(), deeds)
}

/// Adds the deeds of Ninja's own lines.
pub(crate) fn add_ninja_lines(lines: &[Line], deeds: &mut Vec<Deed>) -> Result<(), AllocError>
    ensures { OnOk result (deeds.new.items ≡ deeds.old.items ++ ninja_acts lines.now) }
{
    for line in lines {
        add_ninja_line(line, deeds)?;
    }
    Ok(())
}
