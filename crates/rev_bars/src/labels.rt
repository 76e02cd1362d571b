//! The labels of bars.
use rev_picture::Bar;
use std::alloc::{AllocError, Global};

// How many tenths of a unit a letter takes.
const LETTER: u32 = 61;
// The most letters of a label.
const MOST: u32 = 60;

// How many letters a byte of a name takes as people read it.
fn letters_of_byte(byte: u8) -> u32 {
    match byte {
        b' ' | b'\t' | b'\n' | b'\r' | b'\\' => 2,
        0x21..=0x7e => 1,
        _ => 4,
    }
}

// How many bytes from the beginning of a name fit into so many letters.
fn fitting(name: &[u8], room: u32) -> usize {
    let mut letters: u32 = 0;
    for (place, byte) in name.iter().enumerate() {
        letters = letters.saturating_add(letters_of_byte(*byte));
        if letters > room {
            return place;
        }
    }
    name.len()
}

// The last part of a path.
fn last_part(path: &[u8]) -> &[u8] {
    match path.iter().rposition(|byte| *byte == b'/') {
        Some(slash) => match path.get(slash.saturating_add(1)..) {
            Some(part) => part,
            None => path,
        },
        None => path,
    }
}

// The part of a name for which there is room: the whole, its last part, or the beginning of that.
fn part_of(name: &[u8], room: u32) -> Option<&[u8]> {
    if fitting(name, room) == name.len() {
        return Some(name);
    }
    let last = last_part(name);
    if room < 3 {
        return None;
    }
    last.get(..fitting(last, room))
}

// How many letters stand between where a bar's label begins and the bar after it in its row.
fn letters_of(bar: &Bar<'_>, next: u32) -> u32 {
    let begins = if bar.width < 8 {
        bar.left.saturating_add(bar.width)
    } else {
        bar.left
    };
    let units = next.saturating_sub(begins).saturating_sub(6);
    let letters = units.saturating_mul(10) / LETTER;
    if letters > MOST { MOST } else { letters }
}

// The part of a bar's name for which there is room behind its words.
fn label_of<'a>(bar: &Bar<'a>, next: u32) -> Option<&'a [u8]> {
    let letters = letters_of(bar, next);
    let words = bar.words.len();
    if words > letters as usize {
        return None;
    }
    part_of(bar.name, letters - words as u32)
}

/// Gives each bar as much of its label as there is room for, and has it end where the next one of its row begins. The
/// bars of a row stand in the order of their places.
///
/// # Errors
/// [`AllocError`] only where an allocation was refused.
pub(crate) fn label_bars(
    alloc: Global,
    bars: &mut [Bar<'_>],
    rows: u32,
    width: u32,
) -> Result<(), AllocError> {
    let mut nexts = vec![in alloc; width; rows as usize]?;
    for passed in 0..bars.len() {
        let place = bars.len() - 1 - passed;
        let bar = &mut bars[place];
        if let Some(next) = nexts.get_mut(bar.row as usize) {
            let room = next.saturating_sub(bar.left);
            if bar.width > room {
                bar.width = if room < 1 { 1 } else { room };
            }
            bar.label = label_of(bar, *next);
            if bar.left < *next {
                *next = bar.left;
            }
        }
    }
    Ok(())
}
