//! Stamps of files as dates.
use rev_fields::push_number;
use std::alloc::AllocError;

// Nanoseconds of a millisecond, milliseconds of a second, and seconds of a day.
const MILLISECOND: u64 = 1_000_000;

const SECOND: u64 = 1_000;

const DAY: u64 = 86_400;
// A lower stamp is a number that somebody typed: clocks have passed this one since January 12th, 1970.
const LEAST: u64 = 1_000_000_000_000_000;

// A day of the Gregorian calendar.
#[derive(Clone, Copy)]
struct Date {
    year: u64,
    month: u64,
    day: u64,
}

// The month of a year that begins with March.
fn month_of(shifted: u64) -> u64 {
    if shifted < 10 {
        shifted.saturating_add(3)
    } else {
        shifted.saturating_sub(9)
    }
}

// The years that lie behind a day of an era of 400 years.
fn years_of(day: u64) -> u64 {
    let leaps = day / 1_460;
    let centuries = day / 36_524;
    let last = day / 146_096;
    day.saturating_sub(leaps)
        .saturating_add(centuries)
        .saturating_sub(last)
        / 365
}

// The days before a year of an era.
fn days_before(years: u64) -> u64 {
    years
        .saturating_mul(365)
        .saturating_add(years / 4)
        .saturating_sub(years / 100)
}

// The date so many days after January 1st, 1970 (Howard Hinnant, "chrono-Compatible Low-Level Date Algorithms",
// `civil_from_days`): a year begins with March, so that a leap day ends it, and an era of 400 years has 146,097 days.
fn date_of(days: u64) -> Date {
    let shifted = days.saturating_add(719_468);
    let era = shifted / 146_097;
    let of_era = shifted % 146_097;
    let years = years_of(of_era);
    let of_year = of_era.saturating_sub(days_before(years));
    let months = of_year.saturating_mul(5).saturating_add(2) / 153;
    let before = months.saturating_mul(153).saturating_add(2) / 5;
    let month = month_of(months);
    let year = years.saturating_add(era.saturating_mul(400));
    Date {
        year: if month <= 2 {
            year.saturating_add(1)
        } else {
            year
        },
        month,
        day: of_year.saturating_sub(before).saturating_add(1),
    }
}

// Adds a mark, and a number with two digits at least.
fn push_two(text: &mut Vec<u8>, mark: u8, number: u64) -> Result<(), AllocError> {
    text.push(mark)?;
    if number < 10 {
        text.push(b'0')?;
    }
    push_number(text, number)
}

// Adds a point, and a number with three digits at least.
fn push_three(text: &mut Vec<u8>, number: u64) -> Result<(), AllocError> {
    text.push(b'.')?;
    if number < 100 {
        text.push(b'0')?;
    }
    if number < 10 {
        text.push(b'0')?;
    }
    push_number(text, number)
}

// Adds a date.
fn push_date(text: &mut Vec<u8>, date: Date) -> Result<(), AllocError> {
    push_number(text, date.year)?;
    push_two(text, b'-', date.month)?;
    push_two(text, b'-', date.day)
}

/// Adds a stamp, in nanoseconds since 1970 began, as `2026-11-27 12:02:09.552 UTC`. A number that is too low for a clock
/// stays a number.
pub(crate) fn push_moment(text: &mut Vec<u8>, stamp: u64) -> Result<(), AllocError> {
    if stamp < LEAST {
        return push_number(text, stamp);
    }
    let milliseconds = stamp / MILLISECOND;
    let seconds = milliseconds / SECOND;
    let of_day = seconds % DAY;
    push_date(text, date_of(seconds / DAY))?;
    push_two(text, b' ', of_day / 3_600)?;
    push_two(text, b':', of_day / 60 % 60)?;
    push_two(text, b':', of_day % 60)?;
    push_three(text, milliseconds % SECOND)?;
    text.extend_from_slice(b" UTC")
}
