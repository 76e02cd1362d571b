//! Decimal numbers.
ghost use Rattle.std.specs.Prelude.{◌≡◌, ◌++◌, ◌∷◌, ◌^◌, OnOk, decimal};
ghost use Rattle.std.specs.List.{flat_map, list_all};
ghost use Rattle.std.specs.Char.{is_ascii_digit};
ghost use Rattle.rev_fields.specs.Faults.{Answers};
ghost use Rattle.rev_fields.specs.Fields.{spaced};
ghost use Rattle.rev_fields.specs.Numbers.{is_decimal, number_below, numbers_below, numbers_text};

use crate::faults::{FaultKind, LineFault};
use crate::parts::parts_at;
use itoa::Buffer;
use std::alloc::{AllocError, Global};
use std::str;

const BAD_NUMBER: LineFault = LineFault::Kind(FaultKind::Number);

// Whether all bytes are digits.
fn are_digits(text: &[u8]) -> bool
    ensures { result ≡ list_all is_ascii_digit text.now }
{
    text.iter().all(|b| b.is_ascii_digit())
}

// Whether a text is a decimal number with no zero in front of other digits.
fn is_plain(text: &[u8]) -> bool
    ensures { result ≡ is_decimal text.now }
{
    match text {
        [] => false,
        [digit] => digit.is_ascii_digit(),
        [first, ..] => *first != b'0' && are_digits(text),
    }
}

/// The number that a text writes in decimal digits, of 64 bits.
pub fn wide_number(text: &[u8]) -> Result<u64, LineFault>
    ensures { Answers result (λ n. n) (number_below (2 ^ 64) text.now) }
{
    if !is_plain(text) {
        return Err(BAD_NUMBER);
    }
    let Ok(digits) = str::from_utf8(text) else {
        return Err(BAD_NUMBER);
    };
    match digits.parse::<u64>() {
        Ok(number) => Ok(number),
        Err(_) => Err(BAD_NUMBER),
    }
}

/// The number that a text writes in decimal digits, of 32 bits.
pub fn number(text: &[u8]) -> Result<u32, LineFault>
    ensures { Answers result (λ n. n) (number_below (2 ^ 32) text.now) }
{
    match u32::try_from(wide_number(text)?) {
        Ok(number) => Ok(number),
        Err(_) => Err(BAD_NUMBER),
    }
}

/// The numbers of 64 bits that a text writes with commas between them.
pub fn wide_numbers(alloc: Global, text: &[u8]) -> Result<Vec<u64>, LineFault>
    ensures { Answers result (λ numbers. numbers.items) (numbers_below (2 ^ 64) text.now) }
{
    let parts = parts_at(alloc, text, b',')?;
    let mut numbers = Vec::with_capacity(alloc, parts.len())?;
    for part in &parts {
        let number = wide_number(part)?;
        numbers.push(number)?;
    }
    Ok(numbers)
}

/// Adds the decimal digits of a number.
pub fn push_number(line: &mut Vec<u8>, number: u64) -> Result<(), AllocError>
    ensures { OnOk result (line.new.items ≡ line.old.items ++ decimal number) }
{
    let mut digits = Buffer::new();
    line.extend_from_slice(digits.format(number).as_bytes())
}

/// Adds a space and the decimal digits of a number.
pub fn next_number(line: &mut Vec<u8>, number: u64) -> Result<(), AllocError>
    ensures { OnOk result (line.new.items ≡ line.old.items ++ spaced (decimal number)) }
{
    line.push(b' ')?;
    push_number(line, number)
}

// Adds numbers, each with a comma before it.
fn push_further(line: &mut Vec<u8>, numbers: &[u64]) -> Result<(), AllocError>
    ensures { OnOk result (line.new.items ≡ line.old.items ++ flat_map (λ n. 44 ∷ decimal n) numbers.now) }
{
    for number in numbers {
        line.push(b',')?;
        push_number(line, *number)?;
    }
    Ok(())
}

/// Adds a space and numbers with commas between them.
pub fn next_numbers(line: &mut Vec<u8>, numbers: &[u64]) -> Result<(), AllocError>
    ensures { OnOk result (line.new.items ≡ line.old.items ++ spaced (numbers_text numbers.now)) }
{
    line.push(b' ')?;
    let Some((first, further)) = numbers.split_first() else {
        return Ok(());
    };
    push_number(line, *first)?;
    push_further(line, further)
}
