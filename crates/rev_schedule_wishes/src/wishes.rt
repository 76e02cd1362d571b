//! What is asked of a schedule, read from words.
ghost use Rattle.std.specs.Prelude.{◌<◌, IfSome};

use rev_fields::{LineFault, number, read_fields, wide_numbers};
use std::alloc::{AllocError, Global};

// The most numbers of jobs that one question may have: each takes a schedule.
const MOST_JOBS: usize = 32;
// How many thousandths a whole has.
const WHOLE: u32 = 1000;

/// Why a word asks for nothing.
#[derive(Clone, Copy, Debug, PartialEq, Eq)]
pub enum WishFault {
    /// It is not of the form that is asked for.
    Form,
    /// The system refused memory.
    Memory,
}

impl From<AllocError> for WishFault {
    fn from(_error: AllocError) -> WishFault {
        WishFault::Memory
    }
}

impl<T: Drop> From<std::alloc::AllocFailed<T>> for WishFault {
    fn from(_error: std::alloc::AllocFailed<T>) -> WishFault {
        WishFault::Memory
    }
}

impl From<LineFault> for WishFault {
    fn from(fault: LineFault) -> WishFault {
        match fault {
            LineFault::Memory => WishFault::Memory,
            _ => WishFault::Form,
        }
    }
}

// A number of jobs.
fn job_count(number: u64) -> Option<u32>
    ensures { IfSome result (λ n. 0 < n) }
{
    match u32::try_from(number) {
        Ok(number) if number > 0 => Some(number),
        _ => None,
    }
}

/// The numbers of jobs that a text names with commas between them: at most 32, and each from 1 to 2^32 - 1.
///
/// # Errors
/// [`WishFault::Form`] where the text is another; [`WishFault::Memory`] only where an allocation was refused.
pub fn jobs_in(alloc: Global, text: &[u8]) -> Result<Vec<u32>, WishFault> {
    let numbers = wide_numbers(alloc, text)?;
    let mut jobs = Vec::new(alloc);
    for number in &numbers {
        let Some(count) = job_count(*number) else {
            return Err(WishFault::Form);
        };
        jobs.push(count)?;
    }
    if jobs.len() > MOST_JOBS {
        return Err(WishFault::Form);
    }
    Ok(jobs)
}

/// How many times as fast, in thousandths.
#[derive(Clone, Copy, Debug, PartialEq, Eq)]
pub struct Factor(u32);

// The thousandths of a text with at most three digits, as `5` of 1.5.
fn thousandths(text: &[u8]) -> Option<u32> {
    let scale = match text.len() {
        1 => 100,
        2 => 10,
        3 => 1,
        _ => return None,
    };
    let mut value: u32 = 0;
    for byte in text {
        if !byte.is_ascii_digit() {
            return None;
        }
        value = value
            .saturating_mul(10)
            .saturating_add(u32::from(byte.saturating_sub(b'0')));
    }
    Some(value.saturating_mul(scale))
}

// The factor that a text writes, as `2` or `1.5`: more than 0.
fn factor_in(text: &[u8]) -> Option<Factor> {
    let mut parts = text.split(|byte| *byte == b'.');
    let whole = number(parts.next()?).ok()?;
    let fraction = match parts.next() {
        Some(digits) => thousandths(digits)?,
        None => 0,
    };
    if parts.next().is_some() {
        return None;
    }
    match whole.checked_mul(WHOLE)?.checked_add(fraction)? {
        0 => None,
        thousandths => Some(Factor(thousandths)),
    }
}

/// How long a command takes that is so many times as fast as one that takes `duration`, in the same unit, without a
/// fraction.
pub fn sooner(duration: u32, factor: Factor) -> u32 {
    let whole = u64::from(duration).saturating_mul(u64::from(WHOLE));
    let taken = whole.checked_div(u64::from(factor.0)).unwrap_or(u64::MAX);
    u32::try_from(taken).unwrap_or(u32::MAX)
}

/// A command that is to be faster.
#[derive(Clone, Copy)]
pub struct Faster<'a> {
    /// An output of its edge.
    pub out: &'a [u8],
    /// How many times as fast.
    pub factor: Factor,
}

// What stands before and behind the last `=` of a text.
fn around_last(text: &[u8]) -> Option<(&[u8], &[u8])> {
    let place = text.iter().rposition(|byte| *byte == b'=')?;
    Some((text.get(..place)?, text.get(place.saturating_add(1)..)?))
}

/// The command and the factor that a text `OUT=FACTOR` names: FACTOR is decimal, as `2` or `1.5`, and more than 0.
pub fn faster_in(text: &[u8]) -> Option<Faster<'_>> {
    let (out, digits) = around_last(text)?;
    let factor = factor_in(digits)?;
    Some(Faster { out, factor })
}

/// A pool that is to have another depth.
#[derive(Clone, Copy)]
pub struct PoolDepth<'a> {
    /// Its name.
    pub name: &'a [u8],
    /// The depth: 0 for no limit.
    pub depth: u32,
}

/// The pool and the depth that a text `NAME=DEPTH` names.
pub fn pool_in(text: &[u8]) -> Option<PoolDepth<'_>> {
    let (name, digits) = around_last(text)?;
    let depth = number(digits).ok()?;
    Some(PoolDepth { name, depth })
}

/// An edge that is not to wait for a maker: both are named by an output.
pub struct Waiting {
    /// The line, from 1.
    pub line: u64,
    /// An output of the edge.
    pub out: Vec<u8>,
    /// An output of the maker.
    pub input: Vec<u8>,
}

// Written, since a derived drop is proved again at each exit of each caller.
impl Drop for Waiting {
    fn drop(self) {
        let Waiting {
            line: _line,
            out: _out,
            input: _input,
        } = self;
    }
}

/// Why a text names no edges that are not to wait.
#[derive(Clone, Copy, Debug, PartialEq, Eq)]
pub enum WaitingFault {
    /// The line of this number, from 1, does not have two fields.
    Line(u64),
    /// The system refused memory.
    Memory,
}

impl From<AllocError> for WaitingFault {
    fn from(_error: AllocError) -> WaitingFault {
        WaitingFault::Memory
    }
}

impl<T: Drop> From<std::alloc::AllocFailed<T>> for WaitingFault {
    fn from(_error: std::alloc::AllocFailed<T>) -> WaitingFault {
        WaitingFault::Memory
    }
}

// What a line of this number names.
fn waiting_in(alloc: Global, line: &[u8], number: u64) -> Result<Waiting, WaitingFault> {
    let fields = match read_fields(alloc, line) {
        Ok(fields) => fields,
        Err(LineFault::Memory) => return Err(WaitingFault::Memory),
        Err(_) => return Err(WaitingFault::Line(number)),
    };
    let [out, input] = fields.as_slice() else {
        return Err(WaitingFault::Line(number));
    };
    Ok(Waiting {
        line: number,
        out: Vec::from_slice(alloc, out)?,
        input: Vec::from_slice(alloc, input)?,
    })
}

/// The edges that a text names, each in a line `OUT INPUT` of two fields: the edge of OUT is not to wait for the maker of
/// INPUT. Empty lines and lines that begin with `#` name nothing.
///
/// # Errors
/// [`WaitingFault::Line`] with the first line of another form; [`WaitingFault::Memory`] only where an allocation was
/// refused.
pub fn waits_in(alloc: Global, text: &[u8]) -> Result<Vec<Waiting>, WaitingFault> {
    let mut waits = Vec::new(alloc);
    let mut number: u64 = 0;
    for line in text.split(|byte| *byte == b'\n') {
        number = number.saturating_add(1);
        if !line.is_empty() && !line.starts_with(b"#") {
            waits.push(waiting_in(alloc, line, number)?)?;
        }
    }
    Ok(waits)
}
