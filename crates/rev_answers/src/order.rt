//! What another order of events makes, in words and as JSON.
use crate::events::push_numbered;
use crate::object::Object;
use crate::refusals::FULL;
use crate::values::{View, put_event};
use rev_events::Refusal;
use rev_fields::push_number;
use rev_history::History;
use rev_prompt::{Order, Ordered};
use serde_json::Value;
use std::alloc::{AllocError, Global};

// The number of a refusal, or that of a full journal.
fn code_of(refusal: Option<Refusal>) -> u16 {
    match refusal {
        Some(refusal) => refusal.code(),
        None => FULL,
    }
}

// Adds two events that depend on each other and stand the other way round.
fn push_pair(
    text: &mut Vec<u8>,
    history: &History,
    first: u32,
    second: u32,
) -> Result<(), AllocError> {
    text.extend_from_slice(b"order pair ")?;
    push_number(text, u64::from(first))?;
    text.extend_from_slice(b" ")?;
    push_number(text, u64::from(second))?;
    text.extend_from_slice(b": ")?;
    push_numbered(text, history, first)?;
    text.extend_from_slice(b" and ")?;
    push_numbered(text, history, second)?;
    text.extend_from_slice(b" stand the other way round, and one rests on the other\n")
}

// Adds an event that is refused.
fn push_refused(
    text: &mut Vec<u8>,
    history: &History,
    number: u32,
    code: u16,
) -> Result<(), AllocError> {
    text.extend_from_slice(b"order refused ")?;
    push_number(text, u64::from(number))?;
    text.extend_from_slice(b" ")?;
    push_number(text, u64::from(code))?;
    text.extend_from_slice(b": ")?;
    push_numbered(text, history, number)?;
    text.extend_from_slice(b" would be refused there\n")
}

/// Adds what the word `order` tells, as a report has it and in words.
pub(crate) fn push_order(
    text: &mut Vec<u8>,
    history: &History,
    ordered: Ordered,
) -> Result<(), AllocError> {
    match ordered {
        Ordered::Ran(Order::Same) => {
            text.extend_from_slice(b"order same: what rests on what stands as it was kept\n")
        }
        Ordered::Ran(Order::EventsDiffer) => {
            text.extend_from_slice(b"order differ: these are not the events that are kept\n")
        }
        Ordered::Ran(Order::Pair(first, second)) => push_pair(text, history, first, second),
        Ordered::Refused(number, refusal) => {
            push_refused(text, history, number, code_of(refusal))
        }
    }
}

// The word of the answer, the events that it names, and the number of a refusal.
fn parts_of(ordered: Ordered) -> (&'static str, Option<u32>, Option<u32>, Option<u16>) {
    match ordered {
        Ordered::Ran(Order::Same) => ("same", None, None, None),
        Ordered::Ran(Order::EventsDiffer) => ("differ", None, None, None),
        Ordered::Ran(Order::Pair(first, second)) => ("pair", Some(first), Some(second), None),
        Ordered::Refused(number, refusal) => {
            ("refused", Some(number), None, Some(code_of(refusal)))
        }
    }
}

/// The object of the word `order`.
pub(crate) fn order_object(
    alloc: Global,
    view: View<'_>,
    ordered: Ordered,
) -> Result<Object, AllocError> {
    let (word, first, second, code) = parts_of(ordered);
    let mut object = Object::of_kind(alloc, "order")?;
    object.put_text(alloc, "answer", word)?;
    put_event(&mut object, alloc, "first", view, first)?;
    put_event(&mut object, alloc, "second", view, second)?;
    object.put(alloc, "code", Value::from(code))?;
    Ok(object)
}
