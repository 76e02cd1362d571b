//! The line of the word `order`.
ghost use Rattle.std.specs.Prelude.{◌≡◌, ◌++◌, codes, decimal, IfOk};
ghost use Rattle.rev_history.specs.Order.{answer_of};
ghost use Rattle.rev_order_text.specs.Ordered.{outcome_of};
ghost use Rattle.rev_order_text.specs.Orders.{answer_text as answer_text_of, code_in, order_line, order_text as order_text_of};

use crate::ordered::{Ordered, run_in_order};
use rev_events::Refusal;
use rev_fields::push_number;
use rev_history::{History, Order};
use std::alloc::{AllocError, Global};

/// The code of a journal that has no room for an entry.
const FULL: u16 = 94;

// The code of a refusal; where there is none, that of a full journal.
fn code_of(refusal: Option<Refusal>) -> u16
    ensures { result ≡ code_in refusal }
{
    match refusal {
        Some(refusal) => refusal.code(),
        None => FULL,
    }
}

// What the order check answered, as a line.
fn answer_text(alloc: Global, order: Order) -> Result<Vec<u8>, AllocError>
    ensures { IfOk result (λ text. text.items ≡ answer_text_of (answer_of order)) }
{
    match order {
        Order::EventsDiffer => Vec::from_slice(alloc, b"order differ\n"),
        Order::Same => Vec::from_slice(alloc, b"order same\n"),
        Order::Pair(first, second) => {
            let mut text = Vec::from_slice(alloc, b"order pair ")?;
            push_number(&mut text, u64::from(first))?;
            text.extend_from_slice(b" ")?;
            push_number(&mut text, u64::from(second))?;
            text.extend_from_slice(b"\n")?;
            Ok(text)
        }
    }
}

// The first number whose event was refused, with the code, as a line.
fn refused_text(alloc: Global, number: u32, code: u16) -> Result<Vec<u8>, AllocError>
    ensures { IfOk result (λ text. text.items
        ≡ codes "order refused " ++ decimal number ++ codes " " ++ decimal code ++ codes "\n") }
{
    let mut text = Vec::from_slice(alloc, b"order refused ")?;
    push_number(&mut text, u64::from(number))?;
    text.extend_from_slice(b" ")?;
    push_number(&mut text, u64::from(code))?;
    text.extend_from_slice(b"\n")?;
    Ok(text)
}

// The line of what another order of events makes.
fn ordered_text(alloc: Global, ordered: Ordered) -> Result<Vec<u8>, AllocError>
    ensures { IfOk result (λ text. text.items ≡ order_line (outcome_of ordered)) }
{
    match ordered {
        Ordered::Ran(order) => answer_text(alloc, order),
        Ordered::Refused(number, why) => refused_text(alloc, number, code_of(why)),
    }
}

/// The line of `order N...`, of what these events make in this order ([`run_in_order`]).
pub fn order_text(alloc: Global, history: &History, numbers: &[u32]) -> Result<Vec<u8>, AllocError>
    ensures { IfOk result (λ text. text.items ≡ order_text_of history.now.timeline numbers.now) }
{
    let ordered = run_in_order(history, numbers)?;
    ordered_text(alloc, ordered)
}
