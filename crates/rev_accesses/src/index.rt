//! Numbers at places.
ghost use Rattle.std.specs.Prelude.{◌≡◌, ◌<◌, ◌≤◌, ℕ, ◌||◌, ◌∷◌, [], true, length, OnOk};
ghost use Rattle.rev_causal.specs.AccessLists.{first_above as first_above_in};
ghost use Rattle.rev_causal.specs.Chosen.{IsRising, is_among};
ghost use Rattle.rev_order.specs.Overtaken.{first_overtaking as first_overtaking_in};
ghost use Rattle.rev_accesses.specs.Following.{is_first_under, is_user_under};
ghost use Rattle.rev_accesses.specs.Thinned.{AreThinnedUnder, IsGoneUnder};
ghost use Rattle.rev_accesses.specs.Inverted.{first_inverted_among, partner_at};
ghost use Rattle.rev_accesses.specs.Users.{IsSame, listed, other};
ghost use Rattle.rev_accesses.specs.declared.users.Access.{Access};
ghost use Rattle.rev_accesses.specs.declared.users.Access.TheVariants.{Read, Write};
ghost use Rattle.rev_accesses.specs.Value.{PartlyPut, PutUnder, TakenFrom, nearest_at, numbers_at};

use crate::between::add_between;
use crate::pending::Pending;
use crate::users::{Access, Users};
use rev_numbers::lesser;
use rev_order::first_overtaking;
use std::alloc::{AllocError, Global};

// Adds lists that are empty until one stands at a place.
fn reach(alloc: Global, index: &mut Vec<Users>, place: usize) -> Result<(), AllocError>
    ensures within { OnOk result (place < length index.new.items) }
    ensures same { (access : Access) → IsSame (listed access index.old.items) (listed access index.new.items) }
{
    while index.len() <= place {
        index.push(Users::none(alloc))?;
    }
    Ok(())
}

// Puts a number into one of the lists at a place that has lists, unless it is there.
fn put_there(
    index: &mut Vec<Users>,
    access: Access,
    place: usize,
    number: u32,
) -> Result<(), AllocError>
    requires { place < length index.old.items }
    ensures ok { OnOk result (PutUnder number (place ∷ [])
        (listed access index.old.items) (listed access index.new.items)) }
    ensures partly { PartlyPut number (place ∷ []) (listed access index.old.items) (listed access index.new.items) }
    ensures rest { IsSame (listed (other access) index.old.items) (listed (other access) index.new.items) }
{
    index[place].put(access, number)?;
    Ok(())
}

// Puts a number into one of the lists at a place, unless it is there.
fn put_at(
    alloc: Global,
    index: &mut Vec<Users>,
    access: Access,
    place: u32,
    number: u32,
) -> Result<(), AllocError>
    ensures ok { OnOk result (PutUnder number (place ∷ [])
        (listed access index.old.items) (listed access index.new.items)) }
    ensures partly { PartlyPut number (place ∷ []) (listed access index.old.items) (listed access index.new.items) }
    ensures rest { IsSame (listed (other access) index.old.items) (listed (other access) index.new.items) }
{
    reach(alloc, index, place as usize)?;
    put_there(index, access, place as usize, number)?;
    Ok(())
}

// Takes a number out of one of the lists at a place, if it is there.
fn take_at(index: &mut Vec<Users>, access: Access, place: u32, number: u32)
    ensures taken { TakenFrom number (place ∷ []) (listed access index.old.items) (listed access index.new.items) }
    ensures rest { IsSame (listed (other access) index.old.items) (listed (other access) index.new.items) }
{
    if (place as usize) < index.len() {
        index[place as usize].take(access, number);
    }
}

// Removes `number`, one of `members`, from one of the lists at a place; may remove other members too.
fn remove_member_at(
    index: &mut Vec<Users>,
    access: Access,
    place: u32,
    number: u32,
    members: &[u32],
)
    requires rising { IsRising members.now }
    requires member { is_among members.now number ≡ true }
    ensures thinned { AreThinnedUnder members.now (listed access index.old.items) (listed access index.new.items) }
    ensures gone { IsGoneUnder number (place ∷ []) (listed access index.new.items) }
    ensures rest { IsSame (listed (other access) index.old.items) (listed (other access) index.new.items) }
{
    if (place as usize) < index.len() {
        index[place as usize].remove_members(access, number, members);
    }
}

/// The first number above another in one of the lists at a place.
pub(crate) fn first_at(index: &[Users], access: Access, place: usize, number: u32) -> Option<u32>
    ensures { result ≡ first_above_in number (numbers_at (listed access index.now) place) }
{
    match index.get(place) {
        Some(users) => users.numbers(access).first_above(number),
        None => None,
    }
}

/// Puts a number into one of the lists at each of some places. At an error it may stand in some of them.
pub(crate) fn put_all(
    alloc: Global,
    index: &mut Vec<Users>,
    access: Access,
    places: &[u32],
    number: u32,
) -> Result<(), AllocError>
    ensures ok { OnOk result (PutUnder number places.now
        (listed access index.old.items) (listed access index.new.items)) }
    ensures partly { PartlyPut number places.now (listed access index.old.items) (listed access index.new.items) }
    ensures rest { IsSame (listed (other access) index.old.items) (listed (other access) index.new.items) }
{
    for place in places {
        put_at(alloc, index, access, *place, number)?;
    }
    Ok(())
}

/// Takes a number out of one of the lists at each of some places. It takes no memory.
pub(crate) fn take_all(index: &mut Vec<Users>, access: Access, places: &[u32], number: u32)
    ensures taken { TakenFrom number places.now (listed access index.old.items) (listed access index.new.items) }
    ensures rest { IsSame (listed (other access) index.old.items) (listed (other access) index.new.items) }
{
    for place in places {
        take_at(index, access, *place, number);
    }
}

/// Removes `number`, one of `members`, from one of the lists at each of some places; may remove other members too. It
/// takes no memory.
pub(crate) fn remove_members_at(
    index: &mut Vec<Users>,
    access: Access,
    places: &[u32],
    number: u32,
    members: &[u32],
)
    requires rising { IsRising members.now }
    requires member { is_among members.now number ≡ true }
    ensures thinned { AreThinnedUnder members.now (listed access index.old.items) (listed access index.new.items) }
    ensures gone { IsGoneUnder number places.now (listed access index.new.items) }
    ensures rest { IsSame (listed (other access) index.old.items) (listed (other access) index.new.items) }
{
    for place in places {
        remove_member_at(index, access, *place, number, members);
    }
}

/// The least number above another of those that access a cell at one of some places in one way. It takes no memory.
pub(crate) fn nearest(index: &[Users], access: Access, places: &[u32], number: u32) -> Option<u32>
    ensures { result ≡ nearest_at number (listed access index.now) places.now }
{
    let mut least = None;
    for place in places {
        least = lesser(least, first_at(index, access, *place as usize, number));
    }
    least
}

// Adds to the pending numbers the first writer above one at a place.
fn add_first_at(
    pending: &mut Pending,
    index: &[Users],
    place: u32,
    number: u32,
) -> Result<(), AllocError>
    ensures { OnOk result ((k : ℕ) → is_among pending.new k
        ≡ (is_first_under number (listed Write index.now) (place ∷ []) k || is_among pending.old k)) }
{
    match index.get(place as usize) {
        Some(users) => {
            pending.add_some(users.writers.first_above(number))?;
            Ok(())
        }
        None => Ok(()),
    }
}

// Adds to the pending numbers the first writer above one at a place, and the readers before that writer.
fn add_users_at(
    pending: &mut Pending,
    index: &[Users],
    place: u32,
    number: u32,
) -> Result<(), AllocError>
    ensures { OnOk result ((k : ℕ) → is_among pending.new k
        ≡ (is_user_under number (listed Write index.now) (listed Read index.now) (place ∷ []) k
        || is_among pending.old k)) }
{
    match index.get(place as usize) {
        Some(users) => {
            let next = users.writers.first_above(number);
            pending.add_some(next)?;
            add_between(pending, users.readers.as_slice(), number, next)?;
            Ok(())
        }
        None => Ok(()),
    }
}

/// Adds to the pending numbers the first writer above one at each of some places.
pub(crate) fn add_firsts(
    pending: &mut Pending,
    index: &[Users],
    places: &[u32],
    number: u32,
) -> Result<(), AllocError>
    ensures { OnOk result ((k : ℕ) → is_among pending.new k
        ≡ (is_first_under number (listed Write index.now) places.now k || is_among pending.old k)) }
{
    for place in places {
        add_first_at(pending, index, *place, number)?;
    }
    Ok(())
}

/// Adds to the pending numbers, at each of some places, the first writer above one and the readers before that writer.
pub(crate) fn add_users(
    pending: &mut Pending,
    index: &[Users],
    places: &[u32],
    number: u32,
) -> Result<(), AllocError>
    ensures { OnOk result ((k : ℕ) → is_among pending.new k
        ≡ (is_user_under number (listed Write index.now) (listed Read index.now) places.now k
        || is_among pending.old k)) }
{
    for place in places {
        add_users_at(pending, index, *place, number)?;
    }
    Ok(())
}

/// The least number that another overtakes which accesses the same cell, where one of the two writes it. Time is
/// linear in the lists of all places.
pub(crate) fn first_inverted(index: &[Users], places: &[u32]) -> Option<u32>
    ensures { result ≡ first_inverted_among places.now index.now }
{
    let mut least = None;
    for users in index {
        least = lesser(least, users.first_inverted(places));
    }
    least
}

// The first of those that access the cell at a place in one way which overtakes a number.
fn partner_in(
    index: &[Users],
    access: Access,
    places: &[u32],
    place: u32,
    number: u32,
) -> Option<u32>
    ensures { result ≡ first_overtaking_in places.now number (numbers_at (listed access index.now) place) }
{
    match index.get(place as usize) {
        Some(users) => first_overtaking(places, number, users.numbers(access).as_slice()),
        None => None,
    }
}

/// The least of those that access a cell at one of some places in one way which overtakes a number, by the places of
/// the numbers in another list.
pub(crate) fn partner(
    index: &[Users],
    access: Access,
    places: &[u32],
    cells: &[u32],
    number: u32,
) -> Option<u32>
    ensures { result ≡ partner_at places.now number (listed access index.now) cells.now }
{
    let mut least = None;
    for cell in cells {
        least = lesser(least, partner_in(index, access, places, *cell, number));
    }
    least
}
