//! A pool of three places, read both ways.
ghost use Rattle.std.specs.Prelude.{◌≡◌, ◌<◌, IfSome};
ghost use Rattle.stream_buffers.specs.Pool.{Holds};

use ao_base::Steps;
use std::marker::Brand;
use std::sync::ledger::{Blank, Ledger};
use std::test::Fail;
use stream_buffers::{Slot, Slots};

#[test]
fn three_places_are_used_again_and_read_both_ways(rt: HostRuntime) -> Result<(), Fail> {
    let mut list = Slots::new(rt.alloc(), 3)?;
    assert!(rt; are_used_again::<Brand>(&mut list, Blank::new(1)));
    Ok(())
}

/// Whether three places are filled, and one that is left is filled again.
fn are_used_again<L: Ledger>(list: &mut Slots<u8>, blank: Blank) -> bool
    requires name { blank.name ≡ L.name }
    requires parts { blank.parts ≡ L.parts }
    requires part { 0 < blank.parts }
{
    let mut steps = Steps::<L>::new(blank);
    let steps = &mut steps;
    are_filled(list, steps)
        && remove_at(list, 1, steps) == Some(2)
        && reads(list, &[1, 3], steps)
        && insert_first(list, 0) == Ok(())
        && set_at(list, 2, 5, steps)
        && reads(list, &[0, 1, 5], steps)
}

/// Whether a new list of three places takes three items, in their order, and hands a fourth back.
fn are_filled<L: Ledger>(list: &mut Slots<u8>, steps: &mut Steps<L>) -> bool {
    reads(list, &[], steps)
        && insert_first(list, 1) == Ok(())
        && insert_behind(list, 0, 3, steps)
        && insert_behind(list, 0, 2, steps)
        && reads(list, &[1, 2, 3], steps)
        && insert_first(list, 4) == Err(4)
        && reads(list, &[1, 2, 3], steps)
}

/// The slot of an item by its place, counted from 0.
fn slot_at<L: Ledger>(list: &Slots<u8>, place: usize, steps: &mut Steps<L>) -> Option<Slot>
    ensures { IfSome result (λ slot. Holds list.now.pairs slot) }
{
    let mut at = list.first();
    for _ in 0..place {
        match at {
            Some(slot) => at = list.next(slot, steps),
            None => return None,
        }
    }
    at
}

/// Puts an item in front, or hands it back.
fn insert_first(list: &mut Slots<u8>, item: u8) -> Result<(), u8> {
    match list.insert_after(None, item) {
        Ok(_) => Ok(()),
        Err(back) => Err(back),
    }
}

fn insert_behind<L: Ledger>(
    list: &mut Slots<u8>,
    place: usize,
    item: u8,
    steps: &mut Steps<L>,
) -> bool {
    match slot_at(list, place, steps) {
        Some(slot) => list.insert_after(Some(slot), item).is_ok(),
        None => false,
    }
}

fn remove_at<L: Ledger>(list: &mut Slots<u8>, place: usize, steps: &mut Steps<L>) -> Option<u8> {
    match slot_at(list, place, steps) {
        Some(slot) => Some(list.remove(slot)),
        None => None,
    }
}

fn set_at<L: Ledger>(list: &mut Slots<u8>, place: usize, item: u8, steps: &mut Steps<L>) -> bool {
    match slot_at(list, place, steps) {
        Some(slot) => {
            list.set(slot, item);
            true
        }
        None => false,
    }
}

/// Whether the list has these items, read from its front and from its back.
fn reads<L: Ledger>(list: &Slots<u8>, items: &[u8], steps: &mut Steps<L>) -> bool {
    let mut last = None;
    let mut at = list.first();
    for item in items {
        let Some(slot) = at else { return false };
        if list.get(slot) != *item {
            return false;
        }
        last = at;
        at = list.next(slot, steps);
    }
    at.is_none() && reads_back(list, items, last, steps)
}

fn reads_back<L: Ledger>(
    list: &Slots<u8>,
    items: &[u8],
    mut at: Option<Slot>,
    steps: &mut Steps<L>,
) -> bool
    requires { IfSome at (λ slot. Holds list.now.pairs slot) }
{
    for item in items.iter().rev() {
        let Some(slot) = at else { return false };
        if list.get(slot) != *item {
            return false;
        }
        at = list.prev(slot, steps);
    }
    at.is_none()
}
