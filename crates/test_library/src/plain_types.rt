//! Tests of the containers of the crate `plain`, with ample memory, at concrete types.
use crate::shared::{Copied, ascend, finished, holds, is_copied};
use plain::*;
use std::alloc::Global;
use std::process::Abort;

impl Copied for Text {
    fn copied(&self, _alloc: Global) -> Result<Text, NoMemory> {
        self.copy()
    }
}

fn bob(alloc: Global) -> Result<Text, NoMemory> {
    Ok(Text::from_string(String::from_str(alloc, "bob")?))
}

fn is_alice(id: &Text, later: &Text) -> bool {
    id.as_str() == "alice" && id.len() == 5 && !id.same(later)
}

fn is_bob(rt: &impl Abort, later: Text) {
    holds(rt, later.into_string().as_str() == "bob", "bob");
}

#[test]
fn texts(rt: HostRuntime) -> Result<(), NoMemory> {
    let alloc = rt.alloc();
    let (id, later) = both(Text::from_str(alloc, "alice"), bob(alloc))?;
    holds(&rt, is_alice(&id, &later), "alice");
    is_bob(&rt, later);
    is_copied(&rt, alloc, Ok(id))
}

fn are_the_same(rt: &impl Abort, pair: Result<(Text, Text), NoMemory>) -> Result<(), NoMemory> {
    let (id, copy) = pair?;
    holds(rt, id.same(&copy), "they are the same");
    Ok(())
}

#[test]
fn copied_texts(rt: HostRuntime) -> Result<(), NoMemory> {
    let id = Text::from_str(rt.alloc(), "alice")?;
    let copy = id.copy();
    are_the_same(&rt, both(Ok(id), copy))
}

fn push_two(items: &mut Items<u8>, last: u8) -> Result<(), NoMemory> {
    items.push(7)?;
    items.push(last)
}

// Returns the list of 7 and another number.
fn two(alloc: Global, last: u8) -> Result<Items<u8>, NoMemory> {
    let mut items = Items::<u8>::new(alloc);
    let done = push_two(&mut items, last);
    finished(items, done)
}

fn last_of(items: &Items<u8>) -> u8 {
    let mut last = 0;
    for item in items {
        last = *item;
    }
    last
}

fn has_two(items: &Items<u8>) -> bool {
    items.len() == 2 && items.get(1).copied() == Some(9) && items.get(2).is_none()
}

fn goes_over_two(items: &Items<u8>) -> bool {
    items.iter().copied().max() == Some(9) && last_of(items) == 9
}

fn is_two(rt: &impl Abort, items: Items<u8>) {
    holds(rt, has_two(&items) && goes_over_two(&items), "two items");
    let again = Items::from_vec(items.into_vec());
    holds(rt, again.as_slice() == [7, 9].as_slice(), "the same two");
}

#[test]
fn lists(rt: HostRuntime) -> Result<(), NoMemory> {
    let alloc = rt.alloc();
    holds(&rt, Items::<u8>::new(alloc).is_empty(), "no items");
    is_two(&rt, two(alloc, 9)?);
    Ok(())
}

fn one(alloc: Global) -> Result<Items<u8>, NoMemory> {
    let mut items = Items::<u8>::new(alloc);
    let done = items.push(7);
    finished(items, done)
}

#[test]
fn boxes(rt: HostRuntime) -> Result<(), NoMemory> {
    let boxed = Boxed::<u8>::new(rt.alloc(), 7)?;
    holds(&rt, *boxed == 7, "a boxed number");
    let again = Boxed::from_box(boxed.into_box());
    holds(&rt, again.into_inner() == 7, "the same number");
    Ok(())
}

fn is_seven(rt: &impl Abort, other: Shared<u8>) {
    holds(rt, *other == 7, "a shared number");
}

#[test]
fn shares(rt: HostRuntime) -> Result<(), NoMemory> {
    let one = Shared::<u8>::new(rt.alloc(), 7)?;
    let other = one.share();
    drop(one);
    is_seven(&rt, other?);
    Ok(())
}

// Compares texts, and lists.
fn compares_lists(rt: &impl Abort, alloc: Global) -> Result<(), NoMemory> {
    ascend(
        rt,
        both(Text::from_str(alloc, "alice"), bob(alloc)),
        "texts",
    )?;
    ascend(rt, both(one(alloc), two(alloc, 1)), "lists")
}

// Compares containers of one value.
fn compares_values(rt: &impl Abort, alloc: Global) -> Result<(), NoMemory> {
    ascend(
        rt,
        both(Boxed::new(alloc, 1u8), Boxed::new(alloc, 2u8)),
        "boxes",
    )?;
    ascend(
        rt,
        both(Shared::new(alloc, 1u8), Shared::new(alloc, 2u8)),
        "shares",
    )
}

#[test]
fn compared(rt: HostRuntime) -> Result<(), NoMemory> {
    let alloc = rt.alloc();
    compares_lists(&rt, alloc)?;
    compares_values(&rt, alloc)
}
