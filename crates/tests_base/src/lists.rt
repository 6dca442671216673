//! Lists at two types of elements, by hand.

use crate::checks::same;
use nav_lists::{Duplicate, Items};
use std::alloc::{AllocError, Global};
use std::process::Abort;

fn numbers(alloc: Global, first: u32, second: u32) -> Result<Items<u32>, AllocError> {
    let mut items = Items::new(alloc);
    items.push(first)?;
    items.push(second)?;
    Ok(items)
}

/// A place, and the number of the list 7, 9 that stands there.
static PLACES: [(usize, Option<u32>); 3] = [(0, Some(7)), (1, Some(9)), (2, None)];

fn check_places(rt: &impl Abort, items: &Items<u32>, rows: &[(usize, Option<u32>)]) {
    for (index, wanted) in rows {
        same(rt, (*index, items.get(*index).copied()), (*index, *wanted));
    }
}

fn check_whole(rt: &impl Abort, items: &Items<u32>) {
    same(rt, (items.len(), items.is_empty()), (2, false));
    same(rt, items.as_slice(), [7, 9].as_slice());
    same(rt, items.iter().copied().max(), Some(9));
}

#[test]
fn reads_items(rt: HostRuntime) -> Result<(), AllocError> {
    let items = numbers(rt.alloc(), 7, 9)?;
    check_whole(&rt, &items);
    check_places(&rt, &items, &PLACES);
    Ok(())
}

#[test]
fn an_empty_list_has_no_items(rt: HostRuntime) {
    let none: Items<u32> = Items::new(rt.alloc());
    same(&rt, (none.len(), none.is_empty()), (0, true));
    same(&rt, none.get(0).copied(), None);
}

/// Whether a list differs from the empty one and from the numbers 7 and 8.
fn differs(alloc: Global, items: &Items<u32>) -> Result<bool, AllocError> {
    let other = numbers(alloc, 7, 8)?;
    Ok(*items != Items::new(alloc) && *items != other)
}

#[test]
fn compares_lists(rt: HostRuntime) -> Result<(), AllocError> {
    let items = numbers(rt.alloc(), 7, 9)?;
    same(&rt, differs(rt.alloc(), &items)?, true);
    Ok(())
}

/// Whether both kinds of copies are the same as the list.
fn has_same_copies<T: Duplicate + Clone + PartialEq>(
    alloc: Global,
    items: &Items<T>,
) -> Result<bool, AllocError> {
    let copy = items.duplicate(alloc)?;
    let clone = items.clone()?;
    Ok(copy == *items && clone == *items)
}

/// The list of the empty list and the numbers 7 and 9.
fn rows(alloc: Global) -> Result<Items<Items<u32>>, AllocError> {
    let mut rows = Items::from_vec(Vec::new(alloc));
    rows.push(Items::new(alloc))?;
    rows.push(numbers(alloc, 7, 9)?)?;
    Ok(rows)
}

#[test]
fn copies_lists(rt: HostRuntime) -> Result<(), AllocError> {
    let items = numbers(rt.alloc(), 7, 9)?;
    same(&rt, has_same_copies(rt.alloc(), &items)?, true);
    Ok(())
}

#[test]
fn copies_lists_of_lists(rt: HostRuntime) -> Result<(), AllocError> {
    let rows = rows(rt.alloc())?;
    same(&rt, has_same_copies(rt.alloc(), &rows)?, true);
    same(&rt, rows.into_vec().len(), 2);
    Ok(())
}
