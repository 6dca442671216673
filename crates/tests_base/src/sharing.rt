//! Shared values, and values that hold them, seen as what they hold.

use crate::checks::same;
use nav_lists::{Duplicate, Items, Shared};
use std::alloc::{AllocError, Global};

/// The list of the number 7, shared.
fn shared(alloc: Global) -> Result<Shared<Items<u32>>, AllocError> {
    let mut numbers = Items::new(alloc);
    numbers.push(7)?;
    Ok(Shared::new(alloc, numbers)?)
}

/// A second owner of what the first owns, and whether both see the same.
fn second_of(first: Shared<Items<u32>>) -> Result<(Shared<Items<u32>>, bool), AllocError> {
    let second = first.share()?;
    let is_same = first == second;
    Ok((second, is_same))
}

#[test]
fn owners_see_one_value(rt: HostRuntime) -> Result<(), AllocError> {
    let (second, is_same) = second_of(shared(rt.alloc())?)?;
    same(&rt, is_same, true);
    same(&rt, second.as_slice(), [7].as_slice());
    Ok(())
}

/// A list of two owners of one value.
fn owners(alloc: Global) -> Result<Items<Shared<Items<u32>>>, AllocError> {
    let shared = shared(alloc)?;
    let mut owners = Items::new(alloc);
    owners.push(shared.share()?)?;
    owners.push(shared)?;
    Ok(owners)
}

#[test]
fn a_copied_list_has_owners_of_the_same(rt: HostRuntime) -> Result<(), AllocError> {
    let copies = owners(rt.alloc())?.duplicate(rt.alloc())?;
    same(&rt, copies.get(1).map(|shared| shared.len()), Some(1));
    Ok(())
}
