//! Paths pulled through a chain of portals: `straight PORTALS ROUNDS`, through a straight corridor, and `turn PORTALS ROUNDS`, round a wall that
//! bends slowly. The chain has so many portals, at most 4000; the sum is that of the corners of all paths.

ghost use Rattle.bench_calls.specs.Rows.{CanBePulled};

use crate::chain::Chain;
use crate::shapes::{straight, turn};
use funnel_path::pull;
use nav_text::numbers_of;
use std::alloc::{AllocError, Global};

// The most portals of a chain.
const MOST: u32 = 4000;

// The sum of the corners of so many paths through a chain.
fn corners(alloc: Global, chain: &Chain, rounds: u32) -> Result<u64, AllocError>
    requires { CanBePulled chain.now }
{
    let mut sum: u64 = 0;
    for _ in 0..rounds {
        let path = pull(alloc, chain.start, chain.portals.as_slice(), chain.goal)?;
        sum = sum.wrapping_add(path.len() as u64);
    }
    Ok(sum)
}

/// The sum of what a line names here, if it does.
pub fn take(alloc: Global, line: &[u8]) -> Result<Option<u64>, AllocError> {
    if let Some(n) = numbers_of::<2>(b"straight", line) {
        let chain = straight(alloc, n[0].min(MOST))?;
        return Ok(Some(corners(alloc, &chain, n[1])?));
    }
    if let Some(n) = numbers_of::<2>(b"turn", line) {
        let chain = turn(alloc, n[0].min(MOST))?;
        return Ok(Some(corners(alloc, &chain, n[1])?));
    }
    Ok(None)
}
