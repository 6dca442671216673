//! The chains: rows of portals that stand upright, one to the right of the other, so that the left end of each is its upper one.

ghost use Rattle.std.specs.Prelude.{◌≡◌, ◌≤◌, IfOk};
ghost use Rattle.bench_calls.specs.Rows.{CanBePulled, IsSlope, upright_at};

use crate::chain::Chain;
use mesh_types::Portal;
use nav_base::Point;
use std::alloc::{AllocError, Global};

/// The greatest run of an edge of the wall that bends.
const ORDER: u32 = 82;

/// How an edge of a wall leads: so far to the right, and so far up.
#[derive(Clone, Copy)]
struct Slope {
    run: u32,
    rise: u32,
}

/// The portal from a height down to another, in the column `across` sixteenths right of the left border.
fn upright(across: u32, high: u32, low: i32) -> Portal
    requires across { across ≤ 131072 }
    requires high { high ≤ 65536 }
    ensures { result ≡ upright_at across high low }
{
    let x = across as i32 - 65536;
    Portal {
        left: Point { x, z: high as i32 },
        right: Point { x, z: low },
    }
}

/// A straight corridor, 512 sixteenths wide, with a portal at each cell. The goal is seen from the start.
pub fn straight(alloc: Global, count: u32) -> Result<Chain, AllocError>
    requires { count ≤ 4000 }
    ensures { IfOk result CanBePulled }
{
    let mut portals = Vec::new(alloc);
    for place in 0..count {
        portals.push(upright(16 * place, 512, 0))?;
    }
    Ok(Chain {
        start: Point { x: -65536, z: 256 },
        portals,
        goal: upright(16 * count, 256, 0).left,
    })
}

/// The next slope to the left of another, of those with a run of at most 82, where `before` is the run of the one before it.
///
/// These slopes in order are a Farey sequence: two neighbours, as vectors, have the cross 1.
fn next_slope(before: u32, slope: Slope) -> Slope
    requires before { before ≤ 82 }
    requires slope { IsSlope slope }
    ensures { IsSlope result }
{
    let run = ORDER - (ORDER + before) % slope.run;
    Slope {
        run,
        rise: ((1 + slope.rise * run) / slope.run).min(ORDER),
    }
}

/// A way along a wall, from its foot to above its top, open to the border on the right. The wall bends to the left at each portal, up to
/// about 2000 of them, and each bend is a corner of the path: from there the right ends of all portals that follow are seen, and the goal is
/// hidden by the next bend alone. So each cone looks at all portals that are left.
pub fn turn(alloc: Global, count: u32) -> Result<Chain, AllocError>
    requires { count ≤ 4000 }
    ensures { IfOk result CanBePulled }
{
    let mut portals = Vec::new(alloc);
    let mut before = 1;
    let mut slope = Slope { run: 1, rise: 0 };
    let mut across: u32 = 0;
    let mut high: u32 = 0;
    for _ in 0..count {
        across = (across + slope.run).min(131072);
        high = (high + slope.rise).min(65536);
        portals.push(upright(across, high, -65536))?;
        let next = next_slope(before, slope);
        before = slope.run;
        slope = next;
    }
    Ok(Chain {
        start: Point { x: -65536, z: 0 },
        portals,
        goal: upright(across, 65536, 0).left,
    })
}
