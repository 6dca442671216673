//! Discs: which columns share area with one, and which have their middles in it.

ghost use Rattle.std.specs.Prelude.{◌≡◌, ◌+◌, ◌*◌, ◌≤◌, nat_le, nat_lt, pos, ◌≤ℤ◌};
ghost use Rattle.nav_ground.specs.Discs.{is_holding_middle, is_reaching_into};

/// Whether a column shares area with a disc, whose centre and radius are in sixteenths.
pub(crate) fn reaches_into(cx: i32, cz: i32, r: u32, x: u32, z: u32) -> bool
    requires { r ≤ 16384 }
    ensures { result ≡ is_reaching_into cx cz r x z }
{
    is_nearer(gap(cx, x), gap(cz, z), u64::from(r))
}

/// Whether the middle of a column is no farther than the radius.
pub(crate) fn holds_middle(cx: i32, cz: i32, r: u32, x: u32, z: u32) -> bool
    requires { r ≤ 16384 }
    ensures { result ≡ is_holding_middle cx cz r x z }
{
    is_within(off_middle(cx, x), off_middle(cz, z), u64::from(r))
}

/// How far a number lies outside a column's range.
fn gap(c: i32, column: u32) -> u64
    ensures { result ≡ Rattle.nav_ground.specs.Discs.gap c column }
{
    let c = i64::from(c);
    let first = 16 * i64::from(column);
    let end = first + 16;
    if c < first {
        (first - c).unsigned_abs()
    } else if end < c {
        (c - end).unsigned_abs()
    } else {
        0
    }
}

/// How far a number lies from a column's middle.
fn off_middle(c: i32, column: u32) -> u64
    ensures { result ≡ Rattle.nav_ground.specs.Discs.off_middle c column }
{
    (i64::from(c) - (16 * i64::from(column) + 8)).unsigned_abs()
}

/// Whether a way along x and one along z make a distance of less than `reach`. The tests before the squares keep them small.
#[tactic(auto, using(crate::proofs::Squares::not_nearer, crate::proofs::Squares::not_nearer_across))]
fn is_nearer(along_x: u64, along_z: u64, reach: u64) -> bool
    requires { reach ≤ 16384 }
    ensures { result ≡ nat_lt (along_x * along_x + along_z * along_z) (reach * reach) }
{
    if along_x > reach {
        return false;
    }
    if along_z > reach {
        return false;
    }
    along_x * along_x + along_z * along_z < reach * reach
}

/// Whether they make a distance of at most `reach`.
#[tactic(auto, using(crate::proofs::Squares::too_far, crate::proofs::Squares::too_far_across))]
pub(crate) fn is_within(along_x: u64, along_z: u64, reach: u64) -> bool
    requires { reach ≤ 16384 }
    ensures { result ≡ nat_le (along_x * along_x + along_z * along_z) (reach * reach) }
{
    if along_x > reach {
        return false;
    }
    if along_z > reach {
        return false;
    }
    along_x * along_x + along_z * along_z <= reach * reach
}
