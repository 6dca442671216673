//! Floats as numbers of steps, and back.
ghost use Rattle.std.specs.Prelude.{◌≡◌, ◌↔◌, ℕ, ◌≤◌, ◌<◌, ◌^◌, false, MatchBool, IfSome, IsNone, ℤ};
ghost use Rattle.std.specs.Float.{float_is_finite};
ghost use Rattle.std.specs.Int.RustNames.{unsigned_abs};
ghost use Rattle.world_grid.specs.FloatParts.{HasParts, size_of};
ghost use Rattle.world_grid.specs.Grid.{IsNearest, IsSteps, IsStepOf, IsGridSize, length_of, told_of};

use crate::float_parts::FloatParts;
use crate::grid_step::GridStep;
use std::num::nearest_f64_to_f32;

/// The least size that a cell or a height unit may have: 2^-10.
const LEAST_SIZE: f32 = 0.0009765625;

/// The greatest one: 2^10.
const MOST_SIZE: f32 = 1024.0;

/// The step of which 2^`finer` are this size. None where the size is none of 2^-10 to 2^10.
pub fn step_of(size: f32, finer: u32) -> Option<GridStep>
    requires finer { finer ≤ 12 }
    ensures found { IfSome result (IsStepOf size finer) }
    ensures none { IsNone result ↔ (¬ IsGridSize size) }
{
    if !is_grid_size(size) {
        return None;
    }
    let parts = parts_of(size)?;
    Some(GridStep {
        digits: parts.digits,
        power: parts.power - finer,
    })
}

/// Whether a cell or a height unit may have this size.
fn is_grid_size(size: f32) -> bool
    ensures { MatchBool result (IsGridSize size) (¬ IsGridSize size) }
{
    LEAST_SIZE <= size && size <= MOST_SIZE
}

/// How many steps a float is: the number nearest to it, of two the even one.
/// None where it is infinite or no number, and where it is `most` steps or more.
pub fn quantize(x: f32, step: GridStep, most: u64) -> Option<i64>
    requires most { most ≤ 2 ^ 31 }
    ensures found { IfSome result (IsSteps x step) }
    ensures only { IfSome result (λ n. (m : ℤ) → IsSteps x step m → m ≡ n) }
    ensures few { IfSome result (λ n. unsigned_abs n < most) }
    ensures none { IsNone result → (n : ℤ) → IsSteps x step n → most ≤ unsigned_abs n }
{
    let parts = parts_of(x)?;
    let count = steps_in(parts, step)?;
    if count >= most {
        return None;
    }
    let count = count as i64;
    Some(if parts.negative { -count } else { count })
}

/// The parts of a float; none where it is infinite or no number.
pub(crate) fn parts_of(x: f32) -> Option<FloatParts>
    ensures found { IfSome result (HasParts x) }
    ensures none { IsNone result → float_is_finite x ≡ false }
{
    if !x.is_finite() {
        return None;
    }
    let bits = x.to_bits();
    let field = bits >> 23 & 0xff;
    let low = bits & 0x7f_ffff;
    let negative = bits >> 31 == 1;
    if field == 0 {
        return Some(FloatParts {
            negative,
            digits: low,
            power: 0,
        });
    }
    Some(FloatParts {
        negative,
        digits: low + 0x80_0000,
        power: field - 1,
    })
}

/// How many steps the size of a float is; none where it is 2^31 steps or more.
fn steps_in(parts: FloatParts, step: GridStep) -> Option<u64>
    ensures nearest { IfSome result (IsNearest (size_of parts) (length_of step)) }
    ensures none { IsNone result → (n : ℕ) → IsNearest (size_of parts) (length_of step) n → 2 ^ 31 ≤ n }
{
    // Where the powers are two or more apart the float is less than half a step.
    let Some(places) = (parts.power + 1).checked_sub(step.power) else {
        return Some(0);
    };
    if places > 33 {
        return None;
    }
    Some(nearest(
        u64::from(parts.digits) << places,
        2 * u64::from(step.digits),
    ))
}

/// The whole number nearest to a fraction, of two the even one.
fn nearest(num: u64, den: u64) -> u64
    requires some { 1 ≤ den }
    requires num { num < 2 ^ 57 }
    requires den { den < 2 ^ 25 }
    ensures { IsNearest num den result }
{
    let below = num / den;
    let twice = 2 * (num % den);
    if twice > den || twice == den && below % 2 == 1 {
        below + 1
    } else {
        below
    }
}

/// The float nearest to a number of steps, as IEEE 754 rounds. Read again, it is as many steps.
pub fn dequantize(n: i32, step: GridStep) -> f32
    requires few { unsigned_abs n < 2 ^ 23 }
    ensures value { result ≡ told_of n step }
    ensures back { IsSteps result step n }
{
    // Both are whole numbers that 64 bits hold, and so is their quotient but for a power of two: one rounding.
    let counted = i64::from(n) * i64::from(step.digits);
    let least = 1_u64 << (149 - step.power);
    nearest_f64_to_f32(counted as f64 / least as f64)
}
