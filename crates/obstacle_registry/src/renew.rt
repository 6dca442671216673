//! Numbers once a history has begun again.

ghost use Rattle.std.specs.Prelude.{◌≡◌, ◌<◌, ◌≤◌, AllPairs, length, map};
ghost use Rattle.std.specs.List.{range_with_len};
ghost use Rattle.obstacle_registry.specs.Renewal.{renumbered};

use crate::row::Registered;

/// Makes the numbers 1, 2, 3 and so on.
pub(crate) fn count_up(numbers: &mut [u32])
    requires { length numbers.old ≤ 1024 }
    ensures { numbers.new ≡ range_with_len 1 (length numbers.old) }
{
    for place in 0..numbers.len() {
        numbers[place] = place as u32 + 1;
    }
}

/// How many of the numbers, which rise, are not above one.
pub(crate) fn rank(numbers: &[u32], number: u32) -> u32
    requires rising { AllPairs (λ a b. a < b) numbers.now }
    requires few { length numbers.now ≤ 1024 }
    ensures { result ≡ Rattle.obstacle_registry.specs.Renewal.rank numbers.now number }
{
    numbers.partition_point(|other| *other <= number) as u32
}

/// Gives each row the number of its new entry.
pub(crate) fn renumber(rows: &mut [Registered], numbers: &[u32])
    requires rising { AllPairs (λ a b. a < b) numbers.now }
    requires few { length numbers.now ≤ 1024 }
    ensures { rows.new ≡ map (renumbered numbers.now) rows.old }
{
    for row in rows.iter_mut() {
        row.number = rank(numbers, row.number);
    }
}
