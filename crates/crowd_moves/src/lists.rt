//! Lists of lists, kept as one list.

ghost use Rattle.std.specs.Prelude.{◌≡◌, ◌+◌, ◌<◌, ◌^◌};
ghost use Rattle.crowd_moves.specs.Contacts;

/// Where the list of one begins in the one list, and where it ends. `first` tells where each begins, and `count` is how many elements there are.
pub(crate) fn places(first: &[usize], i: usize, count: usize) -> (usize, usize)
    requires { i + 1 < 2 ^ 64 }
    ensures begin { result.0 ≡ Contacts.begin_at first.now i }
    ensures end { result.1 ≡ Contacts.end_at first.now i count }
{
    (number_at(first, i), number_at(first, i + 1).min(count))
}

/// A number of a list, and 0 past its end.
fn number_at(numbers: &[usize], i: usize) -> usize
    ensures { result ≡ Contacts.begin_at numbers.now i }
{
    match numbers.get(i) {
        Some(number) => *number,
        None => 0,
    }
}
