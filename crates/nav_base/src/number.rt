//! Numbers as texts spell them: `0`, or digits of which the first is not `0`.
ghost use Rattle.std.specs.Prelude.{◌≡◌, ℕ, ◌≤◌, ◌++◌, IfSome, OnOk, OnErr, decimal};
ghost use Rattle.std.specs.Fmt.{signed_decimal};
ghost use Rattle.std.specs.Option.{option_map};
ghost use Rattle.nav_base.specs.Number.{number_at, is_canonical};

use itoa::Buffer;
use std::alloc::AllocError;

/// Whether some digits spell a number: one digit alone, or more of which the first is not `0`.
fn is_canonical(digits: &[u8]) -> bool
    ensures { result ≡ is_canonical digits.now }
{
    digits.len() == 1 || digits.len() > 1 && digits[0] > b'0'
}

/// The number that the bytes begin with, up to the first byte that is no digit, and the bytes after
/// it. None where the bytes begin with no digit, with a needless `0`, or with a number above
/// 4294967295.
pub fn number_at(bytes: &[u8]) -> Option<(u32, &[u8])>
    ensures { option_map (λ x. (x.0, x.1.now)) result ≡ number_at bytes.now }
{
    let mut number: u64 = 0;
    let mut len = 0;
    while len < bytes.len() && bytes[len].is_ascii_digit() {
        number = number * 10 + u64::from(bytes[len] - b'0');
        if number > u64::from(u32::MAX) {
            return None;
        }
        len += 1;
    }
    let (digits, rest) = bytes.split_at(len);
    if !is_canonical(digits) {
        return None;
    }
    Some((number as u32, rest))
}

/// The number that all the bytes together spell, where it is at most `max`.
pub fn read_number(bytes: &[u8], max: u32) -> Option<u32>
    // A number that is read is at most `max`, and the bytes are its spelling.
    ensures found { IfSome result (λ n. (n ≤ max) × (bytes.now ≡ decimal n)) }
    // The spelling of a number of at most `max` is read as that number.
    ensures only { (n : ℕ) → n ≤ max → bytes.now ≡ decimal n → result ≡ Some n }
{
    let (number, rest) = number_at(bytes)?;
    if !rest.is_empty() || number > max {
        return None;
    }
    Some(number)
}

/// Appends the decimal text of a number, a negative one with a `-` in front.
pub fn push_number(out: &mut Vec<u8>, n: i64) -> Result<(), AllocError>
    ensures ok { OnOk result (out.new.items ≡ out.old.items ++ signed_decimal n) }
    ensures err { OnErr result (out.new.items ≡ out.old.items) }
{
    out.extend_from_slice(Buffer::new().format(n).as_bytes())
}
