//! Lines, and the words and numbers on them. Words with numbers behind them. Where memory is refused a part may stand at the end.

ghost use Rattle.std.specs.Prelude.{◌≡◌, ℕ, ◌++◌, ◌==◌, ◌∷◌, [], List, Some, length, MatchOption, IfSome};
ghost use Rattle.std.specs.Option.{option_map};
ghost use Rattle.nav_text.specs.Lines.{lines, is_ended};
ghost use Rattle.nav_text.specs.Forms.{field_at, fields_of, numbers_of, number_after, has_word, line_text, AreNumbers};
ghost use Rattle.nav_text.specs.Appends.{Appends};

use itoa::{Buffer, Integer};
use memchr::memchr;
use nav_base::number_at;
use std::alloc::AllocError;

/// The first line of a text, without its line feed, and the text after it. None where no line feed is left.
pub fn first_line(text: &[u8]) -> Option<(&[u8], &[u8])>
    ensures lines { MatchOption result (lines text.now ≡ [])
        (λ x. lines text.now ≡ x.0.now ∷ lines x.1.now) }
    ensures text { IfSome result (λ x. text.now ≡ x.0.now ++ 10 ∷ x.1.now) }
    ensures ended { MatchOption result (is_ended text.now ≡ (length text.now == 0))
        (λ x. is_ended text.now ≡ is_ended x.1.now) }
{
    let end = memchr(b'\n', text)?;
    Some((&text[..end], &text[end + 1..]))
}

/// Whether the first word of a line, which is its bytes up to the first space or the line's end, is a word. The word has no space.
pub fn has_word(word: &[u8], line: &[u8]) -> bool
    ensures { result ≡ has_word word.now line.now }
{
    match line.strip_prefix(word) {
        Some(rest) => rest.is_empty() || rest[0] == b' ',
        None => false,
    }
}

/// The number behind one space at the front, and the bytes after it.
#[tactic(auto, unfolding(crate::specs::Forms::field_at))]
fn field_at(bytes: &[u8]) -> Option<(u32, &[u8])>
    ensures { option_map (λ x. (x.0, x.1.now)) result ≡ field_at bytes.now }
{
    match bytes {
        [b' ', number @ ..] => number_at(number),
        _ => None,
    }
}

/// So many numbers, each behind one space, and nothing else.
fn fields_of<const COUNT: usize>(bytes: &[u8]) -> Option<[u32; COUNT]>
    ensures { result ≡ fields_of COUNT bytes.now }
{
    let mut numbers = [0; COUNT];
    let mut rest = bytes;
    for i in 0..COUNT {
        let (number, after) = field_at(rest)?;
        numbers[i] = number;
        rest = after;
    }
    if !rest.is_empty() {
        return None;
    }
    Some(numbers)
}

/// The numbers of a line that is a word and so many numbers, each behind one space. None where it is not of this form.
#[tactic(auto, unfolding(crate::specs::Forms::numbers_of))]
pub fn numbers_of<const COUNT: usize>(word: &[u8], line: &[u8]) -> Option<[u32; COUNT]>
    ensures value { result ≡ numbers_of word.now COUNT line.now }
    // A line of which numbers are read is the word and these numbers.
    ensures found { IfSome result (λ numbers. line.now ≡ line_text word.now numbers) }
    // A line that is the word and so many numbers is read as these numbers.
    ensures only { (numbers : List ℕ) → length numbers ≡ COUNT → AreNumbers numbers
        → line.now ≡ line_text word.now numbers → result ≡ Some numbers }
{
    fields_of(line.strip_prefix(word)?)
}

/// The number behind the word at the front of a line and one space, and the bytes after it. None where the line does not begin so.
#[tactic(auto, unfolding(crate::specs::Forms::number_after))]
pub fn number_after<'a>(word: &[u8], line: &'a [u8]) -> Option<(u32, &'a [u8])>
    ensures { option_map (λ x. (x.0, x.1.now)) result ≡ number_after word.now line.now }
{
    field_at(line.strip_prefix(word)?)
}

/// Appends a space and a number.
pub fn append_number<I: Integer>(out: &mut Vec<u8>, number: I) -> Result<(), AllocError>
    ensures { Appends out.old out.new result (32 ∷ I.text number) }
{
    out.push(b' ')?;
    out.extend_from_slice(Buffer::new().format(number).as_bytes())
}

/// Appends a word and numbers, each behind a space. Where memory is refused a part may stand at the end.
pub fn append_line(out: &mut Vec<u8>, word: &[u8], numbers: &[u32]) -> Result<(), AllocError>
    ensures { Appends out.old out.new result (line_text word.now numbers.now) }
{
    out.extend_from_slice(word)?;
    for number in numbers {
        append_number(out, *number)?;
    }
    Ok(())
}
