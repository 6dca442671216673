//! What bytes spell.

ghost use Rattle.std.specs.Prelude.{◌≡◌, ◌≢◌, ◌↔◌, ◌+◌, ◌*◌, ◌/◌, ◌%◌, ◌<◌, ◌≤◌, ◌==◌, ◌&&◌, ◌^◌, All, drop, length, IsTrue, IfErr, IfOk, nat_le};
ghost use Rattle.registry_format.specs.Reading;
ghost use Rattle.registry_format.specs.Reading.{HasLength, IsRead, row_of, rows_of, saved_of, word_at, words_in};
ghost use Rattle.registry_format.specs.Saved.{FitsParts, IsSaved};
ghost use Rattle.registry_format.specs.Spelling.{saved_bytes, saved_words};
ghost use Rattle.registry_format.specs.declared.reading.SavedFault.TheVariants.{NoMemory, NotSaved};
ghost use Rattle.registry_format.specs.declared.saved.SavedObstacle.{SavedObstacle};
ghost use Rattle.registry_format.specs.declared.saved.SavedRegistry.{SavedRegistry};

use crate::rules::keeps_rules;
use crate::saved::{SavedField, SavedObstacle, SavedRegistry};
use crate::shapes::{shape_of, word_at};
use crate::writing::words_of;
use nav_lists::Items;
use std::alloc::{AllocError, Global};

/// How many words stand in front of the rows.
const HEAD: usize = 12;

/// How many words a row has.
const ROW: usize = 21;

/// Why nothing was read.
#[derive(Clone, Copy, PartialEq, Eq, Debug)]
pub enum SavedFault {
    /// The bytes are those of no saved registry.
    NotSaved,
    /// Memory was refused.
    NoMemory,
}

impl From<AllocError> for SavedFault {
    ghost from_gives = { λ _ why. why ≡ NoMemory };

    fn from(_refused: AllocError) -> SavedFault {
        SavedFault::NoMemory
    }
}

/// The words that bytes are.
fn words_in(alloc: Global, bytes: &[u8]) -> Result<Vec<u32>, AllocError>
    requires { length bytes.now % 4 ≡ 0 }
    ensures { IfOk result (λ words. words.items ≡ words_in (length bytes.now / 4) bytes.now) }
{
    let count = bytes.len() / 4;
    let mut words = Vec::with_capacity(alloc, count)?;
    let mut rest = bytes;
    for _ in 0..count {
        let (front, after) = rest.split_at(4);
        words.push(u32::from_le_bytes([front[0], front[1], front[2], front[3]]))?;
        rest = after;
    }
    Ok(words)
}

/// The number of 64 bits that two words are.
fn wide_at(words: &[u32], place: usize) -> u64
    requires { place < 64 }
    ensures { result ≡ Reading.wide_at words.now place }
{
    word_at(words, place) as u64 + 0x1_0000_0000 * word_at(words, place + 1) as u64
}

fn row_at(words: &[u32]) -> SavedObstacle
    requires { 4 ≤ length words.now }
    ensures value { result ≡ row_of words.now }
    ensures fits { FitsParts result.shape }
{
    SavedObstacle {
        id: wide_at(words, 0),
        user: wide_at(words, 2),
        shape: shape_of(&words[4..]),
    }
}

/// So many rows.
fn rows_in(alloc: Global, count: usize, words: &[u32]) -> Result<Vec<SavedObstacle>, AllocError>
    requires { 21 * count ≤ length words.now }
    ensures rows { IfOk result (λ rows. rows.items ≡ rows_of count words.now) }
    ensures fits { IfOk result (λ rows. All (λ (row : SavedObstacle). FitsParts row.shape) rows.items) }
{
    let mut rows = Vec::with_capacity(alloc, count)?;
    let mut rest = words;
    for _ in 0..count {
        rows.push(row_at(rest))?;
        let (_, after) = rest.split_at(ROW);
        rest = after;
    }
    Ok(rows)
}

/// Whether there are as many words as the head says.
fn has_length(words: &[u32]) -> bool
    ensures { IsTrue result ↔ HasLength words.now }
{
    words.len() >= HEAD
        && words.len() as u64
            == HEAD as u64 + ROW as u64 * word_at(words, 10) as u64 + word_at(words, 11) as u64
}

/// What words spell, if they are those of a saved registry.
#[tactic(auto, unfolding(crate::specs::Reading::saved_of))]
fn saved_in(alloc: Global, words: &[u32]) -> Result<SavedRegistry, AllocError>
    requires { HasLength words.now }
    ensures saved { IfOk result (λ saved. saved ≡ saved_of words.now) }
    ensures fits { IfOk result (λ saved. All (λ (row : SavedObstacle). FitsParts row.shape) saved.rows) }
{
    let count = word_at(words, 10) as usize;
    let rows = rows_in(alloc, count, &words[HEAD..])?;
    let on = Vec::from_slice(alloc, &words[HEAD + ROW * count..])?;
    Ok(SavedRegistry {
        field: SavedField {
            width: word_at(words, 2),
            depth: word_at(words, 3),
            tile: word_at(words, 4),
            limit: word_at(words, 5),
        },
        last: wide_at(words, 6),
        version: wide_at(words, 8),
        rows: Items::from_vec(rows),
        on: Items::from_vec(on),
    })
}

/// Whether words are those of a saved registry: it is written again, and they are compared, so that no other words are read as it.
fn is_spelled(alloc: Global, saved: &SavedRegistry, words: &[u32]) -> Result<bool, AllocError>
    requires rows { length saved.now.rows < 2 ^ 32 }
    requires on { length saved.now.on < 2 ^ 32 }
    ensures same { IfOk result (λ is. IsTrue is ↔ (words.now ≡ saved_words saved.now)) }
    ensures words { All (λ word. word < 2 ^ 32) words.now }
{
    let again = words_of(alloc, saved)?;
    let is_same = again.as_slice() == words;
    Ok(is_same)
}

/// The saved registry that words are.
fn read_words(alloc: Global, words: &[u32]) -> Result<SavedRegistry, SavedFault>
    ensures found { IfOk result (λ saved. IsSaved saved × (words.now ≡ saved_words saved)) }
    ensures only { (saved : SavedRegistry) → IsSaved saved → words.now ≡ saved_words saved → IsRead saved result }
{
    if !has_length(words) {
        return Err(SavedFault::NotSaved);
    }
    let saved = saved_in(alloc, words)?;
    let is_same = is_spelled(alloc, &saved, words)?;
    if !is_same {
        return Err(SavedFault::NotSaved);
    }
    if !keeps_rules(&saved) {
        return Err(SavedFault::NotSaved);
    }
    Ok(saved)
}

/// The saved registry that bytes are.
pub fn read_saved(alloc: Global, bytes: &[u8]) -> Result<SavedRegistry, SavedFault>
    // What is read is spelled so.
    ensures found { IfOk result (λ saved. IsSaved saved × (bytes.now ≡ saved_bytes saved)) }
    // What is spelled so is read, unless memory is refused.
    ensures only { (saved : SavedRegistry) → IsSaved saved → bytes.now ≡ saved_bytes saved → IsRead saved result }
{
    if bytes.len() % 4 != 0 {
        return Err(SavedFault::NotSaved);
    }
    let words = words_in(alloc, bytes)?;
    read_words(alloc, words.as_slice())
}
