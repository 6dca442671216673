//! A saved registry as words, and as bytes.

ghost use Rattle.std.specs.Prelude.{◌≡◌, ◌≤◌, ◌<◌, ◌^◌, ◌++◌, All, length, OnOk, IfOk};
ghost use Rattle.std.specs.List.{flat_map};
ghost use Rattle.registry_format.specs.Spelling;
ghost use Rattle.registry_format.specs.Spelling.{head_words, row_words, saved_bytes, saved_words, word_bytes};

use crate::saved::{SavedObstacle, SavedRegistry};
use crate::shapes::append_shape;
use std::alloc::{AllocError, Global};

/// The word that the bytes begin with: the letters "navd".
const MAGIC: u32 = 1685479790;

/// The version of the format.
const FORMAT: u32 = 1;

fn low(n: u64) -> u32
    ensures { result ≡ Spelling.low n }
{
    (n % 0x1_0000_0000) as u32
}

fn high(n: u64) -> u32
    ensures { result ≡ Spelling.high n }
{
    (n / 0x1_0000_0000) as u32
}

fn append_head(words: &mut Vec<u32>, saved: &SavedRegistry) -> Result<(), AllocError>
    requires rows { length saved.now.rows < 2 ^ 32 }
    requires on { length saved.now.on < 2 ^ 32 }
    ensures { OnOk result (words.new.items ≡ words.old.items ++ head_words saved.now) }
{
    let field = saved.field;
    words.extend_from_slice(&[
        MAGIC,
        FORMAT,
        field.width,
        field.depth,
        field.tile,
        field.limit,
        low(saved.last),
        high(saved.last),
        low(saved.version),
        high(saved.version),
        saved.rows.len() as u32,
        saved.on.len() as u32,
    ])
}

fn append_row(words: &mut Vec<u32>, row: &SavedObstacle) -> Result<(), AllocError>
    ensures { OnOk result (words.new.items ≡ words.old.items ++ row_words row.now) }
{
    let SavedObstacle { id, user, shape } = *row;
    words.extend_from_slice(&[low(id), high(id), low(user), high(user)])?;
    append_shape(words, &shape)
}

fn append_rows(words: &mut Vec<u32>, rows: &[SavedObstacle]) -> Result<(), AllocError>
    ensures { OnOk result (words.new.items ≡ words.old.items ++ flat_map row_words rows.now) }
{
    for row in rows {
        append_row(words, row)?;
    }
    Ok(())
}

/// The words of a saved registry.
#[tactic(auto, unfolding(crate::specs::Spelling::saved_words))]
pub(crate) fn words_of(alloc: Global, saved: &SavedRegistry) -> Result<Vec<u32>, AllocError>
    requires rows { length saved.now.rows < 2 ^ 32 }
    requires on { length saved.now.on < 2 ^ 32 }
    ensures { IfOk result (λ words. words.items ≡ saved_words saved.now) }
{
    let mut words = Vec::new(alloc);
    append_head(&mut words, saved)?;
    append_rows(&mut words, saved.rows.as_slice())?;
    words.extend_from_slice(saved.on.as_slice())?;
    Ok(words)
}

/// The bytes of some words.
fn bytes_of(alloc: Global, words: &[u32]) -> Result<Vec<u8>, AllocError>
    ensures bytes { IfOk result (λ bytes. bytes.items ≡ word_bytes words.now) }
    ensures words { All (λ word. word < 2 ^ 32) words.now }
{
    let mut bytes = Vec::new(alloc);
    for word in words {
        bytes.extend_from_slice(&word.to_le_bytes())?;
    }
    Ok(bytes)
}

/// The bytes of a saved registry.
pub fn save_bytes(alloc: Global, saved: &SavedRegistry) -> Result<Vec<u8>, AllocError>
    requires rows { length saved.now.rows < 2 ^ 32 }
    requires on { length saved.now.on < 2 ^ 32 }
    ensures bytes { IfOk result (λ bytes. bytes.items ≡ saved_bytes saved.now) }
    ensures words { OnOk result (All (λ word. word < 2 ^ 32) (saved_words saved.now)) }
{
    let words = words_of(alloc, saved)?;
    bytes_of(alloc, words.as_slice())
}
