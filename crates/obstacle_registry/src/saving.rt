//! Rows as they are saved, and rows of what is saved.

ghost use Rattle.std.specs.Prelude.{◌≡◌, ◌≤◌, ◌<◌, All, AllPairs, IfOk, OnOk, length, map};
ghost use Rattle.obstacle_registry.specs.Restoring.{AreOffRows, HaveNumbers};
ghost use Rattle.obstacle_registry.specs.Saving;
ghost use Rattle.obstacle_registry.specs.Saving.{place_of, row_saved};
ghost use Rattle.registry_format.specs.Saved.{FitsParts, FitsPoint};
ghost use Rattle.registry_format.specs.declared.saved.SavedObstacle.{SavedObstacle};

use crate::renew::rank;
use crate::row::Registered;
use nav_ground::{PrismBase, Setting, Shape};
use registry_format::{SavedField, SavedObstacle};
use std::alloc::{AllocError, Global};

/// The field of a setting.
pub(crate) fn field_of(setting: &Setting) -> SavedField
    ensures { result ≡ Saving.field_of setting.now }
{
    SavedField {
        width: setting.width,
        depth: setting.depth,
        tile: setting.tile,
        limit: setting.limit,
    }
}

/// Whether two fields and their limits are the same.
pub(crate) fn is_same_field(a: &SavedField, b: &SavedField) -> bool
    ensures { result ≡ Saving.is_same_field a.now b.now }
{
    a.width == b.width && a.depth == b.depth && a.tile == b.tile && a.limit == b.limit
}

/// A base, all six of whose places are read.
fn base_saved(base: PrismBase) -> PrismBase
    ensures value { result ≡ base }
    ensures long { length result.corners ≡ 6 }
    ensures fits { All FitsPoint result.corners }
{
    let [first, second, third, fourth, fifth, sixth] = base.corners;
    PrismBase {
        count: base.count,
        corners: [first, second, third, fourth, fifth, sixth],
    }
}

/// A shape, whose parts are written as they are.
fn shape_saved(shape: &Shape) -> Shape
    ensures value { result ≡ shape.now }
    ensures fits { FitsParts result }
{
    match *shape {
        Shape::Prism { base, area, y0, y1 } => Shape::Prism {
            base: base_saved(base),
            area,
            y0,
            y1,
        },
        Shape::Disc {
            x,
            z,
            r,
            area,
            y0,
            y1,
        } => Shape::Disc {
            x,
            z,
            r,
            area,
            y0,
            y1,
        },
        _ => *shape,
    }
}

/// What is saved of an obstacle.
fn row_saved(row: &Registered) -> SavedObstacle
    ensures value { result ≡ Saving.row_saved row.now }
    ensures fits { FitsParts result.shape }
{
    SavedObstacle {
        id: row.id,
        user: row.user,
        shape: shape_saved(&row.shape),
    }
}

/// What is saved of obstacles.
pub(crate) fn rows_saved(
    alloc: Global,
    rows: &[Registered],
) -> Result<Vec<SavedObstacle>, AllocError>
    ensures rows { IfOk result (λ saved. saved.items ≡ map row_saved rows.now) }
    ensures fits { OnOk result (All (λ (row : SavedObstacle). FitsParts row.shape) (map row_saved rows.now)) }
{
    let mut saved = Vec::with_capacity(alloc, rows.len())?;
    for row in rows {
        saved.push(row_saved(row))?;
    }
    Ok(saved)
}

/// The places of the rows with some numbers, which rise.
pub(crate) fn places_of(
    alloc: Global,
    rows: &[Registered],
    numbers: &[u32],
) -> Result<Vec<u32>, AllocError>
    requires rows { length rows.now ≤ 65536 }
    requires few { length numbers.now ≤ 1024 }
    requires rising { AllPairs (λ a b. a < b) numbers.now }
    requires some { All (λ number. 1 ≤ number) numbers.now }
    requires each { HaveNumbers numbers.now rows.now }
    ensures { IfOk result (λ places. places.items ≡ map (place_of rows.now) numbers.now) }
{
    let mut places = Vec::from_slice(alloc, numbers)?;
    for place in 0..rows.len() {
        let number = rows[place].number;
        if number != 0 {
            places[rank(numbers, number) as usize - 1] = place as u32;
        }
    }
    Ok(places)
}

/// An obstacle that was saved, switched off.
fn row_off(row: &SavedObstacle) -> Registered
    ensures { result ≡ Saving.row_off row.now }
{
    let SavedObstacle { id, user, shape } = *row;
    Registered {
        id,
        shape,
        user,
        number: 0,
    }
}

/// The obstacles that were saved, switched off.
pub(crate) fn rows_off(
    alloc: Global,
    saved: &[SavedObstacle],
) -> Result<Vec<Registered>, AllocError>
    ensures { IfOk result (λ rows. rows.items ≡ map Saving.row_off saved.now) }
{
    saved.iter().map(|row| row_off(row)).collect(alloc)
}
