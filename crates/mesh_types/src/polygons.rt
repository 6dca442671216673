//! The polygons of a tile, of which the extents are read faster than the rest. Points as they are stored: each in four bytes, seen by
//! contracts as the point. Polygons as they are stored: each in thirty bytes, seen by contracts as the polygon. Lists of polygons in small
//! numbers, beside which the extents stand. The two forms in which polygons are kept.

ghost use Rattle.std.specs.Prelude.{◌≡◌, ◌<◌, IfOk, length, slice_get, slice_index_or, ◌↔◌, pos, IfSome, IsNone, map};
ghost use Rattle.mesh_types.specs.declared.polygon.Polygon.{Polygon};
ghost use Rattle.mesh_types.specs.Extents.{extent_of};
ghost use Rattle.mesh_types.specs.SmallNumbers.{IsSmallCoordinate, IsSmallPoint, IsSmallArea, IsSmallFloor, IsSmallPolygon, AreSmallPolygons, HaveSmallExtents};

use crate::extent::Extent;
use crate::extents::{PackedExtent, extent};
use crate::polygon::{Corners, Polygon};
use nav_base::Point;
use nav_lists::{Duplicate, Items};
use std::alloc::{AllocError, Global};
use std::marker::Model;

/// The polygons of one tile, seen by contracts as their list. They are kept in small numbers, with their extents beside them, so that a search
/// reads of a polygon only what it asks for; a list in which one number does not fit is kept as it is.
#[derive(Drop)]
pub struct Polygons {
    kept: StoredPolygons,
}

impl Model for Polygons {
    ghost use Rattle.std.specs.Prelude.{List};
    ghost use Rattle.mesh_types.specs.declared.polygon.Polygon.{Polygon};
    ghost use Rattle.mesh_types.specs.Kept.{polygons_in};

    ghost Value = { List Polygon };

    ghost view = { λ a. polygons_in a.kept };
}

impl Polygons {
    /// The polygons of a vector, in order.
    pub fn from_vec(alloc: Global, polygons: Vec<Polygon>) -> Result<Polygons, AllocError>
        ensures { IfOk result (λ made. made ≡ polygons.items) }
    {
        let kept = match PackedPolygons::new(alloc, polygons.as_slice())? {
            Some(small) => StoredPolygons::Small(small),
            None => StoredPolygons::Wide(Items::from_vec(polygons)),
        };
        Ok(Polygons { kept })
    }

    /// How many polygons there are.
    pub fn len(&self) -> usize
        ensures { result ≡ length self.now }
    {
        match &self.kept {
            StoredPolygons::Small(small) => small.len(),
            StoredPolygons::Wide(wide) => wide.len(),
        }
    }

    /// The polygon at a place, from 0. Where the extent is enough, `extent` is faster.
    pub fn at(&self, place: usize) -> Polygon
        requires { place < length self.now }
        ensures { (d : Polygon) → result ≡ slice_index_or self.now place d }
    {
        match &self.kept {
            StoredPolygons::Small(small) => small.at(place),
            StoredPolygons::Wide(wide) => wide.as_slice()[place],
        }
    }

    /// The polygon at a place, from 0; none where there are fewer.
    pub fn get(&self, place: usize) -> Option<Polygon>
        ensures { result ≡ slice_get self.now place }
    {
        if place < self.len() {
            Some(self.at(place))
        } else {
            None
        }
    }

    /// The extent of the polygon at a place, from 0.
    pub fn extent(&self, place: usize) -> Extent
        requires { place < length self.now }
        ensures { (d : Polygon) → result ≡ extent_of (slice_index_or self.now place d) }
    {
        match &self.kept {
            StoredPolygons::Small(small) => small.extent(place),
            StoredPolygons::Wide(wide) => extent(&wide.as_slice()[place]),
        }
    }
}

impl Duplicate for Polygons {
    fn duplicate(&self, alloc: Global) -> Result<Self, AllocError> {
        Ok(Polygons {
            kept: self.kept.duplicate(alloc)?,
        })
    }
}

/// A point in four bytes, as lists keep it; contracts see the point.
#[derive(Clone, Copy)]
pub(crate) struct PackedPoint {
    x: u16,
    z: u16,
}

impl Model for PackedPoint {
    ghost use Rattle.nav_base.specs.declared.point.Point.{Point};
    ghost use Rattle.std.specs.Prelude.{pos, unsigned_abs};

    ghost Value = { Point };

    ghost view = { λ a. record { x = pos a.x; z = pos a.z } };

    ghost inverse = { λ p. record { x = unsigned_abs p.x; z = unsigned_abs p.z } };
}

impl PackedPoint {
    /// A point in small numbers; none exactly where one of its numbers is too great for them or less than 0.
    pub(crate) fn new(point: Point) -> Option<Self>
        ensures value { IfSome result (λ kept. kept ≡ point) }
        ensures none { IsNone result ↔ (IsSmallPoint point → ⊥) }
    {
        Some(PackedPoint {
            x: small(point.x)?,
            z: small(point.z)?,
        })
    }

    /// The point.
    pub(crate) fn get(&self) -> Point
        ensures { result ≡ self.now }
    {
        Point {
            x: self.x as i32,
            z: self.z as i32,
        }
    }
}

/// A coordinate in 16 bits; none exactly where it does not fit into them.
fn small(coordinate: i32) -> Option<u16>
    ensures value { IfSome result (λ kept. pos kept ≡ coordinate) }
    ensures none { IsNone result ↔ (IsSmallCoordinate coordinate → ⊥) }
{
    u16::try_from(coordinate).ok()
}

/// A polygon in thirty bytes, as lists keep it; contracts see the polygon.
#[derive(Clone, Copy)]
pub(crate) struct PackedPolygon {
    /// The corners, and (0, 0) in the places after the last.
    points: [PackedPoint; 6],
    count: u8,
    area: u8,
    low: u16,
    high: u16,
}

impl Model for PackedPolygon {
    ghost use Rattle.mesh_types.specs.declared.polygon.Polygon.{Polygon};
    ghost use Rattle.mesh_types.specs.SmallPolygons.{polygon_view, polygon_inverse, polygon_back, HasInline};

    ghost Value = { Polygon };

    ghost view = { polygon_view };

    ghost invariant = { HasInline };

    ghost inverse = { polygon_inverse };

    ghost inverse_ok = { polygon_back };
}

impl PackedPolygon {
    /// A polygon in small numbers; none exactly where one of its numbers is too great for them or less than 0.
    pub(crate) fn new(polygon: &Polygon) -> Option<Self>
        ensures value { IfSome result (λ small. small ≡ polygon.now) }
        ensures none { IsNone result ↔ (IsSmallPolygon polygon.now → ⊥) }
    {
        let (points, count) = polygon.corners.places();
        Some(PackedPolygon {
            points: [
                PackedPoint::new(points[0])?,
                PackedPoint::new(points[1])?,
                PackedPoint::new(points[2])?,
                PackedPoint::new(points[3])?,
                PackedPoint::new(points[4])?,
                PackedPoint::new(points[5])?,
            ],
            count,
            area: small_area(polygon.area)?,
            low: small_floor(polygon.low)?,
            high: small_floor(polygon.high)?,
        })
    }

    /// The polygon.
    pub(crate) fn get(&self) -> Polygon
        ensures { result ≡ self.now }
    {
        let points = [
            self.points[0].get(),
            self.points[1].get(),
            self.points[2].get(),
            self.points[3].get(),
            self.points[4].get(),
            self.points[5].get(),
        ];
        Polygon {
            corners: Corners::from_places(points, self.count),
            area: self.area as u32,
            low: self.low as u32,
            high: self.high as u32,
        }
    }
}

/// A floor in 16 bits; none exactly where it does not fit into them.
fn small_floor(floor: u32) -> Option<u16>
    ensures value { IfSome result (λ kept. kept ≡ floor) }
    ensures none { IsNone result ↔ (IsSmallFloor floor → ⊥) }
{
    u16::try_from(floor).ok()
}

/// An area in 8 bits; none exactly where it does not fit into them.
fn small_area(area: u32) -> Option<u8>
    ensures value { IfSome result (λ kept. kept ≡ area) }
    ensures none { IsNone result ↔ (IsSmallArea area → ⊥) }
{
    u8::try_from(area).ok()
}

/// Polygons whose numbers are all small, seen by contracts as their list. Beside them stand their extents, so that a search reads of a polygon
/// only what it asks for.
#[derive(Drop)]
pub(crate) struct PackedPolygons {
    polygons: Items<PackedPolygon>,
    extents: Items<PackedExtent>,
}

impl Model for PackedPolygons {
    ghost use Rattle.std.specs.Prelude.{◌≡◌, List, map};
    ghost use Rattle.mesh_types.specs.declared.polygon.Polygon.{Polygon};
    ghost use Rattle.mesh_types.specs.Extents.{extent_of};

    ghost Value = { List Polygon };

    ghost view = { λ a. a.polygons };

    ghost invariant = { λ a. a.extents ≡ map extent_of a.polygons };
}

impl PackedPolygons {
    /// Polygons in small numbers, in order; none exactly where one of them does not fit.
    pub(crate) fn new(
        alloc: Global,
        polygons: &[Polygon],
    ) -> Result<Option<PackedPolygons>, AllocError>
        ensures value { IfOk result (λ kept. IfSome kept (λ small. small ≡ polygons.now)) }
        ensures none { IfOk result (λ kept. IsNone kept ↔ (AreSmallPolygons polygons.now → ⊥)) }
    {
        let Some(small) = shapes(alloc, polygons)? else {
            return Ok(None);
        };
        let Some(extents) = extents(alloc, polygons)? else {
            return Ok(None);
        };
        Ok(Some(PackedPolygons {
            polygons: small,
            extents,
        }))
    }

    /// How many polygons there are.
    pub(crate) fn len(&self) -> usize
        ensures { result ≡ length self.now }
    {
        self.polygons.len()
    }

    /// The polygon at a place, from 0.
    pub(crate) fn at(&self, place: usize) -> Polygon
        requires { place < length self.now }
        ensures { (d : Polygon) → result ≡ slice_index_or self.now place d }
    {
        self.polygons.as_slice()[place].get()
    }

    /// The extent of the polygon at a place, from 0.
    pub(crate) fn extent(&self, place: usize) -> Extent
        requires { place < length self.now }
        ensures { (d : Polygon) → result ≡ extent_of (slice_index_or self.now place d) }
    {
        self.extents.as_slice()[place].get()
    }
}

impl Duplicate for PackedPolygons {
    fn duplicate(&self, alloc: Global) -> Result<Self, AllocError> {
        Ok(PackedPolygons {
            polygons: self.polygons.duplicate(alloc)?,
            extents: self.extents.duplicate(alloc)?,
        })
    }
}

/// Polygons in small numbers; none exactly where one of them does not fit.
fn shapes(alloc: Global, polygons: &[Polygon]) -> Result<Option<Items<PackedPolygon>>, AllocError>
    ensures value { IfOk result (λ kept. IfSome kept (λ small. small ≡ polygons.now)) }
    ensures none { IfOk result (λ kept. IsNone kept ↔ (AreSmallPolygons polygons.now → ⊥)) }
{
    let mut shapes = Vec::with_capacity(alloc, polygons.len())?;
    for polygon in polygons {
        match PackedPolygon::new(polygon) {
            Some(small) => shapes.push(small)?,
            None => return Ok(None),
        }
    }
    Ok(Some(Items::from_vec(shapes)))
}

/// The extents of polygons in small numbers; none exactly where one of them does not fit.
fn extents(alloc: Global, polygons: &[Polygon]) -> Result<Option<Items<PackedExtent>>, AllocError>
    ensures value { IfOk result (λ kept. IfSome kept (λ small. small ≡ map extent_of polygons.now)) }
    ensures none { IfOk result (λ kept. IsNone kept ↔ (HaveSmallExtents polygons.now → ⊥)) }
{
    let mut extents = Vec::with_capacity(alloc, polygons.len())?;
    for polygon in polygons {
        match PackedExtent::new(extent(polygon)) {
            Some(small) => extents.push(small)?,
            None => return Ok(None),
        }
    }
    Ok(Some(Items::from_vec(extents)))
}

/// Polygons in small numbers, or as they are where one of them does not fit into small numbers. Those of a field always do.
#[derive(Drop)]
pub(crate) enum StoredPolygons {
    Small(PackedPolygons),
    Wide(Items<Polygon>),
}

impl Duplicate for StoredPolygons {
    fn duplicate(&self, alloc: Global) -> Result<Self, AllocError> {
        match self {
            StoredPolygons::Small(polygons) => Ok(StoredPolygons::Small(polygons.duplicate(
                alloc,
            )?)),
            StoredPolygons::Wide(polygons) => Ok(StoredPolygons::Wide(polygons.duplicate(alloc)?)),
        }
    }
}
