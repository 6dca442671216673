//! Laws of rings of unit edges, and of the contours of regions. The calls do nothing; a proof about outlines cites what they ensure.

ghost use Rattle.outline_laws.specs.UncutOutlines.{TilesAreOfOutlinesIfCut};
ghost use Rattle.outline_laws.specs.UnitRings.{AreNotFlat, ContoursAreUnitRings, KeepThree, RegionsAreNotFlat, SomeAreFlat};

/// Of a ring of three unit edges or more, three edges or more are kept at each error up to 49.
pub fn unit_rings_keep_three()
    ensures { KeepThree }
{}

/// So no such ring is flat at such an error.
pub fn unit_rings_are_not_flat()
    ensures { AreNotFlat }
{}

/// At each greater error some such ring is flat: that of one cell.
pub fn some_unit_rings_are_flat()
    ensures { SomeAreFlat }
{}

/// The contour of each region is such a ring.
pub fn contours_are_unit_rings()
    ensures { ContoursAreUnitRings }
{}

/// So no region is flat at such an error.
pub fn regions_are_not_flat()
    ensures { RegionsAreNotFlat }
{}

/// So in a built mesh of contours at such an error a tile is made of strips only where an outline of it cannot be cut.
pub fn tiles_are_of_outlines()
    ensures { TilesAreOfOutlinesIfCut }
{}
