//! Laws of the storeys of built meshes: of the mesh of every ground under every list of obstacles, so of every build. The calls do nothing; a proof about
//! such a mesh cites what they ensure.

ghost use Rattle.std.specs.Prelude.{All};
ghost use Rattle.mesh_types.specs.Standing.{CornersStand, PointsStand};
ghost use Rattle.mesh_types.specs.StripCover.{IsOfStrips};
ghost use Rattle.storey_laws.specs.Built.{HoldsOfMeshes, HoldsOfTiles};
ghost use Rattle.storey_laws.specs.FreeCells.{AreOverStoreys, KeepsClimb, SharesFreeCells};
ghost use Rattle.storey_laws.specs.HeldPlaces.{CornersArePlaces, HeldPointsArePlaces};

/// Each free cell of a tile is a cell of exactly one of the tile's storeys, with its floor and its area, and the storeys have no others.
pub fn storeys_share_free_cells()
    ensures { HoldsOfTiles (λ setting. SharesFreeCells) }
{}

/// The floors of neighbouring columns of one storey differ by at most the agent's climb.
pub fn storeys_keep_climb()
    ensures { HoldsOfTiles (λ setting tile. All (KeepsClimb setting.agent.climb) tile.storeys.list) }
{}

/// Each polygon of a tile has a storey, and with it its area, its least and its greatest floor.
pub fn polygons_tell_floors()
    ensures { HoldsOfTiles (λ setting. AreOverStoreys) }
{}

/// Each corner of each polygon of a tile stands: the polygon's storey has a cell under it.
pub fn corners_stand()
    ensures { HoldsOfTiles (λ setting. CornersStand) }
{}

/// So each corner of each polygon of a mesh is a place that stands: no polygon is without one.
pub fn corners_are_places()
    ensures { HoldsOfMeshes CornersArePlaces }
{}

/// In a tile of strips each point that a polygon holds stands.
pub fn points_of_strips_stand()
    ensures { HoldsOfTiles (λ setting tile. IsOfStrips setting tile → PointsStand tile) }
{}

/// At each point that a polygon of a mesh holds, the polygon's storey tells a floor, and with that floor the point is a place of the mesh.
pub fn held_points_are_places()
    ensures { HoldsOfMeshes HeldPointsArePlaces }
{}
