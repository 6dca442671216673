//! The links that leave a polygon.

ghost use Rattle.std.specs.Prelude.{◌≡◌};
ghost use Rattle.corridor_search.specs.MeshGraphs.{inner_links, outer_links};

use mesh_types::{Link, Mesh, PolyRef};

/// The links that leave a polygon inside its tile.
pub fn inner(mesh: &Mesh, at: PolyRef) -> &[Link]
    ensures { result.now ≡ inner_links mesh.now at }
{
    match mesh.tiles.get(at.tile as usize) {
        Some(tile) => tile.get().links.leaving(at.index),
        None => &[],
    }
}

/// The links that leave a polygon over its tile's border.
pub fn outer(mesh: &Mesh, at: PolyRef) -> &[Link]
    ensures { result.now ≡ outer_links mesh.now at }
{
    match mesh.cross.get(at.tile as usize) {
        Some(links) => links.get().leaving(at.index),
        None => &[],
    }
}
