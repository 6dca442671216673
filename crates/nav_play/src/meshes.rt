//! The parts of a mesh. Things that a scene tells of, one after another. The scene of a book.

ghost use Rattle.std.specs.Prelude.{◌≡◌, ◌++◌, OnOk};
ghost use Rattle.std.specs.List.{flat_map};
ghost use Rattle.nav_play.specs.Scenes.{StandsInFront, cell_text, link_text, links_text, mesh_text, polygon_text, spaced_point, head_text, scene_text, whole_text};

use crate::play_scene::{append_entries, append_tiles, write_line, write_point};
use mesh_types::{Link, Links, Mesh, Polygon, Polygons, TileMesh};
use nav_base::Point;
use nav_book::Book;
use nav_ground::{PackedCell, PackedFreeLayer};
use nav_lists::{Chunks, Shared};
use nav_text::append_line;
use std::alloc::AllocError;

/// The line of a free cell: its column, its floor and its area.
impl SceneItem for PackedCell {
    ghost text = { cell_text };

    fn append_to(&self, out: &mut Vec<u8>) -> Result<(), AllocError> {
        let at = self.at();
        write_line(out, b"cell", &[at.x, at.z, self.floor(), self.area()])
    }
}

/// A corner of a polygon, behind a space.
impl SceneItem for Point {
    ghost text = { spaced_point };

    fn append_to(&self, out: &mut Vec<u8>) -> Result<(), AllocError> {
        write_point(out, *self)
    }
}

/// The line of a polygon: its area, its least and its greatest floor, and its corners in order.
impl SceneItem for Polygon {
    ghost text = { polygon_text };

    fn append_to(&self, out: &mut Vec<u8>) -> Result<(), AllocError> {
        append_line(out, b"poly", &[self.area, self.low, self.high])?;
        append_all(out, self.corners.as_slice())?;
        out.extend_from_slice(b"\n")
    }
}

/// The lines of a tile's polygons, in order.
impl SceneItem for Polygons {
    ghost text = { flat_map polygon_text };

    fn append_to(&self, out: &mut Vec<u8>) -> Result<(), AllocError> {
        for place in 0..self.len() {
            self.at(place).append_to(out)?;
        }
        Ok(())
    }
}

/// The line of a link: the polygon that it leaves, over which edge, the polygon that it enters, and the left and the right end of its portal.
impl SceneItem for Link {
    ghost text = { link_text };

    fn append_to(&self, out: &mut Vec<u8>) -> Result<(), AllocError> {
        append_line(
            out,
            b"link",
            &[
                self.from.tile,
                self.from.index,
                self.edge,
                self.to.tile,
                self.to.index,
            ],
        )?;
        append_all(out, &[self.portal.left, self.portal.right])?;
        out.extend_from_slice(b"\n")
    }
}

/// The lines of a list of links, in order.
impl SceneItem for Links {
    ghost text = { links_text };

    fn append_to(&self, out: &mut Vec<u8>) -> Result<(), AllocError> {
        append_all(out, self.as_slice())
    }
}

/// The lines of a tile's mesh: its own, and then those of its free cells, of its polygons and of the links between them.
impl SceneItem for TileMesh {
    ghost text = { mesh_text };

    fn append_to(&self, out: &mut Vec<u8>) -> Result<(), AllocError> {
        write_line(out, b"mesh", &[self.tile])?;
        append_free(out, &self.free)?;
        self.polys.append_to(out)?;
        self.links.append_to(out)
    }
}

/// Appends the lines of the free cells of a tile, in order.
fn append_free(out: &mut Vec<u8>, free: &PackedFreeLayer) -> Result<(), AllocError>
    ensures ok { OnOk result (out.new.items ≡ out.old.items ++ flat_map cell_text free.now.cells) }
    ensures front { StandsInFront out.old.items out.new.items }
{
    let cells = free.cells(*out.allocator())?;
    append_all(out, cells.as_slice())
}

/// A thing that a scene tells of.
pub(crate) trait SceneItem {
    ghost use Rattle.std.specs.Prelude.{ℕ, List};

    // What a scene tells of it.
    ghost text: { Self → List ℕ };

    /// Appends what a scene tells of the thing.
    fn append_to(&self, out: &mut Vec<u8>) -> Result<(), AllocError>
        ensures ok { OnOk result (out.new.items ≡ out.old.items ++ text self.now) }
        ensures front { StandsInFront out.old.items out.new.items };
}

/// Appends what a scene tells of things, in order.
pub(crate) fn append_all<T: SceneItem>(out: &mut Vec<u8>, things: &[T]) -> Result<(), AllocError>
    ensures ok { OnOk result (out.new.items ≡ out.old.items ++ flat_map T.text things.now) }
    ensures front { StandsInFront out.old.items out.new.items }
{
    for thing in things {
        thing.append_to(out)?;
    }
    Ok(())
}

/// Appends what a scene tells of things that are kept in chunks, in order.
pub(crate) fn append_chunks<T: SceneItem>(
    out: &mut Vec<u8>,
    things: &Chunks<T>,
) -> Result<(), AllocError>
    ensures ok { OnOk result (out.new.items ≡ out.old.items ++ flat_map T.text things.now) }
    ensures front { StandsInFront out.old.items out.new.items }
{
    for part in things.parts() {
        append_all(out, part.get().as_slice())?;
    }
    Ok(())
}

impl<T: SceneItem> SceneItem for Shared<T> {
    ghost text = { T.text };

    fn append_to(&self, out: &mut Vec<u8>) -> Result<(), AllocError> {
        self.get().append_to(out)
    }
}

/// Appends the scene of what a book shows: the published length and how large the mesh is, the published entries, the columns of each tile, and
/// then exactly the free cells, the polygons and the links of the published mesh, in its order. What stood in `out` stays in front; where
/// memory is refused a part may stand behind it.
pub fn append_scene(out: &mut Vec<u8>, book: &Book) -> Result<(), AllocError>
    ensures ok { OnOk result (out.new.items ≡ out.old.items ++ scene_text book.now.state) }
    ensures front { StandsInFront out.old.items out.new.items }
{
    let level = book.level();
    append_head(out, book)?;
    append_entries(out, &book.entries()[..book.published() as usize])?;
    append_tiles(out, &level.ground().setting)?;
    append_mesh(out, level.mesh())
}

/// Appends the first line: the published length, the columns of the field along x and z, and how many polygons and links the mesh has.
fn append_head(out: &mut Vec<u8>, book: &Book) -> Result<(), AllocError>
    ensures ok { OnOk result (out.new.items ≡ out.old.items ++ head_text book.now.state) }
    ensures front { StandsInFront out.old.items out.new.items }
{
    let (polygons, links) = book.mesh_counts();
    let setting = &book.level().ground().setting;
    write_line(
        out,
        b"scene",
        &[
            book.published(),
            setting.width,
            setting.depth,
            polygons,
            links,
        ],
    )
}

/// Appends what stands inside the tiles of a mesh, and then the links over their borders.
fn append_mesh(out: &mut Vec<u8>, mesh: &Mesh) -> Result<(), AllocError>
    ensures ok { OnOk result (out.new.items ≡ out.old.items ++ whole_text mesh.now) }
    ensures front { StandsInFront out.old.items out.new.items }
{
    append_chunks(out, &mesh.tiles)?;
    append_chunks(out, &mesh.cross)
}
