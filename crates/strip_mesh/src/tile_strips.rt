//! A tile's free cells beside their neighbour table and their strips.

ghost use Rattle.std.specs.Prelude.{◌≡◌, ◌<◌, ◌==◌, if◌then◌else◌, None, Some, option_and_then};
ghost use Rattle.nav_ground.specs.Directions.{number};
ghost use Rattle.cell_table.specs.Table.{neighbour};
ghost use Rattle.mesh_types.specs.StripLinks.{outside_of};

use mono_regions::{StripIndex, StripTable};
use nav_ground::{Direction, FreeLayer, PackedCell};
use nav_lists::Items;

/// What a mesh of strips is made from.
#[derive(Drop)]
pub struct TileStrips {
    /// The tile's free cells, which the mesh keeps.
    pub free: FreeLayer,
    /// For each cell and direction the index of the neighbour, or the number of cells where there is none in the tile.
    pub table: Items<[u32; 4]>,
    pub index: StripIndex,
}

impl TileStrips {
    ghost use Rattle.std.specs.Prelude.{◌≤◌, length, map};
    ghost use Rattle.mesh_types.specs.StripLinks.{strip_beyond};
    ghost use Rattle.mesh_types.specs.StripPolygons.{first_of};
    ghost use Rattle.mono_regions.specs.Indices.{cell_at, AreIndices};
    ghost use Rattle.mono_regions.specs.Joining.{IsTableOf};
    ghost use Rattle.strip_mesh.specs.Indexed.{AreIndexed, runs_in, run_in};
    ghost use Rattle.strip_mesh.specs.Strips.{last_of};

    /// The strips of a tile from its free cells and their strips, both of which it takes over.
    pub fn from_parts(free: FreeLayer, strips: StripTable) -> TileStrips
        requires { IsTableOf free.cells strips }
        ensures rules { AreIndexed result }
        ensures free { result.free ≡ free }
    {
        let StripTable { table, index } = strips;
        TileStrips { free, table, index }
    }

    /// The tile's free cells again; the rest is given up.
    pub fn into_free(self) -> FreeLayer
        ensures { result ≡ self.free }
    {
        self.free
    }

    /// How many strips there are.
    pub fn count(&self) -> u32
        requires { AreIndexed self.now }
        ensures value { result ≡ length (runs_in self.now) }
        ensures few { result ≤ 2000000 }
    {
        self.index.runs.len() as u32
    }

    /// The indices of the cells of a strip, from the first column on.
    pub fn run(&self, strip: u32) -> &[u32]
        requires rules { AreIndexed self.now }
        requires there { strip < length (runs_in self.now) }
        ensures cells { map (cell_at self.now.free.cells) result.now ≡ run_in self.now strip }
        ensures indices { AreIndices self.now.free.cells result.now }
    {
        self.index.runs.list(strip as usize)
    }

    /// The first cell of a strip.
    pub fn first(&self, strip: u32) -> &PackedCell
        requires rules { AreIndexed self.now }
        requires there { strip < length (runs_in self.now) }
        ensures value { result.now ≡ first_of (run_in self.now strip) }
        ensures x { result.now.at.x < 1024 }
        ensures z { result.now.at.z < 1024 }
    {
        let run = self.run(strip);
        &self.free.cells.as_slice()[run[0] as usize]
    }

    /// The last cell of a strip.
    pub fn last(&self, strip: u32) -> &PackedCell
        requires rules { AreIndexed self.now }
        requires there { strip < length (runs_in self.now) }
        ensures value { result.now ≡ last_of (run_in self.now strip) }
        ensures x { result.now.at.x < 1024 }
        ensures z { result.now.at.z < 1024 }
    {
        let run = self.run(strip);
        &self.free.cells.as_slice()[run[run.len() - 1] as usize]
    }

    /// The strip, other than a cell's own, that holds the cell which it names in a direction.
    pub fn beyond(&self, strip: u32, dir: Direction, at: u32) -> Option<u32>
        requires rules { AreIndexed self.now }
        requires there { at < length self.now.free.cells }
        ensures { result ≡ strip_beyond (runs_in self.now) strip (number dir) (cell_at self.now.free.cells at) }
    {
        let to = neighbour(self.table.as_slice(), at, dir);
        let owner = self.index.owners.get(to as usize).copied();
        other(owner, strip)
    }
}

/// The direction that lies outside an edge of a rectangle.
pub fn outside_of(edge: u32) -> Direction
    requires { edge < 4 }
    ensures { number result ≡ outside_of edge }
{
    Direction::of(3 - edge)
}

/// The index in a table at a cell and a direction; past the table one that no cell has.
fn neighbour(table: &[[u32; 4]], from: u32, dir: Direction) -> u32
    ensures { result ≡ neighbour table.now from (number dir) }
{
    match table.get(from as usize) {
        Some(next) => next[dir.index()],
        None => u32::MAX,
    }
}

/// A strip, unless it is a given one.
fn other(owner: Option<u32>, strip: u32) -> Option<u32>
    ensures { result ≡ option_and_then (λ t. if t == strip then None else Some t) owner }
{
    match owner {
        Some(owner) => { if owner == strip { None } else { Some(owner) } }
        None => None,
    }
}
