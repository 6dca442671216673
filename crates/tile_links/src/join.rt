//! Tiles joined into one mesh. Two tiles and the border between them. Two lists of links made into one, in order where both are.

ghost use Rattle.std.specs.Prelude.{◌≡◌, ℕ, ◌≤◌, ◌<◌, ◌++◌, All, IfOk, OnOk, length, map, ◌==◌, ◌&&◌, ◌||◌, nat_lt, drop};
ghost use Rattle.std.specs.List.{flat_map, range_with_len};
ghost use Rattle.nav_ground.specs.Limits.{IsSetting};
ghost use Rattle.nav_ground.specs.Tiling.{tile_count};
ghost use Rattle.nav_ground.specs.Directions.{number};
ghost use Rattle.mesh_types.specs.declared.mesh.TileMesh.{TileMesh};
ghost use Rattle.mesh_types.specs.Passages.{AreTwoWay, IsTwoWay};
ghost use Rattle.mesh_types.specs.Soundness.{AreTiles, IsSound};
ghost use Rattle.mesh_types.specs.FitTiles.{IsFit};
ghost use Rattle.mesh_types.specs.BorderLinks.{along_side};
ghost use Rattle.mesh_types.specs.LinkOrder.{ordered_links};
ghost use Rattle.mesh_types.specs.WholeMesh.{tile_across, cross_links, mesh_of};
ghost use Rattle.tile_links.specs.Loose.{loose_over, HasGained};

use crate::rim::push_links;
use mesh_types::{Link, Links, Mesh, RimEdge, TileMesh, order_links};
use nav_ground::{Direction, Setting, TileNo};
use nav_lists::{Chunks, Items, Shared};
use std::alloc::{AllocError, Global};

/// The mesh of a setting and its tiles: the tiles, and for each of them the links that leave it over its sides. Only memory can be refused.
pub fn whole(alloc: Global, setting: &Setting, tiles: Vec<TileMesh>) -> Result<Mesh, AllocError>
    requires setting { IsSetting setting.now }
    requires tiles { AreTiles setting.now tiles.items }
    ensures mesh { IfOk result (λ mesh. mesh ≡ mesh_of setting.now tiles.items) }
    ensures sound { IfOk result IsSound }
    ensures back { All (λ (tile : TileMesh). AreTwoWay tile.links) tiles.items → IfOk result IsTwoWay }
{
    let tiles = shared(alloc, tiles)?;
    joined(alloc, setting, tiles)
}

/// What `whole` does, for tiles that may have other owners already.
pub fn joined(
    alloc: Global,
    setting: &Setting,
    tiles: Items<Shared<TileMesh>>,
) -> Result<Mesh, AllocError>
    requires setting { IsSetting setting.now }
    requires tiles { AreTiles setting.now tiles }
    ensures mesh { IfOk result (λ mesh. mesh ≡ mesh_of setting.now tiles) }
    ensures sound { IfOk result IsSound }
    ensures back { All (λ (tile : TileMesh). AreTwoWay tile.links) tiles → IfOk result IsTwoWay }
{
    let tiles = Chunks::from_vec(alloc, tiles.into_vec())?;
    let links = all_cross_links(alloc, setting, &tiles)?;
    let cross = Chunks::from_vec(alloc, links)?;
    Ok(Mesh {
        setting: *setting,
        tiles,
        cross,
    })
}

/// For each tile the links that leave it for other tiles.
fn all_cross_links(
    alloc: Global,
    setting: &Setting,
    tiles: &Chunks<Shared<TileMesh>>,
) -> Result<Vec<Shared<Links>>, AllocError>
    requires setting { IsSetting setting.now }
    requires tiles { AreTiles setting.now tiles.now }
    ensures { IfOk result (λ cross. cross.items ≡ map (Rattle.mesh_types.specs.WholeMesh.cross_links setting.now tiles.now) tiles.now) }
{
    let mut cross = Vec::with_capacity(alloc, tiles.len())?;
    for place in 0..tiles.len() {
        let tile = tiles.at(place);
        cross.push(shared_cross_links(alloc, setting, tiles, tile.get())?)?;
    }
    Ok(cross)
}

/// The links that leave a tile for other tiles, as a value that several meshes can share.
fn shared_cross_links(
    alloc: Global,
    setting: &Setting,
    tiles: &Chunks<Shared<TileMesh>>,
    tile: &TileMesh,
) -> Result<Shared<Links>, AllocError>
    requires setting { IsSetting setting.now }
    requires tiles { AreTiles setting.now tiles.now }
    requires tile { IsFit setting.now tile.now }
    requires few { length tile.now.polys ≤ 8000000 }
    ensures { IfOk result (λ links. links ≡ Rattle.mesh_types.specs.WholeMesh.cross_links setting.now tiles.now tile.now) }
{
    let links = cross_links(alloc, setting, tiles, tile)?;
    Ok(Shared::new(alloc, links)?)
}

/// Tiles as values that several meshes can share.
fn shared(alloc: Global, tiles: Vec<TileMesh>) -> Result<Items<Shared<TileMesh>>, AllocError>
    ensures { IfOk result (λ shared. shared ≡ tiles.items) }
{
    let mut shared = Vec::with_capacity(alloc, tiles.len())?;
    for tile in tiles {
        shared.push(Shared::new(alloc, tile)?)?;
    }
    Ok(Items::from_vec(shared))
}

/// The links that leave a tile over its four sides for other tiles, in the order of links.
pub fn cross_links(
    alloc: Global,
    setting: &Setting,
    tiles: &Chunks<Shared<TileMesh>>,
    tile: &TileMesh,
) -> Result<Links, AllocError>
    requires setting { IsSetting setting.now }
    requires tiles { AreTiles setting.now tiles.now }
    requires tile { IsFit setting.now tile.now }
    requires few { length tile.now.polys ≤ 8000000 }
    ensures { IfOk result (λ links. links ≡ cross_links setting.now tiles.now tile.now) }
{
    let tiled = NumberedTiles { setting, tiles };
    links_with(alloc, Vec::new(alloc), tiled, tile, &Direction::ALL)
}

/// The tiles of a ground, by their numbers.
#[derive(Clone, Copy)]
pub struct NumberedTiles<'a> {
    pub setting: &'a Setting,
    pub tiles: &'a Chunks<Shared<TileMesh>>,
}

/// The links that leave a tile over its four sides, in the order of links, given some of them and the sides over which the others lead. Those
/// of each side are put in order and merged into the others, so that all are in order already when they are put in order at last.
pub fn links_with(
    alloc: Global,
    known: Vec<Link>,
    tiled: NumberedTiles,
    tile: &TileMesh,
    sides: &[Direction],
) -> Result<Links, AllocError>
    requires setting { IsSetting tiled.setting.now }
    requires tiles { AreTiles tiled.setting.now tiled.tiles.now }
    requires tile { IsFit tiled.setting.now tile.now }
    requires few { length tile.now.polys ≤ 8000000 }
    requires others { HasGained known.items (flat_map (loose_over tiled.setting.now tiled.tiles.now tile.now) (map number sides.now))
        (flat_map (loose_over tiled.setting.now tiled.tiles.now tile.now) (range_with_len 0 4)) }
    ensures { IfOk result (λ links. links ≡ cross_links tiled.entry.setting.now tiled.entry.tiles.now tile.now) }
{
    let mut links = known;
    for side in sides {
        let found = side_links(alloc, tiled, tile, *side)?;
        links = merged(alloc, links, found)?;
    }
    order_links(links.as_mut_slice());
    Links::new(alloc, links, tile.polys.len() as u32)
}

/// The links that leave a tile over one of its sides, in the order of links.
fn side_links(
    alloc: Global,
    tiled: NumberedTiles,
    tile: &TileMesh,
    side: Direction,
) -> Result<Vec<Link>, AllocError>
    requires setting { IsSetting tiled.setting.now }
    requires tiles { AreTiles tiled.setting.now tiled.tiles.now }
    requires tile { IsFit tiled.setting.now tile.now }
    ensures { IfOk result (λ links. links.items ≡ ordered_links (loose_over tiled.entry.setting.now tiled.entry.tiles.now tile.now (number side))) }
{
    let count = count_along(tile.rim.as_slice(), side.index() as u32);
    let mut links = Vec::with_capacity(alloc, count)?;
    push_side_links(alloc, &mut links, tiled, tile, side)?;
    order_links(links.as_mut_slice());
    Ok(links)
}

/// How many entries of a rim run along a side. Mostly each has one link.
fn count_along(rim: &[RimEdge], side: u32) -> usize
    ensures { result ≡ length (along_side side rim.now) }
{
    let mut count = 0;
    for entry in rim {
        if entry.side == side {
            count += 1;
        }
    }
    count
}

/// Appends the links that leave a tile over one of its sides, in the order in which they are found.
fn push_side_links(
    alloc: Global,
    links: &mut Vec<Link>,
    tiled: NumberedTiles,
    tile: &TileMesh,
    side: Direction,
) -> Result<(), AllocError>
    requires setting { IsSetting tiled.setting.now }
    requires tiles { AreTiles tiled.setting.now tiled.tiles.now }
    requires tile { IsFit tiled.setting.now tile.now }
    ensures { OnOk result (HasGained links.old.items (loose_over tiled.entry.setting.now tiled.entry.tiles.now tile.now (number side)) links.new.items) }
{
    let tiles = tiled.tiles;
    if let Some(other) = across(tiled.setting, tile.tile, side) {
        let mesh = tiles.at(other as usize).get();
        push_links(alloc, links, tile, mesh, side.index() as u32)?;
    }
    Ok(())
}

/// The tile across a side of a tile, if there is one.
pub fn across(setting: &Setting, tile: TileNo, side: Direction) -> Option<TileNo>
    requires setting { IsSetting setting.now }
    requires there { tile < tile_count setting.now }
    ensures { result ≡ tile_across setting.now tile (number side) }
{
    let columns = setting.width.div_ceil(setting.tile);
    let rows = setting.depth.div_ceil(setting.tile);
    let column = tile % columns;
    let row = tile / columns;
    match side {
        Direction::Left if column == 0 => None,
        Direction::Left => Some(tile - 1),
        Direction::Above if row + 1 < rows => Some(tile + columns),
        Direction::Above => None,
        Direction::Right if column + 1 < columns => Some(tile + 1),
        Direction::Right => None,
        Direction::Below if row == 0 => None,
        Direction::Below => Some(tile - columns),
    }
}

/// A tile, the tile that lies across one of its sides, and that side: 0 for x - 1, 1 for z + 1, 2 for x + 1 and 3 for z - 1.
#[derive(Clone, Copy)]
pub struct Border<'a> {
    /// The tile that links lead from.
    pub tile: &'a TileMesh,
    /// The tile that they lead to.
    pub across: &'a TileMesh,
    /// The side of the first tile.
    pub side: u32,
    /// Where that side lies, in whole cells: x for the sides 0 and 2, z for the sides 1 and 3.
    pub line: i32,
}

/// The links of two lists, of which only that is promised: `links_with` puts them in order at the end. Where each of the two stands by the
/// polygon and the edge that its links leave, so do all, and that takes one pass then. One list of the two is handed on as it is where the
/// other is empty.
pub fn merged(alloc: Global, known: Vec<Link>, found: Vec<Link>) -> Result<Vec<Link>, AllocError>
    ensures { IfOk result (λ links. HasGained known.items found.items links.items) }
{
    if known.is_empty() {
        return Ok(found);
    }
    if found.is_empty() {
        return Ok(known);
    }
    merged_slices(alloc, known.as_slice(), found.as_slice())
}

/// The same of lists that are lent.
fn merged_slices(alloc: Global, known: &[Link], found: &[Link]) -> Result<Vec<Link>, AllocError>
    ensures { IfOk result (λ links. HasGained known.now found.now links.items) }
{
    let mut links = Vec::with_capacity(alloc, known.len() + found.len())?;
    let mut taken = 0;
    for link in known {
        taken = push_earlier(&mut links, found, taken, link)?;
        links.push(*link)?;
    }
    links.extend_from_slice(&found[taken..])?;
    Ok(links)
}

/// Appends those of the links found, from one on, that leave an earlier polygon or edge than a link, and gives the place of the next.
fn push_earlier(
    links: &mut Vec<Link>,
    found: &[Link],
    first: usize,
    link: &Link,
) -> Result<usize, AllocError>
    requires { first ≤ length found.now }
    ensures next { IfOk result (λ next. next ≤ length found.now) }
    ensures moved { IfOk result (λ next. links.new.items ++ drop next found.now ≡ links.old.items ++ drop first found.now) }
{
    let mut next = first;
    while next < found.len() && leaves_before(&found[next], link) {
        links.push(found[next])?;
        next += 1;
    }
    Ok(next)
}

/// Whether a link leaves an earlier polygon of a tile than another, or an earlier edge of one polygon.
fn leaves_before(a: &Link, b: &Link) -> bool
    ensures { result ≡ (nat_lt a.now.from.index b.now.from.index || (a.now.from.index == b.now.from.index && nat_lt a.now.edge b.now.edge)) }
{
    a.from.index < b.from.index || (a.from.index == b.from.index && a.edge < b.edge)
}
