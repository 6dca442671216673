//! Tiles replaced in a mesh.

ghost use Rattle.std.specs.Prelude.{◌≡◌, ◌≤◌, ◌<◌, ◌++◌, ◌∷◌, [], ℕ, IfOk, IfErr, OnOk, OnErr, All, if◌then◌else◌, length, map, get_or, slice_index_or, false, true, List};
ghost use Rattle.std.specs.List.{filter};
ghost use Rattle.std.specs.Option.{option_copied};
ghost use Rattle.nav_ground.specs.Limits.{IsSetting};
ghost use Rattle.nav_ground.specs.Tiling.{tile_count};
ghost use Rattle.nav_ground.specs.Directions.{number};
ghost use Rattle.mesh_types.specs.declared.links.Link.{Link};
ghost use Rattle.mesh_types.specs.declared.mesh.TileMesh.{TileMesh};
ghost use Rattle.mesh_types.specs.Passages.{AreTwoWay, IsTwoWay};
ghost use Rattle.mesh_types.specs.Soundness.{AreTiles, IsSound, polygon_count};
ghost use Rattle.mesh_types.specs.FitTiles.{IsFit};
ghost use Rattle.mesh_types.specs.WholeMesh.{mesh_of};
ghost use Rattle.tile_links.specs.NewTiles.{AreNew, AreRising, IsWhole, New, is_near_new, tiles_after};
ghost use Rattle.tile_links.specs.NearTiles.{IsMarked, IsMarkedAcross};
ghost use Rattle.tile_links.specs.KeptLinks.{KeepsOld};
ghost use Rattle.tile_links.specs.Relinked.{AreInOrder, AreRelinked, ComeBeside};

use crate::join::{NumberedTiles, across, cross_links, links_with};
use mesh_types::{Link, Links, Mesh, TileMesh};
use nav_ground::{Direction, Setting, TileNo};
use nav_lists::{Chunks, Duplicate, Shared};
use std::alloc::{AllocError, Global};

/// Puts new tile meshes into a mesh, each with the number of its tile. The links over the borders of those tiles are made again, from
/// either side; the tiles beside them keep their other links, and all other tiles and lists of links are shared with the mesh as it was.
/// Where memory is refused, the mesh is unchanged and the new tile meshes come back.
pub fn replace(
    mesh: &mut Mesh,
    alloc: Global,
    news: Vec<(TileNo, Shared<TileMesh>)>,
) -> Result<(), (Vec<(TileNo, Shared<TileMesh>)>, AllocError)>
    requires setting { IsSetting mesh.old.setting }
    requires mesh { IsWhole mesh.old }
    requires news { AreNew mesh.old.setting news.items }
    requires few { polygon_count (tiles_after news.items mesh.old.tiles) ≤ 8000000 }
    ensures mesh { OnOk result (mesh.new ≡ mesh_of mesh.old.setting (tiles_after news.items mesh.old.tiles)) }
    ensures sound { OnOk result (IsSound mesh.new) }
    ensures back { All (λ (tile : TileMesh). AreTwoWay tile.links) (tiles_after news.items mesh.old.tiles) → OnOk result (IsTwoWay mesh.new) }
    ensures unchanged { OnErr result (mesh.new ≡ mesh.old) }
    ensures returned { IfErr result (λ refused. refused.0 ≡ news) }
{
    match replaced(alloc, mesh, news.as_slice()) {
        Ok(made) => {
            *mesh = made;
            Ok(())
        }
        Err(refused) => Err((news, refused)),
    }
}

/// The mesh that is had when new tile meshes are put into one that is lent, as `replace` puts them.
pub fn replaced(
    alloc: Global,
    mesh: &Mesh,
    news: &[(TileNo, Shared<TileMesh>)],
) -> Result<Mesh, AllocError>
    requires setting { IsSetting mesh.now.setting }
    requires mesh { IsWhole mesh.now }
    requires news { AreNew mesh.now.setting news.now }
    requires few { polygon_count (tiles_after news.now mesh.now.tiles) ≤ 8000000 }
    ensures mesh { IfOk result (λ made. made ≡ mesh_of mesh.now.setting (tiles_after news.now mesh.now.tiles)) }
    ensures sound { IfOk result IsSound }
    ensures back { All (λ (tile : TileMesh). AreTwoWay tile.links) (tiles_after news.now mesh.now.tiles) → IfOk result IsTwoWay }
{
    let tiles = tiles_after(alloc, &mesh.tiles, news)?;
    let tiled = NumberedTiles {
        setting: &mesh.setting,
        tiles: &tiles,
    };
    let cross = cross_after(alloc, tiled, &mesh.cross, news)?;
    Ok(Mesh {
        setting: mesh.setting,
        tiles,
        cross,
    })
}

/// Tiles with the new ones in place.
fn tiles_after(
    alloc: Global,
    tiles: &Chunks<Shared<TileMesh>>,
    news: &[(TileNo, Shared<TileMesh>)],
) -> Result<Chunks<Shared<TileMesh>>, AllocError>
    requires rising { AreRising news.now }
    requires order { AreInOrder tiles.now }
    ensures { IfOk result (λ after. after ≡ Rattle.tile_links.specs.NewTiles.tiles_after news.now tiles.now) }
{
    let mut after = tiles.duplicate(alloc)?;
    for new in news {
        after.set(alloc, new.0 as usize, new.1.share()?)?;
    }
    Ok(after)
}

/// The links that leave each tile, given those that left the tiles before the new ones came.
fn cross_after(
    alloc: Global,
    tiled: NumberedTiles,
    cross: &Chunks<Shared<Links>>,
    news: &[(TileNo, Shared<TileMesh>)],
) -> Result<Chunks<Shared<Links>>, AllocError>
    requires setting { IsSetting tiled.setting.now }
    requires tiles { AreTiles tiled.setting.now tiled.tiles.now }
    requires news { All (λ (new : New). new.0 < tile_count tiled.setting.now) news.now }
    requires rising { AreRising news.now }
    requires beside { length cross.now ≡ length tiled.tiles.now }
    requires kept { (t : ℕ) (d : List Link) (e : TileMesh) → t < length tiled.tiles.now → is_near_new tiled.setting.now news.now t ≡ false
        → get_or cross.now t d ≡ Rattle.mesh_types.specs.WholeMesh.cross_links tiled.setting.now tiled.tiles.now (get_or tiled.tiles.now t e) }
    requires old { ComeBeside tiled.setting.now news.now tiled.tiles.now cross.now }
    ensures { IfOk result (λ after. after
        ≡ map (Rattle.mesh_types.specs.WholeMesh.cross_links tiled.entry.setting.now tiled.entry.tiles.now) tiled.entry.tiles.now) }
{
    let changes = Changes { news, cross };
    let mut made = Relinked {
        cross: cross.duplicate(alloc)?,
        done: vec![in alloc; false; tiled.tiles.len()]?,
    };
    for new in news {
        relink_near(alloc, tiled, changes, &mut made, new.0)?;
    }
    Ok(made.cross)
}

/// New tile meshes, and the links that left the tiles before they came.
#[derive(Clone, Copy)]
struct Changes<'a> {
    news: &'a [(TileNo, Shared<TileMesh>)],
    cross: &'a Chunks<Shared<Links>>,
}

/// The links that leave each tile, and whether they were made again.
#[derive(Drop)]
struct Relinked {
    cross: Chunks<Shared<Links>>,
    done: Vec<bool>,
}

/// Makes the links again that leave a tile and those across its sides.
fn relink_near(
    alloc: Global,
    tiled: NumberedTiles,
    changes: Changes,
    made: &mut Relinked,
    tile: TileNo,
) -> Result<(), AllocError>
    requires setting { IsSetting tiled.setting.now }
    requires tiles { AreTiles tiled.setting.now tiled.tiles.now }
    requires rising { AreRising changes.news.now }
    requires beside { length changes.cross.now ≡ length tiled.tiles.now }
    requires old { ComeBeside tiled.setting.now changes.news.now tiled.tiles.now changes.cross.now }
    requires made { AreRelinked tiled.setting.now tiled.tiles.now changes.cross.now made.old.done.items made.old.cross }
    requires there { tile < tile_count tiled.setting.now }
    ensures made { OnOk result (AreRelinked tiled.entry.setting.now tiled.entry.tiles.now changes.entry.cross.now made.new.done.items made.new.cross) }
    ensures kept { OnOk result ((other : ℕ) → slice_index_or made.old.done.items other false ≡ true
        → slice_index_or made.new.done.items other false ≡ true) }
    ensures marked { OnOk result (IsMarked tiled.entry.setting.now made.new.done.items tile) }
{
    relink(alloc, tiled, changes, made, tile)?;
    for side in 0..4 {
        relink_across(alloc, tiled, changes, made, (tile, Direction::of(side)))?;
    }
    Ok(())
}

/// Makes the links again that leave the tile across a side of a tile, if there is one.
fn relink_across(
    alloc: Global,
    tiled: NumberedTiles,
    changes: Changes,
    made: &mut Relinked,
    over: (TileNo, Direction),
) -> Result<(), AllocError>
    requires setting { IsSetting tiled.setting.now }
    requires tiles { AreTiles tiled.setting.now tiled.tiles.now }
    requires rising { AreRising changes.news.now }
    requires beside { length changes.cross.now ≡ length tiled.tiles.now }
    requires old { ComeBeside tiled.setting.now changes.news.now tiled.tiles.now changes.cross.now }
    requires made { AreRelinked tiled.setting.now tiled.tiles.now changes.cross.now made.old.done.items made.old.cross }
    requires there { over.0 < tile_count tiled.setting.now }
    ensures made { OnOk result (AreRelinked tiled.entry.setting.now tiled.entry.tiles.now changes.entry.cross.now made.new.done.items made.new.cross) }
    ensures kept { OnOk result ((other : ℕ) → slice_index_or made.old.done.items other false ≡ true
        → slice_index_or made.new.done.items other false ≡ true) }
    ensures marked { OnOk result (IsMarkedAcross tiled.entry.setting.now made.new.done.items over.0 (number over.1)) }
{
    match across(tiled.setting, over.0, over.1) {
        Some(other) => relink(alloc, tiled, changes, made, other),
        None => Ok(()),
    }
}

/// Makes the links again that leave a tile, unless they were.
fn relink(
    alloc: Global,
    tiled: NumberedTiles,
    changes: Changes,
    made: &mut Relinked,
    tile: TileNo,
) -> Result<(), AllocError>
    requires setting { IsSetting tiled.setting.now }
    requires tiles { AreTiles tiled.setting.now tiled.tiles.now }
    requires rising { AreRising changes.news.now }
    requires beside { length changes.cross.now ≡ length tiled.tiles.now }
    requires old { ComeBeside tiled.setting.now changes.news.now tiled.tiles.now changes.cross.now }
    requires made { AreRelinked tiled.setting.now tiled.tiles.now changes.cross.now made.old.done.items made.old.cross }
    requires there { tile < tile_count tiled.setting.now }
    ensures made { OnOk result (AreRelinked tiled.entry.setting.now tiled.entry.tiles.now changes.entry.cross.now made.new.done.items made.new.cross) }
    ensures kept { OnOk result ((other : ℕ) → slice_index_or made.old.done.items other false ≡ true
        → slice_index_or made.new.done.items other false ≡ true) }
    ensures marked { OnOk result (slice_index_or made.new.done.items tile false ≡ true) }
{
    let place = tile as usize;
    if made.done[place] {
        return Ok(());
    }
    let tiles = tiled.tiles;
    let cross = changes.cross;
    let links = shared_near_links(
        alloc,
        tiled,
        changes.news,
        cross.at(place).get(),
        tiles.at(place).get(),
    )?;
    made.cross.set(alloc, place, links)?;
    made.done[place] = true;
    Ok(())
}

/// What `near_links` gives, as a value that several meshes can share.
fn shared_near_links(
    alloc: Global,
    tiled: NumberedTiles,
    news: &[(TileNo, Shared<TileMesh>)],
    old: &Links,
    tile: &TileMesh,
) -> Result<Shared<Links>, AllocError>
    requires setting { IsSetting tiled.setting.now }
    requires tiles { AreTiles tiled.setting.now tiled.tiles.now }
    requires tile { IsFit tiled.setting.now tile.now }
    requires few { length tile.now.polys ≤ 8000000 }
    requires rising { AreRising news.now }
    requires old { Rattle.tile_links.specs.NewTiles.is_new news.now tile.now.tile ≡ false
        → KeepsOld tiled.setting.now news.now tiled.tiles.now tile.now old.now }
    ensures { IfOk result (λ links. links ≡ Rattle.mesh_types.specs.WholeMesh.cross_links tiled.entry.setting.now tiled.entry.tiles.now tile.now) }
{
    let links = near_links(alloc, tiled, news, old, tile)?;
    Ok(Shared::new(alloc, links)?)
}

/// The links that leave a tile near a new one, given those that left it before: all of them again where the tile is new itself, and else
/// those over the sides across which one is.
fn near_links(
    alloc: Global,
    tiled: NumberedTiles,
    news: &[(TileNo, Shared<TileMesh>)],
    old: &Links,
    tile: &TileMesh,
) -> Result<Links, AllocError>
    requires setting { IsSetting tiled.setting.now }
    requires tiles { AreTiles tiled.setting.now tiled.tiles.now }
    requires tile { IsFit tiled.setting.now tile.now }
    requires few { length tile.now.polys ≤ 8000000 }
    requires rising { AreRising news.now }
    requires old { Rattle.tile_links.specs.NewTiles.is_new news.now tile.now.tile ≡ false
        → KeepsOld tiled.setting.now news.now tiled.tiles.now tile.now old.now }
    ensures { IfOk result (λ links. links ≡ Rattle.mesh_types.specs.WholeMesh.cross_links tiled.entry.setting.now tiled.entry.tiles.now tile.now) }
{
    if is_new(news, tile.tile) {
        return cross_links(alloc, tiled.setting, tiled.tiles, tile);
    }
    let kept = kept_links(alloc, old.as_slice(), news)?;
    let sides = new_sides(alloc, tiled.setting, news, tile.tile)?;
    links_with(alloc, kept, tiled, tile, sides.as_slice())
}

/// Of links those that lead to tiles that are not replaced.
fn kept_links(
    alloc: Global,
    links: &[Link],
    news: &[(TileNo, Shared<TileMesh>)],
) -> Result<Vec<Link>, AllocError>
    requires { AreRising news.now }
    ensures { IfOk result (λ kept. kept.items ≡ filter (Rattle.tile_links.specs.KeptLinks.leads_to_old news.now) links.now) }
{
    let mut kept = Vec::with_capacity(alloc, links.len())?;
    for link in links {
        push_kept(&mut kept, link, news)?;
    }
    Ok(kept)
}

/// Appends a link, unless it leads to a tile that is replaced.
fn push_kept(
    kept: &mut Vec<Link>,
    link: &Link,
    news: &[(TileNo, Shared<TileMesh>)],
) -> Result<(), AllocError>
    requires { AreRising news.now }
    ensures { OnOk result (kept.new.items ≡ kept.old.items
        ++ (if Rattle.tile_links.specs.KeptLinks.leads_to_old news.now link.now then link.now ∷ [] else [])) }
{
    if leads_to_old(news, link) {
        kept.push(*link)?;
    }
    Ok(())
}

/// Whether a link leads to a tile that is not replaced.
fn leads_to_old(news: &[(TileNo, Shared<TileMesh>)], link: &Link) -> bool
    requires { AreRising news.now }
    ensures { result ≡ Rattle.tile_links.specs.KeptLinks.leads_to_old news.now link.now }
{
    !is_new(news, link.to.tile)
}

/// The sides of a tile across which a tile is replaced.
fn new_sides(
    alloc: Global,
    setting: &Setting,
    news: &[(TileNo, Shared<TileMesh>)],
    tile: TileNo,
) -> Result<Vec<Direction>, AllocError>
    requires setting { IsSetting setting.now }
    requires there { tile < tile_count setting.now }
    requires rising { AreRising news.now }
    ensures { IfOk result (λ sides. map number sides.items ≡ Rattle.tile_links.specs.KeptLinks.new_sides setting.now news.now tile) }
{
    let mut sides = Vec::with_capacity(alloc, 4)?;
    for beside in 0..4 {
        let side = Direction::of(beside);
        if is_new_across(setting, news, tile, side) {
            sides.push(side)?;
        }
    }
    Ok(sides)
}

/// Whether the tile across a side of a tile is replaced.
fn is_new_across(
    setting: &Setting,
    news: &[(TileNo, Shared<TileMesh>)],
    tile: TileNo,
    side: Direction,
) -> bool
    requires setting { IsSetting setting.now }
    requires there { tile < tile_count setting.now }
    requires rising { AreRising news.now }
    ensures { result ≡ Rattle.tile_links.specs.NewTiles.is_new_across setting.now news.now tile (number side) }
{
    match across(setting, tile, side) {
        Some(other) => is_new(news, other),
        None => false,
    }
}

/// Whether the tile with a number is replaced.
fn is_new(news: &[(TileNo, Shared<TileMesh>)], number: TileNo) -> bool
    requires { AreRising news.now }
    ensures { result ≡ Rattle.tile_links.specs.NewTiles.is_new news.now number }
{
    new_tile(news, number).is_some()
}

/// The new tile mesh with a number, if there is one.
fn new_tile(news: &[(TileNo, Shared<TileMesh>)], number: TileNo) -> Option<&Shared<TileMesh>>
    requires { AreRising news.now }
    ensures { option_copied result ≡ Rattle.tile_links.specs.NewTiles.new_tile news.now number }
{
    match news.binary_search_by_key(&number, |new| new.0) {
        Ok(place) => Some(&news[place].1),
        Err(_) => None,
    }
}
