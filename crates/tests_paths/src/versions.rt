//! A pair over a small flat ground: what its eyes answer before and after a publishing. What is wanted was worked out by hand.

ghost use Rattle.std.specs.Prelude.{◌≡◌, ◌<◌, ◌++◌, [], ◌∷◌, IfOk, OnOk, IfSome, All, length};
ghost use Rattle.std.specs.Arc.{arc_value};
ghost use Rattle.nav_ground.specs.Grounds.{IsGround};
ghost use Rattle.nav_ground.specs.Tiling.{tile_count};
ghost use Rattle.logbook.specs.Pages.{Book};
ghost use Rattle.mesh_types.specs.Soundness.{IsSound};
ghost use Rattle.mesh_types.specs.WholeMesh.{mesh_of};
ghost use Rattle.tile_build.specs.Meshes.{tiles_under};
ghost use Rattle.tests_paths.specs.OneTile.{numbered_tiles};
ghost use Rattle.nav_version.specs.Pairs.{EyeView, IsPatch};
ghost use Rattle.nav_version.specs.Versions.{IsVersion};

use crate::books::flat_field;
use crate::rows::hold;
use layer_cut::ground;
use mesh_types::{Answer, Mesh, TileMesh};
use nav_base::{Question, Steps};
use nav_ground::{AREAS, Agent, Entry, Ground, MeshKind, Reply, Request, Setting, Shape, TileNo};
use nav_lists::{Items, Shared};
use nav_query::PreparedMesh;
use nav_version::{Entries, Eye, Patch, Press, Version, pair};
use std::alloc::{AllocError, Global};
use std::marker::Brand;
use std::sync::ledger::{Blank, Ledger};
use std::sync::{Arc, Wait};
use tile_build::build_tiles;
use tile_links::joined;

/// 6 by 6 columns in one tile.
const SETTING: Setting = Setting {
    width: 6,
    depth: 6,
    tile: 6,
    agent: Agent {
        height: 10,
        climb: 4,
        radius: 0,
    },
    error: 169,
    mesh: MeshKind::Strips,
    limit: 4,
    costs: [1; AREAS],
    clear: false,
};

/// A block over all columns (x, 2), and the entry that adds it.
const BLOCK: Shape = Shape::Block {
    x0: 0,
    x1: 5,
    y0: 0,
    y1: 100,
    z0: 2,
    z1: 2,
};

const ADDED: Entry = Entry {
    lane: 0,
    request: Request::Add(BLOCK),
    reply: Reply::Added { number: 1 },
};

pub(crate) fn level(alloc: Global) -> Result<Ground, AllocError>
    ensures rules { IfOk result IsGround }
    ensures setting { IfOk result (λ level. level.setting ≡ SETTING) }
{
    let field = flat_field(alloc, 6, 6)?;
    let level = ground(alloc, SETTING, field)?;
    Ok(level)
}

/// The mesh of a ground without obstacles.
fn opening_mesh<L: Ledger>(
    alloc: Global,
    level: &Ground,
    steps: &mut Steps<L>,
) -> Result<Mesh, AllocError>
    requires level { IsGround level.now }
    ensures mesh { IfOk result (λ mesh. mesh ≡ mesh_of level.now.setting (tiles_under level.now [])) }
    ensures sound { IfOk result IsSound }
{
    let tiles = build_tiles(alloc, level, &[], steps)?;
    joined(alloc, &level.setting, tiles)
}

/// A mesh as versions have it.
fn prepared(alloc: Global, mesh: Mesh) -> Result<PreparedMesh, AllocError>
    ensures { IfOk result (λ prepared. prepared ≡ mesh) }
{
    Ok(PreparedMesh::new(Shared::new(alloc, mesh)?))
}

/// The version of a ground without obstacles.
pub(crate) fn opening<L: Ledger>(
    alloc: Global,
    level: Ground,
    blank: Blank,
) -> Result<Version, AllocError>
    requires level { IsGround level }
    requires name { blank.name ≡ L.name }
    requires parts { blank.parts ≡ L.parts }
    requires some { 0 < blank.parts }
    ensures rules { IfOk result IsVersion }
    ensures ground { IfOk result (λ version. arc_value version.ground ≡ level) }
    ensures entries { IfOk result (λ version. version.entries ≡ []) }
{
    let mut steps = Steps::<L>::new(blank);
    let mesh = opening_mesh(alloc, &level, &mut steps)?;
    Ok(Version {
        ground: Arc::new(alloc, level)?,
        entries: Entries::new(alloc)?,
        mesh: prepared(alloc, mesh)?,
    })
}

/// Tile meshes, each with the number of its tile.
fn numbered(
    alloc: Global,
    tiles: &[Shared<TileMesh>],
) -> Result<Vec<(TileNo, Shared<TileMesh>)>, AllocError>
    ensures { IfOk result (λ news. news.items ≡ numbered_tiles tiles.now) }
{
    let mut news = Vec::with_capacity(alloc, tiles.len())?;
    for tile in tiles {
        push_numbered(&mut news, tile)?;
    }
    Ok(news)
}

fn push_numbered(
    news: &mut Vec<(TileNo, Shared<TileMesh>)>,
    tile: &Shared<TileMesh>,
) -> Result<(), AllocError>
    ensures { OnOk result (news.new.items ≡ news.old.items ++ (tile.now.tile, tile.now) ∷ []) }
{
    let own = tile.share()?;
    news.push((tile.get().tile, own))?;
    Ok(())
}

/// The tile meshes of a ground under the block, each with the number of its tile.
fn covered<L: Ledger>(
    alloc: Global,
    level: &Ground,
    steps: &mut Steps<L>,
) -> Result<Vec<(TileNo, Shared<TileMesh>)>, AllocError>
    requires level { IsGround level.now }
    ensures { IfOk result (λ news. news.items ≡ numbered_tiles (tiles_under level.now (BLOCK ∷ []))) }
{
    let tiles = build_tiles(alloc, level, &[BLOCK], steps)?;
    let news = numbered(alloc, tiles.as_slice())?;
    Ok(news)
}

/// The patch that publishes the block over the first version of a ground of one tile.
pub(crate) fn covering<L: Ledger>(
    alloc: Global,
    version: &Version,
    blank: Blank,
) -> Result<Patch, AllocError>
    requires rules { IsVersion version.now }
    requires none { version.now.entries ≡ [] }
    requires one { tile_count (arc_value version.now.ground).setting ≡ 1 }
    requires name { blank.name ≡ L.name }
    requires parts { blank.parts ≡ L.parts }
    requires some { 0 < blank.parts }
    ensures { IfOk result (λ patch. IsPatch (arc_value version.now.ground) version.now.entries patch) }
{
    let mut steps = Steps::<L>::new(blank);
    let tiles = covered(alloc, &version.ground, &mut steps)?;
    let mut entries = Items::new(alloc);
    entries.push(ADDED)?;
    Ok(Patch { entries, tiles })
}

/// The length that an eye names, and how many floors it sees in a column; none where it is refused.
pub(crate) fn floors(eye: &mut Eye, alloc: Global, x: u32, z: u32) -> Option<(u32, usize)>
    ensures { eye.new.pair ≡ eye.old.pair }
{
    match eye.ask(alloc, &Question::Floor { x, z }) {
        Ok((length, answer)) => Some((length, count(&answer))),
        Err(_) => None,
    }
}

/// How many floors an answer has; 9 where it is no answer of floors.
fn count(answer: &Answer) -> usize {
    match answer {
        Answer::Floors(floors) => floors.len(),
        _ => 9,
    }
}

/// What the eyes see in a column of the block: the first one before the publishing, the second one once it learnt of it, and the first one
/// again, which was told nothing; and the length that was told, and what the second one says that it has seen.
type Seen = ([Option<(u32, usize)>; 3], [u32; 2]);

fn seen_by<R: Wait>(
    rt: &R,
    alloc: Global,
    press: &mut Press,
    eyes: &mut (Eye, Eye),
    patch: Patch,
) -> Option<Seen>
    requires of { eyes.old.1.pair ≡ press.old.pair }
    requires patch { IsPatch press.old.ground press.old.entries patch }
{
    let before = floors(&mut eyes.0, alloc, 2, 2);
    match press.publish(rt, alloc, patch) {
        Ok(told) => {
            let length = told.length();
            eyes.1.learn(told);
            let after = floors(&mut eyes.1, alloc, 2, 2);
            let again = floors(&mut eyes.0, alloc, 2, 2);
            Some(([before, after, again], [length, eyes.1.seen()]))
        }
        Err((_patch, _refused)) => None,
    }
}

/// Two eyes, which are those of a pair.
pub(crate) fn both(mut eyes: Vec<Eye>) -> Option<(Eye, Eye)>
    ensures { (pair : Book) → All (λ (eye : EyeView). eye.pair ≡ pair) eyes.items → IfSome result (λ both. (both.0.pair ≡ pair) × (both.1.pair ≡ pair)) }
{
    let second = eyes.pop()?;
    let first = eyes.pop()?;
    Some((first, second))
}

// A press may go to another thread.
fn sent<T: Send>(value: T) -> T
    ensures { result ≡ value }
{
    value
}

/// The same, of a press and its two eyes, with the press ended.
fn watched<R: Wait>(
    rt: &R,
    alloc: Global,
    press: Press,
    eyes: Vec<Eye>,
    patch: Patch,
) -> Option<Seen>
    requires eyes { All (λ (eye : EyeView). eye.pair ≡ press.pair) eyes.items }
    requires patch { IsPatch press.ground press.entries patch }
{
    let mut press = sent(press);
    let seen = match both(eyes) {
        Some(mut eyes) => seen_by(rt, alloc, &mut press, &mut eyes, patch),
        None => None,
    };
    press.end(rt);
    seen
}

#[test]
fn eyes_read_what_is_published(rt: HostRuntime) -> Result<(), AllocError> {
    let alloc = rt.alloc();
    let version = opening::<Brand>(alloc, level(alloc)?, Blank::new(1))?;
    let patch = covering::<Brand>(alloc, &version, Blank::new(1))?;
    let (press, eyes) = pair(&rt, alloc, version, 2)?;
    let seen = watched(&rt, alloc, press, eyes, patch);
    let answers = [Some((0, 1)), Some((1, 0)), Some((1, 0))];
    hold(&rt, "a pair", seen == Some((answers, [1, 1])));
    Ok(())
}

/// With no readers there is a press alone.
#[test]
fn a_press_may_have_no_eyes(rt: HostRuntime) -> Result<(), AllocError> {
    let alloc = rt.alloc();
    let version = opening::<Brand>(alloc, level(alloc)?, Blank::new(1))?;
    let (press, eyes) = pair(&rt, alloc, version, 0)?;
    let seen = (press.length(), eyes.len());
    press.end(&rt);
    hold(&rt, "no eyes", seen == (0, 0));
    Ok(())
}
