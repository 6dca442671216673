//! What kinds show: in all of them or in none.

ghost use Rattle.std.specs.Prelude.{◌≡◌, All, IfOk, None, OnErr, OnOk, map};
ghost use Rattle.mesh_types.specs.Soundness.{IsSound};
ghost use Rattle.build_queue.specs.BookState.{BookState, least_awaited};
ghost use Rattle.build_queue.specs.Steps.{after_publish};
ghost use Rattle.nav_book.specs.LevelResults.{target_mesh};
ghost use Rattle.agent_kinds.specs.Firsts.{first_awaited};
ghost use Rattle.agent_kinds.specs.Kinds.{AreKinds};
ghost use Rattle.agent_kinds.specs.KindSteps.{after_publish_all, publication_by};

use nav_book::{Level, Published};
use nav_ground::TileNo;
use nav_query::PreparedMesh;
use std::alloc::{AllocError, Global};

/// What a publish of kinds is answered. Lengths count entries of the history, kinds are numbered from 0.
#[derive(Clone, Copy, PartialEq, Eq, Debug)]
pub enum KindsPublished {
    /// From now on the first `k` entries are published in all kinds.
    New { k: u32 },
    /// They were published before.
    Same { k: u32 },
    /// In the least kind in which a tile is awaited, this is the least such tile; nothing has changed.
    NotYet { kind: usize, tile: TileNo },
}

/// The least kind in which a tile is awaited, and the least such tile. Nothing that a caller sees has changed.
fn first_awaited(levels: &mut [Level]) -> Option<(usize, TileNo)>
    ensures found { result ≡ first_awaited levels.old }
    ensures same { levels.new ≡ levels.old }
{
    for kind in 0..levels.len() {
        if let Published::NotYet { tile } = levels[kind].publication() {
            return Some((kind, tile));
        }
    }
    None
}

/// What a publish is answered now. Nothing that a caller sees has changed.
pub(crate) fn publication(levels: &mut [Level]) -> KindsPublished
    requires kinds { AreKinds levels.old }
    ensures answer { All (λ (state : BookState). result ≡ publication_by (first_awaited levels.old) state) levels.old }
    ensures same { levels.new ≡ levels.old }
{
    match first_awaited(levels) {
        Some((kind, tile)) => KindsPublished::NotYet { kind, tile },
        None => lengths(&levels[0]),
    }
}

/// What a publish is answered where no tile is awaited.
fn lengths(level: &Level) -> KindsPublished
    ensures { result ≡ publication_by None level.now }
{
    let target = level.target();
    let published = level.published();
    if target == published {
        KindsPublished::Same { k: published }
    } else {
        KindsPublished::New { k: target }
    }
}

/// The meshes for the target, one a level.
fn next_meshes(alloc: Global, levels: &[Level]) -> Result<Vec<PreparedMesh>, AllocError>
    requires { All (λ (state : BookState). least_awaited state ≡ None) levels.now }
    ensures meshes { IfOk result (λ meshes. meshes.items ≡ map target_mesh levels.now) }
    ensures sound { IfOk result (λ meshes. All IsSound meshes.items) }
{
    let mut meshes = Vec::with_capacity(alloc, levels.len())?;
    for level in levels {
        let mesh = level.next_mesh(alloc)?;
        meshes.push(mesh)?;
    }
    Ok(meshes)
}

/// Publishes the target in each level, with its mesh. It takes no memory.
fn show_all(levels: &mut [Level], meshes: Vec<PreparedMesh>)
    requires kinds { AreKinds levels.old }
    requires built { All (λ (state : BookState). least_awaited state ≡ None) levels.old }
    requires meshes { meshes.items ≡ map target_mesh levels.old }
    requires sound { All IsSound meshes.items }
    ensures state { levels.new ≡ map after_publish levels.old }
    ensures rules { AreKinds levels.new }
{
    let mut meshes = meshes;
    while let Some(mesh) = meshes.pop() {
        let kind = meshes.len();
        levels[kind].show(mesh);
    }
}

/// Publishes the target in each level, once no tile is awaited in any. All meshes are made before one is shown: where memory is refused, nothing
/// has changed.
pub(crate) fn publish_all(levels: &mut [Level], alloc: Global) -> Result<(), AllocError>
    requires kinds { AreKinds levels.old }
    requires built { All (λ (state : BookState). least_awaited state ≡ None) levels.old }
    ensures state { OnOk result (levels.new ≡ map after_publish levels.old) }
    ensures refused { OnErr result (levels.new ≡ levels.old) }
    ensures rules { AreKinds levels.new }
{
    let meshes = next_meshes(alloc, levels)?;
    show_all(levels, meshes);
    Ok(())
}

/// Publishes the target in each level, unless a tile is awaited in one or nothing new is to be published.
pub(crate) fn publish_kinds(
    levels: &mut [Level],
    alloc: Global,
) -> Result<KindsPublished, AllocError>
    requires kinds { AreKinds levels.old }
    ensures answer { IfOk result (λ told. All (λ (state : BookState). told ≡ publication_by (first_awaited levels.old) state) levels.old) }
    ensures state { OnOk result (levels.new ≡ after_publish_all levels.old) }
    ensures refused { OnErr result (levels.new ≡ levels.old) }
    ensures wanted { OnErr result (All (λ (state : BookState). publication_by (first_awaited levels.old) state ≡ KindsPublished.New state.target) levels.old) }
    ensures rules { AreKinds levels.new }
{
    let answer = publication(levels);
    match answer {
        KindsPublished::New { .. } => {
            publish_all(levels, alloc)?;
            Ok(answer)
        }
        _ => Ok(answer),
    }
}
