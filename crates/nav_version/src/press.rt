//! The press, which publishes versions. What one publishing adds to a version. The next version, made whole before it is published.

ghost use Rattle.std.specs.Prelude.{◌≡◌, ◌<◌, ◌↔◌, ◌++◌, [], IfOk, IfErr, OnOk, OnErr, IsTrue, MatchBool, length, drop, replicate, slice_index_or};
ghost use Rattle.std.specs.Arc.{arc_value};
ghost use Rattle.nav_version.specs.Pairs.{IsNext, IsPatch, Shows, first_eye};
ghost use Rattle.nav_version.specs.VersionRule.{IsShown};
ghost use Rattle.nav_version.specs.Versions.{IsVersion};

use crate::entries::PublishedHistory;
use crate::eye::Eye;
use crate::rule::Told;
use crate::version::{HeldVersion, PublishedVersion, Version};
use mesh_types::TileMesh;
use nav_ground::{Entry, Reply, Request, Shape, TileNo};
use nav_lists::{Items, Shared};
use nav_query::PreparedMesh;
use std::alloc::{AllocError, Global};
use std::marker::Model;
use std::sync::{Arc, Wait};
use tile_links::replaced;

/// The one that publishes the versions of a pair. It is not `Drop`: `end` ends it.
///
/// Contracts see the pair, its ground, and the entries of the version that is published; the published mesh is that of both.
pub struct Press {
    stage: HeldVersion,
    history: PublishedHistory,
    /// The entries that the history has beyond those that are shown: none, but after a publishing that was refused once the history had grown.
    /// Nothing where others had added to the history, which nobody can.
    ahead: Option<Items<Entry>>,
}

impl Model for Press {
    ghost use Rattle.nav_version.specs.Pairs.{PressView};

    ghost Value = { PressView };

    ghost use Rattle.nav_version.specs.Representation.{press_view, IsPressKept};

    ghost view = { press_view };

    ghost invariant = { IsPressKept };
}

/// A press whose published version is the one given, and an eye for each reader, which has the version's ground and has seen its length.
/// With no readers there is no eye. Only memory can be refused; then the version is gone.
pub fn pair<R: Wait>(
    rt: &R,
    alloc: Global,
    version: Version,
    readers: u32,
) -> Result<(Press, Vec<Eye>), AllocError>
    requires { IsVersion version }
    ensures ground { IfOk result (λ made. made.0.ground ≡ arc_value version.ground) }
    ensures entries { IfOk result (λ made. made.0.entries ≡ version.entries) }
    ensures eyes { IfOk result (λ made. made.1.items ≡ replicate readers (first_eye made.0)) }
{
    let mut press = Press::showing(rt, alloc, version, readers)?;
    match press.eyes(alloc, readers) {
        Ok(eyes) => Ok((press, eyes)),
        Err(refused) => {
            press.end(rt);
            Err(refused)
        }
    }
}

// A version with its list, which is the whole history from then on.
fn first_of(
    alloc: Global,
    version: Version,
    history: &mut PublishedHistory,
) -> Result<PublishedVersion, AllocError>
    requires version { IsVersion version }
    requires history { history.old.entries ≡ [] }
    ensures version { IfOk result (λ shown. shown.version ≡ version) }
    ensures told { IfOk result (λ shown. shown.told ≡ history.new) }
    ensures is { IfOk result IsShown }
{
    let version = Shared::new(alloc, version)?;
    if !history.add_all(&version.get().entries) {
        return Err(AllocError);
    }
    let told = history.told();
    Ok(PublishedVersion { version, told })
}

// The entries with which the history is ahead once these were added to it: none where they are shown.
fn left_ahead(alloc: Global, is_shown: bool, more: Items<Entry>) -> Items<Entry>
    ensures { MatchBool is_shown (result ≡ []) (result ≡ more) }
{
    if is_shown { Items::new(alloc) } else { more }
}

// Whether a list of entries begins with these.
fn begins(entries: &[Entry], first: &[Entry]) -> bool
    ensures { IsTrue result → entries.now ≡ first.now ++ drop (length first.now) entries.now }
{
    for (i, entry) in first.iter().enumerate() {
        if !is_at(entries, i, entry) {
            return false;
        }
    }
    true
}

// Whether an entry stands in a place.
fn is_at(entries: &[Entry], place: usize, entry: &Entry) -> bool
    ensures { IsTrue result → (place < length entries.now) × (slice_index_or entries.now place entry.now ≡ entry.now) }
{
    place < entries.len() && is_same(&entries[place], entry)
}

// Whether two entries are the same.
fn is_same(a: &Entry, b: &Entry) -> bool
    ensures { IsTrue result → a.now ≡ b.now }
{
    a.lane == b.lane && is_same_request(&a.request, &b.request) && is_same_reply(&a.reply, &b.reply)
}

fn is_same_request(a: &Request, b: &Request) -> bool
    ensures { IsTrue result ↔ (a.now ≡ b.now) }
{
    match (a, b) {
        (Request::Add(a), Request::Add(b)) => is_same_shape(a, b),
        (Request::Remove(a), Request::Remove(b)) => a == b,
        _ => false,
    }
}

fn is_same_shape(a: &Shape, b: &Shape) -> bool
    ensures { IsTrue result ↔ (a.now ≡ b.now) }
{
    a == b
}

fn is_same_reply(a: &Reply, b: &Reply) -> bool
    ensures { IsTrue result ↔ (a.now ≡ b.now) }
{
    a == b
}

impl Press {
    fn showing<R: Wait>(
        rt: &R,
        alloc: Global,
        version: Version,
        readers: u32,
    ) -> Result<Press, AllocError>
        requires { IsVersion version }
        ensures ground { IfOk result (λ press. press.ground ≡ arc_value version.ground) }
        ensures entries { IfOk result (λ press. press.entries ≡ version.entries) }
    {
        let mut history = PublishedHistory::new();
        let first = first_of(alloc, version, &mut history)?;
        let stage = HeldVersion::begin(rt, alloc, first, readers)?;
        Ok(Press {
            stage,
            history,
            ahead: Some(Items::new(alloc)),
        })
    }

    fn eyes(&mut self, alloc: Global, readers: u32) -> Result<Vec<Eye>, AllocError>
        ensures same { self.new ≡ self.old }
        ensures eyes { IfOk result (λ eyes. eyes.items ≡ replicate readers (first_eye self.old)) }
    {
        let mut eyes = Vec::with_capacity(alloc, readers as usize)?;
        for _ in 0..readers {
            eyes.push(self.eye(alloc)?)?;
        }
        Ok(eyes)
    }

    fn eye(&mut self, alloc: Global) -> Result<Eye, AllocError>
        ensures same { self.new ≡ self.old }
        ensures eye { IfOk result (λ eye. eye ≡ first_eye self.old) }
    {
        let reader = self.stage.looker()?;
        Ok(Eye::opened(alloc, reader, self.told()))
    }

    /// Publishes the entries so far and those of the patch, with its tiles in place, and tells the new length. It waits for eyes that still
    /// read the version from before the last publishing. Where memory is refused, the published version is as before, and the patch comes
    /// back.
    ///
    /// All that takes memory comes before the history grows, but for a count of owners that has reached its end. If that is met, a later
    /// publishing goes on from there where its entries begin with those of this one; with other entries it is refused.
    pub fn publish<R: Wait>(
        &mut self,
        rt: &R,
        alloc: Global,
        patch: Patch,
    ) -> Result<Told, (Patch, AllocError)>
        requires { IsPatch self.old.ground self.old.entries patch }
        ensures published { OnOk result (self.new ≡ record self.old { entries = self.old.entries ++ patch.entries }) }
        ensures told { IfOk result (λ told. told ≡ record { pair = self.old.pair; entries = self.old.entries ++ patch.entries }) }
        ensures refused { OnErr result (self.new ≡ self.old) }
        ensures returned { IfErr result (λ refused. refused.0 ≡ patch) }
    {
        let mesh = match patched(alloc, self.version(), &patch) {
            Ok(mesh) => mesh,
            Err(refused) => return Err((patch, refused)),
        };
        match self.publish_mesh(rt, alloc, patch.entries.as_slice(), mesh) {
            Ok(told) => Ok(told),
            Err(refused) => Err((patch, refused)),
        }
    }

    /// Publishes the entries so far and further ones, with the mesh that they leave, and tells the new length: as `publish` does, for one
    /// who has that mesh already. It waits for eyes that still read the version from before the last publishing. Where memory is refused,
    /// the published version is as before.
    pub fn publish_mesh<R: Wait>(
        &mut self,
        rt: &R,
        alloc: Global,
        more: &[Entry],
        mesh: PreparedMesh,
    ) -> Result<Told, AllocError>
        requires { IsNext self.old.ground self.old.entries more.now mesh }
        ensures published { OnOk result (self.new ≡ record self.old { entries = self.old.entries ++ more.now }) }
        ensures told { IfOk result (λ told. told ≡ record { pair = self.old.pair; entries = self.old.entries ++ more.now }) }
        ensures refused { OnErr result (self.new ≡ self.old) }
    {
        let next = next_version(alloc, self.version(), more, mesh)?;
        let mut own = Vec::with_capacity(alloc, more.len())?;
        own.extend_from_slice(more)?;
        if self.show(rt, alloc, next, Items::from_vec(own)) {
            Ok(self.told())
        } else {
            Err(AllocError)
        }
    }

    // Shows the next version, at one step, and says whether it did.
    fn show<R: Wait>(
        &mut self,
        rt: &R,
        alloc: Global,
        next: Shared<Version>,
        more: Items<Entry>,
    ) -> bool
        requires rules { IsVersion next }
        requires ground { arc_value next.ground ≡ self.old.ground }
        requires entries { next.entries ≡ self.old.entries ++ more }
        ensures { MatchBool result (self.new ≡ record self.old { entries = next.entries }) (self.new ≡ self.old) }
    {
        let Some(ahead) = self.ahead.take() else {
            return false;
        };
        if !begins(more.as_slice(), ahead.as_slice()) {
            self.ahead = Some(ahead);
            return false;
        }
        if !self.history.add(&more.as_slice()[ahead.len()..]) {
            return false;
        }
        let told = self.history.told();
        let next = PublishedVersion {
            version: next,
            told,
        };
        let shown = self.stage.show(rt, next);
        self.ahead = Some(left_ahead(alloc, shown, more));
        shown
    }

    /// How many entries the published version has.
    pub fn length(&self) -> u32
        ensures { result ≡ length self.now.entries }
    {
        self.stage.shown().told.length()
    }

    /// The published length, for an eye of this pair to learn.
    pub fn told(&self) -> Told
        ensures { result ≡ record { pair = self.now.pair; entries = self.now.entries } }
    {
        self.stage.shown().told.again()
    }

    /// The published version.
    pub fn version(&self) -> &Version
        ensures value { Shows self.now result.now }
        ensures rules { IsVersion result.now }
    {
        self.stage.shown().version.get()
    }

    /// Ends the press. It waits for eyes that are reading; from then on no eye answers any more.
    pub fn end<R: Wait>(self, rt: &R) {
        let Press {
            stage,
            history: _,
            ahead: _,
        } = self;
        stage.end(rt);
    }
}

/// Further entries, and the tile meshes that change with them, each with the number of its tile.
#[derive(Drop)]
pub struct Patch {
    pub entries: Items<Entry>,
    pub tiles: Vec<(TileNo, Shared<TileMesh>)>,
}

/// The version that comes after one by further entries, with the mesh that they leave. The ground and the older entries are shared with the
/// one that is lent.
pub(crate) fn next_version(
    alloc: Global,
    version: &Version,
    more: &[Entry],
    mesh: PreparedMesh,
) -> Result<Shared<Version>, AllocError>
    requires version { IsVersion version.now }
    requires next { IsNext (arc_value version.now.ground) version.now.entries more.now mesh }
    ensures rules { IfOk result IsVersion }
    ensures ground { IfOk result (λ next. arc_value next.ground ≡ arc_value version.now.ground) }
    ensures entries { IfOk result (λ next. next.entries ≡ version.now.entries ++ more.now) }
{
    let ground = Arc::try_clone(&version.ground)?;
    let entries = version.entries.with(alloc, more)?;
    Ok(Shared::new(
        alloc,
        Version {
            ground,
            entries,
            mesh,
        },
    )?)
}

/// The mesh that a patch leaves: that of a version with the tiles of the patch in place. The two share all others. It has no landmarks.
pub(crate) fn patched(
    alloc: Global,
    version: &Version,
    patch: &Patch,
) -> Result<PreparedMesh, AllocError>
    requires version { IsVersion version.now }
    requires patch { IsPatch (arc_value version.now.ground) version.now.entries patch.now }
    ensures { IfOk result (IsNext (arc_value version.now.ground) version.now.entries patch.now.entries) }
{
    let mesh = replaced(alloc, version.mesh.get(), patch.tiles.as_slice())?;
    let shared = Shared::new(alloc, mesh)?;
    Ok(PreparedMesh::new(shared))
}
