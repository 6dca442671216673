//! The queue: the history, which tiles await a build, and who claimed them.

ghost use Rattle.std.specs.Prelude.{◌≡◌, ◌<◌, ◌≤◌, None, [], false, length, replicate, IfOk, slice_index_or, vec_capacity};
ghost use Rattle.std.specs.Arc.{arc_value};
ghost use Rattle.nav_ground.specs.Grounds.{IsGround};
ghost use Rattle.nav_ground.specs.History.{IsHistory, IsRequest, alive_after, history_limit, shapes_alive};
ghost use Rattle.nav_ground.specs.Tiling.{tile_count};
ghost use Rattle.build_queue.specs.BookState.{IsBook, first_state, least_awaited};
ghost use Rattle.build_queue.specs.GroundSteps.{IsGroundFor, IsGroundStep};
ghost use Rattle.build_queue.specs.Renewal.{AddsAgain, IsAllShown};
ghost use Rattle.build_queue.specs.StepContracts.{IsAimStep, IsClaimStep, IsPutBackAllStep, IsPutBackStep, IsRenewStep, IsRequestStep, IsShowStep, IsSubmitStep};
ghost use Rattle.build_queue.specs.Steps;

use crate::live::{BoundedShape, HistoryFull, Job, Live, Published, Submitted, answer, take_over};
use crate::reach::{is_touching_list, touching_list};
use crate::renewal::{begin_again, numbers};
use crate::waiting::{TileSet, WaitingTiles, look_again, mark_changed};
use nav_ground::{Entry, Ground, HISTORY_LIMIT, Reply, Request, Shape, TileNo, tiles};
use nav_lists::Items;
use std::alloc::{AllocError, Global};
use std::marker::Model;
use std::sync::Arc;

/// The history of the requests to a ground, and for each tile the list of shapes that its stored mesh was built with and whether its build
/// is claimed. Only `begin` and `claim` take memory.
#[derive(Drop)]
pub struct BuildQueue {
    ground: Arc<Ground>,
    entries: Vec<Entry>,
    /// The obstacles that are alive after all entries.
    live: Vec<Live>,
    target: u32,
    published: u32,
    /// The shapes that are alive at the target.
    aimed: Vec<BoundedShape>,
    stored: Vec<Items<Shape>>,
    /// The tiles that a shape touches which came or went since the target.
    dirty: TileSet,
    waiting: WaitingTiles,
}

impl Model for BuildQueue {
    ghost use Rattle.build_queue.specs.BookState.{BookState};

    ghost Value = { BookState };

    ghost use Rattle.build_queue.specs.Representation.{state_of, IsKept};

    ghost view = { state_of };

    ghost invariant = { IsKept };
}

impl BuildQueue {
    /// The queue of a ground with no entries, of which each tile is stored without shapes. It takes the room for a whole history and for as
    /// many live obstacles as the setting allows.
    pub fn begin(alloc: Global, ground: Arc<Ground>) -> Result<BuildQueue, AllocError>
        requires { IsGround (arc_value ground) }
        ensures state { IfOk result (λ queue. queue ≡ first_state (arc_value ground)) }
        ensures rules { IfOk result IsBook }
    {
        let QueueRoom {
            entries,
            live,
            aimed,
        } = empty_room(alloc, ground.setting.limit)?;
        let TileStates {
            stored,
            dirty,
            waiting,
        } = tile_tables(alloc, tiles(&ground.setting))?;
        Ok(BuildQueue {
            ground,
            entries,
            live,
            target: 0,
            published: 0,
            aimed,
            stored,
            dirty,
            waiting,
        })
    }

    /// Appends a request of a lane to the history, and gives the number of its entry, from 1, and its answer. It is refused exactly where the
    /// history is full, and then nothing changes.
    pub fn request(&mut self, lane: u32, request: Request) -> Result<(u32, Reply), HistoryFull>
        requires { IsRequest request }
        ensures { IsRequestStep self.old self.new lane request result }
    {
        let len = self.length();
        if len == HISTORY_LIMIT {
            return Err(HistoryFull { len });
        }
        let number = len + 1;
        let answered = answer(&mut self.live, self.ground.setting.limit, number, request);
        mark_changed(&self.ground.setting, &mut self.dirty, answered.changed);
        let reply = answered.reply;
        self.entries.push_reserved(Entry {
            lane,
            request,
            reply,
        });
        Ok((number, reply))
    }

    /// Makes the length of the history the target, and gives it. It looks again at the tiles that a shape touches which came or went since.
    pub fn aim(&mut self) -> u32
        ensures { IsAimStep self.old self.new result }
    {
        let len = self.length();
        take_over(self.live.as_slice(), &mut self.aimed);
        look_again(
            &self.ground.setting,
            self.aimed.as_slice(),
            self.stored.as_slice(),
            &mut self.dirty,
            &mut self.waiting,
        );
        self.target = len;
        len
    }

    /// Claims the least tile that is awaited and not claimed, and gives it with its touching list; none exactly where there is none. Where
    /// memory is refused, nothing has changed.
    pub fn claim(&mut self, alloc: Global) -> Result<Option<Job>, AllocError>
        ensures { IsClaimStep self.old self.new result }
    {
        match self.waiting.least_ready() {
            None => Ok(None),
            Some(tile) => {
                let shapes = touching_list(
                    alloc,
                    &self.ground.setting,
                    tile,
                    self.aimed.as_slice(),
                )?;
                self.waiting.set_claimed(tile, true);
                Ok(Some(Job { tile, shapes }))
            }
        }
    }

    /// Ends the claim on a tile, if there is one.
    pub fn put_back(&mut self, tile: TileNo)
        requires { tile < tile_count self.old.ground.setting }
        ensures { IsPutBackStep self.old self.new tile }
    {
        self.waiting.set_claimed(tile, false);
    }

    /// Ends all claims.
    pub fn put_back_all(&mut self)
        ensures { IsPutBackAllStep self.old self.new }
    {
        self.waiting.release_all();
    }

    /// Ends the claim on a tile, if there is one, and stores the list that a mesh of the tile was built with: `Taken` exactly where the tile
    /// is awaited and the list is its touching list at the target.
    pub fn submit(&mut self, tile: TileNo, shapes: Items<Shape>) -> Submitted
        requires { tile < tile_count self.old.ground.setting }
        ensures { IsSubmitStep self.old self.new tile shapes result }
    {
        self.waiting.set_claimed(tile, false);
        if !self.waiting.is_awaited(tile) {
            return Submitted::Stale;
        }
        if !is_touching_list(
            &self.ground.setting,
            tile,
            self.aimed.as_slice(),
            shapes.as_slice(),
        ) {
            return Submitted::Stale;
        }
        self.stored[tile as usize] = shapes;
        self.waiting.set_awaited(tile, false);
        Submitted::Taken
    }

    /// What a publish is answered now: `NotYet` with the least awaited tile, else `Same` where the target is published already, else `New`.
    /// Nothing changes.
    pub fn publication(&mut self) -> Published
        ensures answer { result ≡ Rattle.build_queue.specs.Steps.publication self.old }
        ensures same { self.new ≡ self.old }
    {
        if let Some(tile) = self.waiting.least_awaited() {
            return Published::NotYet { tile };
        }
        if self.target == self.published {
            return Published::Same { k: self.published };
        }
        Published::New { k: self.target }
    }

    /// Notes that the target is published.
    pub fn publish(&mut self)
        requires { least_awaited self.old ≡ None }
        ensures { IsShowStep self.old self.new }
    {
        self.published = self.target;
    }

    /// The numbers of the obstacles that are alive after the whole history, rising.
    pub fn alive(&self, alloc: Global) -> Result<Items<u32>, AllocError>
        ensures { IfOk result (λ numbers. numbers ≡ alive_after self.now.history (length self.now.history)) }
    {
        Ok(Items::from_vec(numbers(alloc, self.live.as_slice())?))
    }

    /// The history that a renewal leaves: the adds of the obstacles that are alive, in order of their numbers, each under the number of its
    /// place, from 1.
    pub fn renewed(&self, alloc: Global) -> Result<Items<Entry>, AllocError>
        ensures again { IfOk result (AddsAgain self.now.history (alive_after self.now.history (length self.now.history))) }
        ensures rules { IfOk result (IsHistory self.now.ground.setting.limit) }
        ensures alive { IfOk result (λ entries. shapes_alive entries (length entries) ≡ shapes_alive self.now.history (length self.now.history)) }
    {
        let mut entries = Vec::with_capacity(alloc, self.entries.len())?;
        entries.extend_from_slice(self.entries.as_slice())?;
        let mut live = Vec::with_capacity(alloc, self.live.len())?;
        live.extend_from_slice(self.live.as_slice())?;
        begin_again(&mut entries, &mut live);
        Ok(Items::from_vec(entries))
    }

    /// Begins the history again, where all of it is published: it adds the obstacles that are alive, in order of their numbers, and all of that
    /// is published. An obstacle's number is its place in that order, from 1. No tile is claimed then; what is stored stays. It takes no
    /// memory.
    pub fn renew(&mut self)
        requires { IsAllShown self.old }
        ensures { IsRenewStep self.old self.new }
    {
        begin_again(&mut self.entries, &mut self.live);
        let count = self.live.len() as u32;
        self.target = count;
        self.published = count;
        self.waiting.release_all();
    }

    /// Puts another ground of the same setting in the place of the ground: the history, what is aimed at and published, and the stored lists stay,
    /// and no tile is claimed then. It takes no memory.
    pub fn show_ground(&mut self, ground: Arc<Ground>)
        requires { IsGroundFor self.old.ground (arc_value ground) }
        ensures { IsGroundStep self.old self.new (arc_value ground) }
    {
        self.ground = ground;
        self.waiting.release_all();
    }

    /// The ground, as it is without obstacles.
    pub fn ground(&self) -> &Ground
        ensures value { result.now ≡ self.now.ground }
        ensures rules { IsBook self.now }
    {
        &self.ground
    }

    /// A further owner of the ground. It takes no memory; it is refused only where the count of owners has reached its end.
    pub fn shared_ground(&self) -> Result<Arc<Ground>, AllocError>
        ensures value { IfOk result (λ shared. arc_value shared ≡ self.now.ground) }
        ensures rules { IsBook self.now }
    {
        Ok(Arc::try_clone(&self.ground)?)
    }

    /// The shapes that a tile's stored mesh was built with.
    pub fn stored(&self, tile: TileNo) -> &Items<Shape>
        requires { tile < tile_count self.now.ground.setting }
        ensures { result.now ≡ slice_index_or self.now.stored tile [] }
    {
        &self.stored[tile as usize]
    }

    /// How many entries the history has.
    pub fn length(&self) -> u32
        ensures { result ≡ length self.now.history }
    {
        self.entries.len() as u32
    }

    /// How many entries the history had at the last aim.
    pub fn target(&self) -> u32
        ensures value { result ≡ self.now.target }
        ensures within { result ≤ length self.now.history }
    {
        self.target
    }

    /// How many entries are published.
    pub fn published(&self) -> u32
        ensures value { result ≡ self.now.published }
        ensures within { result ≤ self.now.target }
    {
        self.published
    }

    /// The history, the oldest entry first.
    pub fn entries(&self) -> &[Entry]
        ensures entries { result.now ≡ self.now.history }
        ensures rules { IsHistory self.now.ground.setting.limit self.now.history }
    {
        self.entries.as_slice()
    }
}

/// The room of a queue for its history and for live obstacles.
#[derive(Drop)]
struct QueueRoom {
    entries: Vec<Entry>,
    live: Vec<Live>,
    aimed: Vec<BoundedShape>,
}

/// The room for a whole history and for so many live obstacles, with nothing in it.
fn empty_room(alloc: Global, limit: u32) -> Result<QueueRoom, AllocError>
    ensures history { IfOk result (λ room. (room.entries.items ≡ []) × (history_limit ≤ vec_capacity room.entries)) }
    ensures live { IfOk result (λ room. (room.live.items ≡ []) × (limit ≤ vec_capacity room.live)) }
    ensures aimed { IfOk result (λ room. (room.aimed.items ≡ []) × (limit ≤ vec_capacity room.aimed)) }
{
    Ok(QueueRoom {
        entries: Vec::with_capacity(alloc, HISTORY_LIMIT as usize)?,
        live: Vec::with_capacity(alloc, limit as usize)?,
        aimed: Vec::with_capacity(alloc, limit as usize)?,
    })
}

/// What a queue keeps of each tile.
#[derive(Drop)]
struct TileStates {
    stored: Vec<Items<Shape>>,
    dirty: TileSet,
    waiting: WaitingTiles,
}

/// So many tiles, each stored without shapes, none marked, awaited or claimed.
fn tile_tables(alloc: Global, count: u32) -> Result<TileStates, AllocError>
    ensures stored { IfOk result (λ tables. tables.stored.items ≡ replicate count []) }
    ensures dirty { IfOk result (λ tables. tables.dirty ≡ replicate count false) }
    ensures waiting { IfOk result (λ tables. tables.waiting ≡ record { awaited = replicate count false; claimed = replicate count false }) }
{
    Ok(TileStates {
        stored: empty_lists(alloc, count)?,
        dirty: TileSet::new(alloc, count)?,
        waiting: WaitingTiles::new(alloc, count)?,
    })
}

/// So many empty lists.
fn empty_lists(alloc: Global, count: u32) -> Result<Vec<Items<Shape>>, AllocError>
    ensures { IfOk result (λ lists. lists.items ≡ replicate count []) }
{
    let mut lists = Vec::with_capacity(alloc, count as usize)?;
    for _tile in 0..count {
        lists.push(Items::new(alloc))?;
    }
    Ok(lists)
}
