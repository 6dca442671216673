// The lock and its passes.
ghost use Rattle.std.specs.Prelude.{◌≡◌, ◌%◌, ◌≤◌, true, false, [], ◌∷◌, length, map, IfOk, IfErr, All, Any, vec_capacity};
ghost use Rattle.turn_lock.specs.Growth.{made_by, Extends};
ghost use Rattle.turn_lock.specs.Locks.{IsOf, AreFresh, AreAll, MayName, Acts, claim_of};
ghost use Rattle.turn_lock.specs.Turns.{Finds, Returns, held_list};
ghost use Rattle.turn_lock.specs.SeatViews.{having_seen, first_view, claims_of};

use crate::booked::Booked;
use crate::turns::{Board, Dealing, Gathering, Giving, Looking, SeatPlace, TableStart, Taking};
use atomic_table::Refused;
use std::alloc::{AllocError, Global};
use std::hint::spin_loop;
use std::marker::Model;
use std::snapshot::Snapshot;
use std::sync::Wait;
use std::sync::atomic::{AtomicU64, Ordering};

// How often a thread looks at the word before it sleeps.
const LOOKS: u32 = 100;

/// A lock round a value with a list of entries.
///
/// Contracts see which lock it is, its value's root and the number of its passes. Its passes act on the value, by `with`;
/// with all of them `close` gives the value back.
#[derive(Drop)]
pub struct TurnLock<B: Booked> {
    table: Board<B>,
    // How many threads sleep, or are about to.
    sleepers: AtomicU64,
}

impl<B: Booked> Model for TurnLock<B> {
    ghost use Rattle.std.specs.Prelude.{◌≡◌, ◌≤◌};
    ghost use Rattle.turn_lock.specs.Locks.{LockId, lock_id_code};

    ghost Value = { LockId B.Root };

    ghost coded = { lock_id_code B.Root.code };

    ghost view = { λ l. let shared = l.table.shared in
        record { table = shared.table_id; root = B.root shared.key.value.value; passes = shared.key.passes } };

    ghost invariant = { λ l. let shared = l.table.shared in
        (shared.table_id.words ≡ 1) × (shared.table_id.slots ≡ 1) × (1 ≤ shared.key.passes) };
}

/// The right to act on a lock's value under one number, which no other pass of the lock has.
///
/// Contracts see its lock and the root of that lock's value, its number, the list that it has seen, and the greatest
/// length that it has met, which is at least that list's.
#[derive(Drop)]
pub struct Pass<B: Booked> {
    place: SeatPlace<B>,
}

impl<B: Booked> Model for Pass<B> {
    ghost use Rattle.std.specs.Prelude.{◌≡◌, ◌≤◌, false, [], length};
    ghost use Rattle.turn_lock.specs.Locks.{PassView, pass_view_code};

    ghost Value = { PassView B.Root B.Entry };

    ghost coded = { pass_view_code B.Root.code B.Entry.code };

    ghost view = { λ p. let v = p.place.me.0 in
        record { table = p.place.table_id; root = v.root; number = v.own.number; seen = v.own.seen; met = v.own.met } };

    // Between two calls no pass has the turn. Its seat speaks for it alone.
    ghost invariant = { λ p. let v = p.place.me.0 in
        (p.place.me.1 ≡ []) × (v.holds ≡ false) × (v.taken ≡ []) × (length v.own.seen ≤ v.own.met) };
}

impl<B: Booked> TurnLock<B> {
    // One try at the turn, where the word was seen to be `word`.
    fn try_take(&self, place: &mut SeatPlace<B>, word: u64) -> bool
        requires of { (place.old.table_id ≡ self.now.table) × (place.old.me.0.root ≡ Some self.now.root) }
        requires idle { (place.old.me.1 ≡ []) × (place.old.me.0.taken ≡ []) }
        requires free { word % 2 ≡ 0 }
        ensures of { place.new.table_id ≡ place.old.table_id }
        ensures taken { result ≡ true → (value : B)
            × (place.new.me ≡ (having_seen true (B.entries value) place.old.me.0, (0, value) ∷ []))
            × Finds B.root B.entries B.maker place.old.me.0 value }
        ensures not_taken { result ≡ false → place.new.me ≡ place.old.me }
    {
        self.table
            .shared
            .compare_exchange::<Taking<B>>(place, 0, word, word + 1)
            == word
    }

    // Returns once the word may have changed from `word`.
    fn rest<R: Wait>(&self, rt: &R, word: u64) {
        for _ in 0..LOOKS {
            if self.table.shared.peek(0) != word {
                return;
            }
            spin_loop();
        }
        self.sleepers.fetch_add(1, Ordering::SeqCst);
        self.table.shared.park(rt, 0, (word % 4294967296) as u32);
        self.sleepers.fetch_sub(1, Ordering::SeqCst);
    }

    // Waits for the turn.
    fn take<R: Wait>(&self, rt: &R, place: &mut SeatPlace<B>)
        requires of { (place.old.table_id ≡ self.now.table) × (place.old.me.0.root ≡ Some self.now.root) }
        requires idle { (place.old.me.1 ≡ []) × (place.old.me.0.taken ≡ []) }
        ensures of { place.new.table_id ≡ place.old.table_id }
        ensures taken { (value : B)
            × (place.new.me ≡ (having_seen true (B.entries value) place.old.me.0, (0, value) ∷ []))
            × Finds B.root B.entries B.maker place.old.me.0 value }
    {
        for _ in rt.forever() {
            let word = self.table.shared.peek(0);
            if word % 2 == 0 {
                if self.try_take(place, word) {
                    return;
                }
            } else {
                self.rest(rt, word);
            }
        }
        unreachable!()
    }

    // Gives the turn back, with the value where it lies and the number of its entries.
    fn give(&self, place: &mut SeatPlace<B>, count: u32)
        requires of { place.old.table_id ≡ self.now.table }
        requires value { (value : B) × (place.old.me.1 ≡ (0, value) ∷ [])
            × Returns B.root B.entries B.maker self.now.root place.old.me.0 value }
        requires counted { count ≡ length (held_list B.entries place.old.me.1) }
        ensures of { place.new.table_id ≡ place.old.table_id }
        ensures given { place.new.me ≡ (having_seen false (held_list B.entries place.old.me.1) place.old.me.0, []) }
    {
        self.table
            .shared
            .store::<Giving<B>>(place, 0, 2 * count as u64);
        if self.sleepers.load(Ordering::SeqCst) > 0 {
            self.table.shared.wake_one(0);
        }
    }

    /// Waits for the turn, acts once on the value, and gives the turn back. It takes no memory but what the act takes.
    ///
    /// The act finds a list that goes on from what the pass had seen by entries of other makers alone. It leaves the list,
    /// or adds one entry under the number that it names. The pass has then seen the list after the act.
    pub fn with<R: Wait>(&self, rt: &R, alloc: Global, pass: &mut Pass<B>, act: B::Act) -> B::Done
        requires of { IsOf self.now pass.old }
        requires may { B.may self.now.root act }
        requires named { MayName (B.by act) pass.old.number }
        ensures of { IsOf self.now pass.new }
        ensures number { pass.new.number ≡ pass.old.number }
        ensures acts { Acts B.maker B.by (B.legal self.now.root) (B.did self.now.root) pass.old act result pass.new }
    {
        self.take(rt, &mut pass.place);
        let value = pass.place.slot_mut(&self.table.shared, 0);
        let _before = value.length();
        let done = value.act(rt, alloc, act);
        let after = value.length();
        self.give(&mut pass.place, after);
        done
    }

    /// The length of the list, by one load: at least each length that the pass met before, and the number of entries that
    /// it has seen. The pass has then met it. It does not wait.
    pub fn length(&self, pass: &mut Pass<B>) -> u32
        requires of { IsOf self.now pass.old }
        ensures met { pass.new ≡ record pass.old { met = result } }
        ensures grows { pass.old.met ≤ result }
        ensures seen { length pass.old.seen ≤ result }
    {
        (self.table.shared.load::<Looking<B>>(&mut pass.place, 0) / 2) as u32
    }

    // The lock with its first seat, which has the number 0.
    fn open(
        alloc: Global,
        value: B,
        passes: u32,
    ) -> Result<(TurnLock<B>, SeatPlace<B>), (B, AllocError)>
        requires some { 1 ≤ passes }
        requires empty { B.entries value ≡ [] }
        ensures lock { IfOk result (λ made. (made.0.root ≡ B.root value) × (made.0.passes ≡ passes)) }
        ensures first { IfOk result (λ made.
            (made.1.table_id ≡ made.0.table) × (made.1.me ≡ (first_view (B.root value), []))) }
        ensures back { IfErr result (λ failed. failed.0 ≡ value) }
    {
        let start = TableStart {
            value: Snapshot::of(&value),
            passes,
        };
        let mut slots = match Vec::with_capacity(alloc, 1) {
            Ok(slots) => slots,
            Err(error) => return Err((value, error)),
        };
        slots.push_reserved(value);
        match Board::<B>::new(alloc, &[0], slots, &start) {
            Ok((table, first)) => Ok((
                TurnLock {
                    table,
                    sleepers: AtomicU64::new(0),
                },
                first,
            )),
            Err(Refused { mut slots }) => {
                let Some(value) = slots.pop() else {
                    unreachable!()
                };
                slots.destroy_empty();
                Err((value, AllocError))
            }
        }
    }

    // Makes the passes from the first seat on, each with the next number.
    fn deal(&self, first: SeatPlace<B>, passes: u32, list: &mut Vec<Pass<B>>)
        requires count { (1 ≤ passes) × (passes ≡ self.now.passes) }
        requires first { (first.table_id ≡ self.now.table) × (first.me ≡ (first_view self.now.root, [])) }
        requires room { (list.old.items ≡ []) × (passes ≤ vec_capacity list.old) }
        ensures { AreFresh self.now list.new.items }
    {
        let mut giver = first;
        for _ in 1..passes {
            let next = self.table.shared.split_seat::<Dealing<B>>(&mut giver);
            list.push_reserved(Pass { place: giver });
            giver = next;
        }
        list.push_reserved(Pass { place: giver });
    }

    /// A lock round `value`, with so many passes, which are numbered from 0 and have seen nothing. `Err` gives the value
    /// back, and comes only for want of memory.
    pub fn new(
        alloc: Global,
        value: B,
        passes: u32,
    ) -> Result<(TurnLock<B>, Vec<Pass<B>>), (B, AllocError)>
        requires some { 1 ≤ passes }
        requires empty { B.entries value ≡ [] }
        ensures lock { IfOk result (λ made. (made.0.root ≡ B.root value) × (made.0.passes ≡ passes)) }
        ensures fresh { IfOk result (λ made. AreFresh made.0 made.1.items) }
        ensures back { IfErr result (λ failed. failed.0 ≡ value) }
    {
        let mut list = match Vec::with_capacity(alloc, passes as usize) {
            Ok(list) => list,
            Err(error) => return Err((value, error)),
        };
        let (lock, first) = TurnLock::open(alloc, value, passes)?;
        lock.deal(first, passes, &mut list);
        Ok((lock, list))
    }

    // Joins the seats of all passes: one seat then speaks for them all.
    fn gather(&self, mut passes: Vec<Pass<B>>) -> SeatPlace<B>
        requires some { 1 ≤ self.now.passes }
        requires all { AreAll self.now passes.items }
        ensures of { (result.table_id ≡ self.now.table) × (result.me.0.root ≡ Some self.now.root) }
        ensures idle { (result.me.1 ≡ []) × (result.me.0.holds ≡ false) }
        ensures claims { claims_of result.me.0 ≡ map claim_of passes.items }
    {
        let Some(first) = passes.pop() else {
            unreachable!()
        };
        let Pass { place: mut seat } = first;
        while let Some(pass) = passes.pop() {
            let Pass { place } = pass;
            self.table
                .shared
                .join_seat::<Gathering<B>>(&mut seat, place);
        }
        seat
    }

    /// Ends the lock, and gives the value back with the one list. It takes no memory.
    ///
    /// The list goes on from what each pass has seen by entries of other makers alone, so each pass's entries stand in it
    /// in the order in which the pass made them, and it has no entry of any other maker.
    pub fn close(self, passes: Vec<Pass<B>>) -> B
        requires { AreAll self passes.items }
        ensures root { B.root result ≡ self.root }
        ensures legal { B.legal self.root (B.entries result) }
        ensures extends { All (λ p. Extends B.maker p.number p.seen (B.entries result)) passes.items }
        ensures own { All (λ p. made_by B.maker p.number (B.entries result) ≡ made_by B.maker p.number p.seen)
            passes.items }
        ensures met { All (λ p. p.met ≤ length (B.entries result)) passes.items }
        ensures made { All (λ e. Any (λ p. p.number ≡ B.maker e) passes.items) (B.entries result) }
    {
        let seat = self.gather(passes);
        let TurnLock { table, sleepers: _ } = self;
        let mut closed = table.close_with(seat);
        let value = closed.take(0);
        closed.free();
        let _count = value.length();
        value
    }
}
