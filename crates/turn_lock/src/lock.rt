// The lock: an object, and the turns of its callers.
ghost use Rattle.std.specs.Prelude.{◌≡◌, ◌≢◌, ℕ, ◌+◌, ◌^◌, ◌<◌, true, List, [], ◌∷◌, ◌++◌, Option, Some, None, MatchBool, IfOk, OnErr, vec_len};
ghost use Rattle.turn_lock.specs.declared.entry.Entry.{Entry};
ghost use Rattle.turn_lock.specs.declared.lock.TheConstants.{WORDS};
ghost use Rattle.turn_lock.specs.declared.view.Desk.{Desk};
ghost use Rattle.turn_lock.specs.declared.view.Stage.TheVariants.{Idle, Waits, Holds};
ghost use Rattle.turn_lock.specs.History.{Each, IsLegal, Rises, StartsWith, ops};
ghost use Rattle.turn_lock.specs.Turns.{Finds, Entered, DeskOk, Bears, at_stage, after, entry, first_view, Covers, Noted, Agrees};
ghost use Rattle.turn_lock.specs.Calls.{caller_of, seen, Gains, Stays, Calls, Looks, MayRefuse, AreTurns, IsNew, IsPart, pasts};

use crate::gate::Gate;
use crate::object::SeqObject;
use crate::rule::{Deal, Draw, Keep, Leave, Look, Made, Note, TakeIn, Told, Turns};
use crate::sleepers::Sleepers;
use crate::turn::{Joined, Turn};
use crate::view::{About, Apart, Desk, View};
use atomic_table::{Badge, Seat, Table};
use bt_core::beside::beside;
use bt_core::memory::Memory;
use bt_core::step::{ObjectId, Op, Reply};
use std::alloc::{AllocError, Global};
use std::marker::Brand;
use std::mem;
use std::snapshot::Snapshot;
use std::sync::Wait;

// The words of the table: the ticket that is drawn next, and the ticket that is served. Each has a cache line of its own, so that
// neither is slowed by the other, nor by what lies beside the table; the words between say nothing.
const TICKET: usize = 8;

const SERVING: usize = 16;

const WORDS: usize = 24;

/// A caller's seat while it is in a call.
pub(crate) type Place<O> = Seat<Option<Desk<O>>, View>;

/// A ticket lock round an object, for a fixed number of callers.
///
/// Its history is the list of all calls that were answered, in the order of their turns. It may be
/// shared among threads by reference.
pub struct TurnLock<O: SeqObject> {
    table: Table<Option<Desk<O>>, View, About<O>, Turns, Global>,
    id: ObjectId,
    sleepers: Sleepers,
    ghost sized: { (table.shared.table_id.words ≡ WORDS) × (table.shared.table_id.slots ≡ 1) },
    ghost some_callers: { 0 < table.shared.key.callers },
}

// Written out, so that it is one call wherever such a value is let go.
impl<O: SeqObject> Drop for TurnLock<O> {
    fn drop(self) {
        let Self {
            table: _,
            id: _,
            sleepers: _,
        } = self;
    }
}

impl<O: SeqObject> TurnLock<O> {
    ghost use Rattle.turn_lock.specs.Locks.{table_of, id_of, callers_of, kind_of, law_of, fits_of, IsOf, AreAll};

    // Takes the next ticket.
    fn draw(&self, seat: &mut Place<O>) -> u64
        requires table { seat.old.table_id ≡ table_of self.now }
        requires view { (seat.old.me.0.live ≡ true) × (seat.old.me.0.stage ≡ Idle) }
        ensures table { seat.new.table_id ≡ seat.old.table_id }
        ensures view { seat.new.me ≡ (at_stage seat.old.me.0 (Waits result), seat.old.me.1) }
    {
        self.table.shared.fetch_add::<Draw>(seat, TICKET, 1)
    }

    // Looks whether the ticket is served. If it is, the seat has the object from then on.
    fn look<W: Told<Desk<O>>>(&self, seat: &mut Place<O>, ticket: u64) -> bool
        requires table { seat.old.table_id ≡ table_of self.now }
        requires view { (seat.old.me.0.live ≡ true) × (seat.old.me.0.stage ≡ Waits ticket) × (seat.old.me.1 ≡ []) }
        requires tells { (d : Desk O) (c : ℕ) (h : List Entry) →
            Finds (law_of O.kind O.is_own O.reply_after self.now) (fits_of O.kind O.stands_for self.now) d c h → W.fits d c h }
        ensures table { seat.new.table_id ≡ seat.old.table_id }
        ensures view { MatchBool result (Entered W.fits seat.old.me seat.new.me) (seat.new.me ≡ seat.old.me) }
    {
        self.table.shared.load::<Look<W>>(seat, SERVING) == ticket
    }

    // Waits until the ticket is served.
    fn enter<R: Wait>(&self, rt: &R, seat: &mut Place<O>, ticket: u64)
        requires table { seat.old.table_id ≡ table_of self.now }
        requires view { (seat.old.me.0.live ≡ true) × (seat.old.me.0.stage ≡ Waits ticket) × (seat.old.me.1 ≡ []) }
        ensures table { seat.new.table_id ≡ seat.old.table_id }
        ensures view { Entered (Finds (law_of O.kind O.is_own O.reply_after self.now) (fits_of O.kind O.stands_for self.now)) seat.old.me seat.new.me }
    {
        let mut waited = self.sleepers.begin();
        for _ in rt.forever() {
            if self.look::<Brand>(seat, ticket) {
                self.sleepers.end(&waited);
                return;
            }
            self.sleepers.wait(rt, ticket, &mut waited);
        }
        unreachable!()
    }

    // Applies the operation to the object in the slot that the seat holds, where it lies.
    fn work(
        &self,
        alloc: Global,
        seat: &mut Place<O>,
        caller: u32,
        floor: u64,
        op: &Op,
        reply: &mut Reply,
    ) -> Result<u64, Memory>
        requires table { seat.old.table_id ≡ table_of self.now }
        requires own { O.is_own (kind_of O.kind self.now) op.now }
        requires held { (h : List Entry) × (d : Desk O) × (seat.old.me.0.stage ≡ Holds h) × (seat.old.me.1 ≡ (0, Some d) ∷ []) ×
            Finds (law_of O.kind O.is_own O.reply_after self.now) (fits_of O.kind O.stands_for self.now) d caller h }
        ensures table { seat.new.table_id ≡ seat.old.table_id }
        ensures view { seat.new.me.0 ≡ seat.old.me.0 }
        ensures done { IfOk result (λ stamp. (h : List Entry) → seat.old.me.0.stage ≡ Holds h →
            Bears (law_of O.kind O.is_own O.reply_after self.now) (fits_of O.kind O.stands_for self.now) seat.new.me.1
            (h ++ entry caller floor stamp op.now reply.new ∷ [])) }
        ensures memory { OnErr result ((h : List Entry) → seat.old.me.0.stage ≡ Holds h →
            Bears (law_of O.kind O.is_own O.reply_after self.now) (fits_of O.kind O.stands_for self.now) seat.new.me.1 h ×
            MayRefuse (O.is_free (kind_of O.kind self.now)) h floor op.now) }
    {
        match seat.slot_mut(&self.table.shared, 0) {
            Some(desk) => desk.serve(alloc, floor, op, reply),
            None => unreachable!(),
        }
    }

    // Gives the slot back, serves the next ticket, and wakes its caller.
    fn leave<W: Made>(&self, seat: &mut Place<O>)
        requires table { seat.old.table_id ≡ table_of self.now }
        requires view { seat.old.me.0.live ≡ true }
        requires held { (h : List Entry) × (d : Desk O) × (seat.old.me.0.stage ≡ Holds h) × (seat.old.me.1 ≡ (0, Some d) ∷ []) ×
            DeskOk (law_of O.kind O.is_own O.reply_after self.now) (fits_of O.kind O.stands_for self.now) d (h ++ W.made) }
        requires made { Each (λ e. e.caller ≡ seat.old.me.0.caller) W.made }
        ensures table { seat.new.table_id ≡ seat.old.table_id }
        ensures view { (h : List Entry) → seat.old.me.0.stage ≡ Holds h → seat.new.me ≡ (after W.made seat.old.me.0 h, []) }
    {
        let served = self.table.shared.fetch_add::<Leave<W>>(seat, SERVING, 1);
        self.sleepers.wake(served.wrapping_add(1));
    }

    // Passes the turn on, with one more entry.
    fn pass_on<W: Made>(
        &self,
        seat: &mut Place<O>,
        caller: u32,
        floor: u64,
        stamp: u64,
        op: &Op,
        reply: &Reply,
    )
        requires table { seat.old.table_id ≡ table_of self.now }
        requires made { W.made ≡ entry caller floor stamp op.now reply.now ∷ [] }
        requires view { (seat.old.me.0.live ≡ true) × (seat.old.me.0.caller ≡ caller) }
        requires held { (h : List Entry) × (seat.old.me.0.stage ≡ Holds h) ×
            Bears (law_of O.kind O.is_own O.reply_after self.now) (fits_of O.kind O.stands_for self.now) seat.old.me.1
            (h ++ entry caller floor stamp op.now reply.now ∷ []) }
        ensures table { seat.new.table_id ≡ seat.old.table_id }
        ensures view { (h : List Entry) → seat.old.me.0.stage ≡ Holds h →
            (seat.new.me ≡ (after (entry caller floor stamp op.now reply.now ∷ []) seat.old.me.0 h, [])) ×
            IsLegal (law_of O.kind O.is_own O.reply_after self.now) (h ++ entry caller floor stamp op.now reply.now ∷ []) }
    {
        self.leave::<W>(seat);
    }

    // Passes the turn on, with the object as it was.
    fn give_up(&self, seat: &mut Place<O>)
        requires table { seat.old.table_id ≡ table_of self.now }
        requires view { seat.old.me.0.live ≡ true }
        requires held { (h : List Entry) × (seat.old.me.0.stage ≡ Holds h) ×
            Bears (law_of O.kind O.is_own O.reply_after self.now) (fits_of O.kind O.stands_for self.now) seat.old.me.1 h }
        ensures table { seat.new.table_id ≡ seat.old.table_id }
        ensures view { (h : List Entry) → seat.old.me.0.stage ≡ Holds h →
            (seat.new.me ≡ (after [] seat.old.me.0 h, [])) × IsLegal (law_of O.kind O.is_own O.reply_after self.now) h }
    {
        self.leave::<Brand>(seat);
    }

    // Applies the operation while the seat has the turn, and passes the turn on.
    fn serve(
        &self,
        alloc: Global,
        seat: &mut Place<O>,
        caller: u32,
        floor: u64,
        op: &Op,
        reply: &mut Reply,
    ) -> Result<u64, Memory>
        requires table { seat.old.table_id ≡ table_of self.now }
        requires own { O.is_own (kind_of O.kind self.now) op.now }
        requires view { (seat.old.me.0.live ≡ true) × (seat.old.me.0.caller ≡ caller) }
        requires held { (h : List Entry) × (d : Desk O) × (seat.old.me.0.stage ≡ Holds h) × (seat.old.me.1 ≡ (0, Some d) ∷ []) ×
            Finds (law_of O.kind O.is_own O.reply_after self.now) (fits_of O.kind O.stands_for self.now) d caller h }
        ensures table { seat.new.table_id ≡ seat.old.table_id }
        ensures done { IfOk result (λ stamp. (h : List Entry) → seat.old.me.0.stage ≡ Holds h →
            (seat.new.me ≡ (after (entry caller floor stamp op.now reply.new ∷ []) seat.old.me.0 h, [])) ×
            IsLegal (law_of O.kind O.is_own O.reply_after self.now) (h ++ entry caller floor stamp op.now reply.new ∷ [])) }
        ensures memory { OnErr result ((h : List Entry) → seat.old.me.0.stage ≡ Holds h →
            (seat.new.me ≡ (after [] seat.old.me.0 h, [])) × IsLegal (law_of O.kind O.is_own O.reply_after self.now) h ×
            MayRefuse (O.is_free (kind_of O.kind self.now)) h floor op.now) }
    {
        match self.work(alloc, seat, caller, floor, op, reply) {
            Ok(stamp) => {
                self.pass_on::<Brand>(seat, caller, floor, stamp, op, &*reply);
                Ok(stamp)
            }
            Err(memory) => {
                self.give_up(seat);
                Err(memory)
            }
        }
    }

    /// The object's identifier, as it was given to [`TurnLock::new`].
    pub fn id(&self) -> ObjectId
        ensures { result ≡ id_of self.now }
    {
        self.id
    }

    // Draws a ticket, and waits for its turn.
    fn wait_turn<R: Wait>(&self, rt: &R, seat: &mut Place<O>)
        requires table { seat.old.table_id ≡ table_of self.now }
        requires view { (seat.old.me.0.live ≡ true) × (seat.old.me.0.stage ≡ Idle) × (seat.old.me.1 ≡ []) }
        ensures table { seat.new.table_id ≡ seat.old.table_id }
        ensures view { Entered (Finds (law_of O.kind O.is_own O.reply_after self.now) (fits_of O.kind O.stands_for self.now)) seat.old.me seat.new.me }
    {
        let ticket = self.draw(seat);
        self.enter(rt, seat, ticket);
    }

    // A call, by a seat that rests.
    fn run<G: Gate, R: Wait>(
        &self,
        rt: &R,
        alloc: Global,
        seat: &mut Place<O>,
        caller: u32,
        floor: u64,
        op: &Op,
        reply: &mut Reply,
        gate: &G,
    ) -> Result<u64, Memory>
        requires table { seat.old.table_id ≡ table_of self.now }
        requires own { O.is_own (kind_of O.kind self.now) op.now }
        requires view { (seat.old.me.0.live ≡ true) × (seat.old.me.0.stage ≡ Idle) × (seat.old.me.0.caller ≡ caller) × (seat.old.me.1 ≡ []) }
        ensures table { seat.new.table_id ≡ seat.old.table_id }
        ensures view { (seat.new.me.0.live ≡ true) × (seat.new.me.0.stage ≡ Idle) × (seat.new.me.0.caller ≡ caller) × (seat.new.me.1 ≡ []) }
        ensures done { IfOk result (λ stamp.
            Gains (law_of O.kind O.is_own O.reply_after self.now) caller seat.old.me.0 seat.new.me.0
            (entry caller floor stamp op.now reply.new)) }
        ensures memory { OnErr result (Stays (law_of O.kind O.is_own O.reply_after self.now) caller seat.old.me.0 seat.new.me.0) }
        ensures cause { OnErr result (MayRefuse (O.is_free (kind_of O.kind self.now)) seat.new.me.0.seen floor op.now) }
    {
        self.wait_turn(rt, seat);
        gate.held(rt, caller, self.id);
        self.serve(alloc, seat, caller, floor, op, reply)
    }

    /// Performs one operation when the caller's turn comes, writes the object's reply over what is there, and
    /// answers the call's stamp. `turn` is one of this lock's, and the operation one of the object's own.
    ///
    /// The stamp is one more than the greater of `floor` and the stamp before it in the history. The
    /// turn's own list grows by this call, and the history that it has seen then ends with it.
    /// While the turn is held, and before the operation is applied, the gate is told of it.
    ///
    /// [`Memory`] is answered only where the operation is not free after the history, or where
    /// `floor` or the last stamp of the history is 2^64 - 1. The history and the turn's own list are
    /// then as before, and nothing is said of the reply.
    pub fn call<G: Gate, R: Wait>(
        &self,
        rt: &R,
        alloc: Global,
        turn: &mut Turn,
        floor: u64,
        op: &Op,
        reply: &mut Reply,
        gate: &G,
    ) -> Result<u64, Memory>
        requires turn { IsOf self.now turn.old }
        requires own { O.is_own (kind_of O.kind self.now) op.now }
        ensures turn { IsOf self.now turn.new × (caller_of turn.new ≡ caller_of turn.old) }
        ensures done { IfOk result (λ stamp.
            Calls (law_of O.kind O.is_own O.reply_after self.now) turn.old turn.new
            (entry (caller_of turn.old) floor stamp op.now reply.new)) }
        ensures stamp { IfOk result (λ stamp. (floor < stamp) × Each (λ e. e.stamp < stamp) (seen turn.old)) }
        ensures memory { OnErr result (Looks (law_of O.kind O.is_own O.reply_after self.now) turn.old turn.new) }
        ensures cause { OnErr result
            (MayRefuse (O.is_free (kind_of O.kind self.now)) (seen turn.new) floor op.now) }
    {
        let mut seat: Place<O> = mem::replace(&mut turn.badge, Badge::blank()).into_seat();
        let outcome = self.run(rt, alloc, &mut seat, turn.caller, floor, op, reply, gate);
        turn.badge = seat.into_badge();
        outcome
    }

    // Joins the seats of the turns into one, the last turn first.
    fn take_in(&self, seat: &mut Place<O>, mut turns: Vec<Turn>)
        requires table { seat.old.table_id ≡ table_of self.now }
        requires turns { (k : ℕ) × AreTurns (table_of self.now) k turns.items }
        requires view { seat.old.me.0.live ≡ true }
        ensures table { seat.new.table_id ≡ seat.old.table_id }
        ensures view { seat.new.me ≡ (record seat.old.me.0 { taken = seat.old.me.0.taken ++ pasts turns.items }, seat.old.me.1) }
    {
        while let Some(turn) = turns.pop() {
            self.table
                .shared
                .join_seat::<TakeIn>(seat, turn.into_seat());
        }
    }

    // The turns of a new table, of which this is the first seat.
    fn deal(&self, alloc: Global, mut first: Place<O>, callers: u32) -> Result<Vec<Turn>, Memory>
        requires table { first.table_id ≡ table_of self.now }
        requires view { first.me ≡ (first_view, []) }
        requires callers { callers ≡ callers_of self.now }
        ensures turns { IfOk result (λ turns. (vec_len turns ≡ callers) × AreTurns (table_of self.now) 0 turns.items × Each IsNew turns.items) }
    {
        let mut turns = Vec::with_capacity(alloc, callers as usize)?;
        for caller in 1..callers {
            let seat = self.table.shared.split_seat::<Deal>(&mut first);
            turns.push_reserved(Turn::of(caller, seat));
        }
        turns.insert(0, Turn::of(0, first))?;
        Ok(turns)
    }

    /// A lock round an object that has taken no operation yet, and a turn for each of `callers`
    /// callers, of whom there is at least one. The turns stand in the order of their caller numbers,
    /// from 0 on, and none has seen or made an entry.
    ///
    /// After [`Memory`] the object is dropped.
    pub fn new(
        alloc: Global,
        object: O,
        id: ObjectId,
        callers: u32,
    ) -> Result<(TurnLock<O>, Vec<Turn>), Memory>
        requires callers { 0 < callers }
        requires object { O.stands_for object [] }
        ensures lock { IfOk result (λ r.
            (id_of r.0 ≡ id) × (kind_of O.kind r.0 ≡ O.kind object) × (callers_of r.0 ≡ callers)) }
        ensures turns { IfOk result (λ r. AreAll r.0 r.1.items × Each IsNew r.1.items) }
    {
        let sleepers = Sleepers::new(alloc, callers)?;
        let (lock, first) = Self::around(alloc, object, id, callers, sleepers)?;
        let turns = lock.deal(alloc, first, callers);
        beside(lock, turns)
    }

    // The slot of a table, which has an object that has taken no operation yet.
    fn slot_of(alloc: Global, object: O) -> Result<Vec<Option<Desk<O>>>, Memory>
        ensures { IfOk result (λ slots. slots.items ≡ Some (record { object = object; stamp = 0; apart = tt }) ∷ []) }
    {
        let mut slots = Vec::with_capacity(alloc, 1)?;
        slots.push_reserved(Some(Desk {
            object,
            stamp: 0,
            apart: Apart::new(),
        }));
        Ok(slots)
    }

    // A lock whose callers sleep in these places, and the first seat at its table.
    fn around(
        alloc: Global,
        object: O,
        id: ObjectId,
        callers: u32,
        sleepers: Sleepers,
    ) -> Result<(TurnLock<O>, Place<O>), Memory>
        requires callers { 0 < callers }
        requires object { O.stands_for object [] }
        ensures lock { IfOk result (λ r.
            (id_of r.0 ≡ id) × (kind_of O.kind r.0 ≡ O.kind object) × (callers_of r.0 ≡ callers)) }
        ensures first { IfOk result (λ r. (r.1.table_id ≡ table_of r.0) × (r.1.me ≡ (first_view, []))) }
    {
        let first = Snapshot::of(&object);
        let slots = Self::slot_of(alloc, object)?;
        let about = About { first, callers };
        // A table that is refused gives its slots back, and no error of the allocator's.
        let Ok((table, first)) = Table::new(alloc, &[0; WORDS], slots, &about) else {
            return Err(AllocError.into());
        };
        let lock = TurnLock {
            table,
            id,
            sleepers,
        };
        Ok((lock, first))
    }

    // One seat for all turns.
    fn gather(&self, mut turns: Vec<Turn>) -> Place<O>
        requires turns { (vec_len turns ≡ callers_of self.now) × AreTurns (table_of self.now) 0 turns.items }
        ensures table { result.table_id ≡ table_of self.now }
        ensures view { (result.me.1 ≡ []) × (result.me.0.live ≡ true) × (result.me.0.stage ≡ Idle) × Covers (callers_of self.now) result.me.0 }
        ensures turns { (h : List Entry) → StartsWith h result.me.0.seen → Agrees h result.me.0 → Each (IsPart h) turns.items }
    {
        let mut seat: Place<O> = turns.remove(0).into_seat();
        self.take_in(&mut seat, turns);
        seat
    }

    // The whole history, for a seat and a token of it.
    fn note(&self, seat: &mut Place<O>) -> Joined
        requires table { seat.old.table_id ≡ table_of self.now }
        requires view { seat.old.me.0.live ≡ true }
        ensures table { seat.new.table_id ≡ seat.old.table_id }
        ensures view { Noted seat.old.me.0 seat.new.me.0 }
        ensures token { result ≡ seat.new.me.0.seen }
    {
        self.table.shared.load::<Note>(seat, SERVING);
        let badge = self.table.shared.split_seat::<Keep>(seat).into_badge();
        Joined { badge }
    }

    // Ends the table, with a seat that has taken all others in.
    fn end(self, seat: Place<O>) -> Desk<O>
        requires table { seat.table_id ≡ table_of self }
        requires view { (seat.me.0.live ≡ true) × (seat.me.0.stage ≡ Idle) × Covers (callers_of self) seat.me.0 × Noted seat.me.0 seat.me.0 }
        ensures desk { DeskOk (law_of O.kind O.is_own O.reply_after self) (fits_of O.kind O.stands_for self) result seat.me.0.seen }
        ensures view { Agrees seat.me.0.seen seat.me.0 }
    {
        let TurnLock {
            table,
            id: _,
            sleepers: _,
        } = self;
        let mut closed = table.close_with(seat);
        let slot = closed.take(0);
        closed.free();
        slot.unwrap()
    }

    /// Takes all turns of the lock back, in the order of their caller numbers, and gives the object
    /// with the history of all calls.
    ///
    /// The object stands for this history, the history is legal and its stamps rise. It begins with
    /// what each turn has seen, and limited to each caller it is the turn's own list.
    pub fn close(self, turns: Vec<Turn>) -> (O, Joined)
        requires turns { AreAll self turns.items }
        ensures object { (O.kind result.0 ≡ kind_of O.kind self) × O.stands_for result.0 (ops result.1) }
        ensures legal { IsLegal (law_of O.kind O.is_own O.reply_after self) result.1 }
        ensures stamps { Rises 0 result.1 }
        ensures turns { Each (IsPart result.1) turns.items }
    {
        let mut seat = self.gather(turns);
        let joined = self.note(&mut seat);
        let Desk {
            object,
            stamp: _,
            apart: _,
        } = self.end(seat);
        (object, joined)
    }
}
