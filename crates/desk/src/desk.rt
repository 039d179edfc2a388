//! The desk, whatever lies in its slot.

ghost use Rattle.std.specs.Prelude.{◌≡◌, [], ◌∷◌, true, None, Some, IfOk, IfErr, IfSome, IfNone, OnErr};
ghost use Rattle.job_table.specs.Steps.{May, fits, wants_memory};
ghost use Rattle.desk.specs.declared.view.Turn.TheVariants.{Idle, Waiting};
ghost use Rattle.job_table.specs.Kept.{said_in};
ghost use Rattle.job_table.specs.Plans.{may_have_effect};
ghost use Rattle.desk.specs.History.{Makes, CanMake};
ghost use Rattle.desk.specs.Rule.{first_view, with_turn, one_more, newcomer, out_of};
ghost use Rattle.desk.specs.Steps.{settled};
ghost use Rattle.desk.specs.SeatMoves.{desk_id, told_of, IsSeatOf, AddsEntry, Waits, Lacks, HasTurn, IsServed, IsMoveAnswered, AnswersMove, Meets, ClosesBy};
ghost use Rattle.atomic_table.specs.Table.{step};
ghost use mathlib.Core.Option.{none};

use crate::held::SlotContents;
use crate::line::{Line, Waiter};
use crate::plays::{Begins, Draw, Enters, Look, OneMore, PassOn, Settle, Skip};
use crate::shape::{DeskOf, Locked, SeatOf};
use atomic_table::Refused;
use effects::NotStored;
use job_table::Verdicts;
use job_table::moves::{Move, is_answered};
use std::alloc::{AllocFailed, Global};
use std::marker::Brand;
use std::snapshot::Snapshot;
use std::sync::Wait;
use std::thread::yield_now;

/// The word of the next number to be drawn.
const TICKET: usize = 0;

/// The word of the number that is served.
const SERVING: usize = 1;

/// The slot.
const SLOT: usize = 0;

impl<J: Verdicts, T: SlotContents<J>> DeskOf<J, T> {
    /// A desk with this in its slot, and its first seat; or, without memory, what was to lie there.
    pub(crate) fn open(alloc: Global, held: T) -> Result<(DeskOf<J, T>, SeatOf<T>), T>
        requires { T.opening held ≡ held }
        ensures seat { IfOk result (λ d. IsSeatOf (desk_id d.0) d.1 × (d.1.me.0 ≡ first_view)) }
        ensures told { IfOk result (λ d. told_of d.0 ≡ held) }
        ensures back { IfErr result (λ back. back ≡ held) }
    {
        let told = Snapshot::of(&held);
        let Ok(mut slots) = Vec::with_capacity(alloc, 1) else {
            return Err(held);
        };
        match slots.push(Some(held)) {
            Ok(()) => {}
            Err(AllocFailed { value: Some(held) }) => return Err(held),
            Err(AllocFailed { value: None }) => unreachable!(),
        }
        match atomic_table::Table::new(alloc, &[0, 0], slots, &told) {
            Ok((table, seat)) => {
                let line = Line::new();
                Ok((Locked { table, line }, seat))
            }
            Err(Refused { mut slots }) => match slots.pop() {
                Some(Some(held)) => Err(held),
                Some(None) => unreachable!(),
                None => unreachable!(),
            },
        }
    }

    /// Makes a move in the seat's turn. What the seat has then seen is legal, begins with what it had seen before, and ends with this
    /// move, unless there was no memory for it. Where its effect isn't stored what lies in the slot stays, and the history has the move
    /// with that answer.
    pub fn make<R: Wait, M: Move<J>>(
        &self,
        rt: &R,
        me: &mut SeatOf<T>,
        step: M,
    ) -> Result<M::Answer, NotStored>
        requires seat { IsSeatOf (desk_id self.now) me.old }
        requires may { May J.right (M.table_move step) }
        ensures seat { IsSeatOf (desk_id self.now) me.new }
        ensures fits { IfOk result (λ answer. IfSome (M.said answer) (λ reply. fits (M.table_move step) reply ≡ true)) }
        ensures ok { IfSome (said_in M.said result) (λ reply. AddsEntry (CanMake T.becomes (T.opening (told_of self.now))) me.old.me.0 (M.table_move step) reply me.new.me.0) }
        ensures sure { IfNone (said_in M.said result) (Lacks T.table (Makes T.becomes (T.opening (told_of self.now))) (M.table_move step) me.new.me.0.seen) }
        ensures err { IfNone (said_in M.said result) (Waits me.old.me.0 me.new.me.0) }
        ensures refused { OnErr result T.refuses }
        ensures effect { OnErr result (may_have_effect (M.table_move step) ≡ true) }
    {
        let number = self.draw(rt, me);
        let held = self.take::<Brand, R>(rt, me, number);
        self.answer(me, number, held, step)
    }

    /// A further seat, which has seen as much as the first one. Only the first seat splits off others.
    pub fn split(&self, me: &mut SeatOf<T>) -> SeatOf<T>
        requires seat { IsSeatOf (desk_id self.now) me.old }
        requires first { me.old.me.0.number ≡ 0 }
        ensures seat { IsSeatOf (desk_id self.now) me.new × (me.new.me.0 ≡ one_more me.old.me.0) }
        ensures new { IsSeatOf (desk_id self.now) result × (result.me.0 ≡ newcomer me.old.me.0) }
        ensures legal { T.legal (told_of self.now) result.me.0.seen }
    {
        let mut other = self.table.shared.split_seat::<OneMore>(me);
        self.settle::<Brand>(&mut other);
        other
    }

    /// Takes in a seat that was split off. The first one then knows its number and its moves.
    pub fn meet(&self, me: &mut SeatOf<T>, other: SeatOf<T>)
        requires seat { IsSeatOf (desk_id self.now) me.old }
        requires first { me.old.me.0.number ≡ 0 }
        requires other { IsSeatOf (desk_id self.now) other }
        ensures seat { IsSeatOf (desk_id self.now) me.new }
        ensures met { Meets me.old.me.0 other.me.0 me.new.me.0 }
        ensures legal { T.legal (told_of self.now) me.new.me.0.seen }
    {
        self.table.shared.join_seat::<OneMore>(me, other);
        self.settle::<Brand>(me);
    }

    /// What lies in the slot after the whole history, where no seat is out that the first one split off.
    pub(crate) fn end(self, me: SeatOf<T>) -> T
        requires seat { IsSeatOf (desk_id self) me }
        requires first { me.me.0.number ≡ 0 }
        requires alone { out_of me.me.0 ≡ 0 }
        ensures { ClosesBy (λ log. Makes T.becomes (T.opening (told_of self)) log result) me.me.0 }
    {
        let Locked { table, line: _ } = self;
        let mut closed = table.close_with(me);
        let slot = closed.take(SLOT);
        closed.free();
        match slot {
            Some(held) => held,
            None => unreachable!(),
        }
    }

    /// Learns what the rule says of the seat.
    fn settle<B: Begins<T>>(&self, me: &mut SeatOf<T>)
        requires begins { B.start ≡ Some (T.opening (told_of self.now)) }
        requires seat { me.old.table_id ≡ (desk_id self.now) }
        requires live { me.old.me.0.live ≡ true }
        ensures seat { me.new.table_id ≡ me.old.table_id }
        ensures told { settled T.becomes B.start (step 1 1 0 0 none) me.old.me 0 me.new.me }
    {
        self.table.shared.load::<Settle<J, T, B>>(me, SERVING);
    }

    /// Draws the number that is served, so that nobody waits with a number. Where all were given, it waits forever.
    fn draw<R: Wait>(&self, rt: &R, me: &mut SeatOf<T>) -> u64
        requires { IsSeatOf (desk_id self.now) me.old }
        ensures { (me.new.table_id ≡ me.old.table_id) × (me.new.me ≡ (with_turn (Waiting result) me.old.me.0, [])) }
    {
        let mut waiter = Waiter::new();
        for _ in rt.forever() {
            let guess = self.table.shared.peek(SERVING);
            if guess < u64::MAX && self.line.lets(&waiter) {
                let found = self
                    .table
                    .shared
                    .compare_exchange::<Draw>(me, TICKET, guess, guess + 1);
                if found == guess {
                    self.line.leave(&waiter);
                    return guess;
                }
            }
            self.line.rest(rt, &mut waiter);
        }
        unreachable!()
    }

    /// Waits until the number is served, and takes what lies in the slot.
    fn take<B: Begins<T>, R: Wait>(&self, rt: &R, me: &mut SeatOf<T>, number: u64) -> T
        requires begins { B.start ≡ Some (T.opening (told_of self.now)) }
        requires seat { (me.old.table_id ≡ (desk_id self.now)) × (me.old.me.1 ≡ []) }
        requires waits { (me.old.me.0.turn ≡ Waiting number) × (me.old.me.0.live ≡ true) }
        ensures { (me.new.table_id ≡ me.old.table_id) × HasTurn T.becomes B.start number me.old.me.0 me.new.me result }
    {
        for _ in rt.forever() {
            if self.table.shared.load::<Look<J, T, B>>(me, SERVING) == number {
                let Some(held) = self.table.shared.exchange(me, SLOT, None) else {
                    unreachable!()
                };
                return held;
            }
            // Whoever is served may need this processor.
            yield_now();
        }
        unreachable!()
    }

    /// Makes the move, gives back what was taken, and serves the next number.
    fn answer<M: Move<J>>(
        &self,
        me: &mut SeatOf<T>,
        number: u64,
        mut held: T,
        step: M,
    ) -> Result<M::Answer, NotStored>
        requires seat { me.old.table_id ≡ (desk_id self.now) }
        requires turn { IsServed T.becomes (T.opening (told_of self.now)) number me.old.me held }
        requires may { May J.right (M.table_move step) }
        ensures seat { me.new.table_id ≡ me.old.table_id }
        ensures fits { IfOk result (λ answer. IfSome (M.said answer) (λ reply. fits (M.table_move step) reply ≡ true)) }
        ensures ok { IfSome (said_in M.said result) (λ reply. AnswersMove T.becomes (T.opening (told_of self.now)) (M.table_move step) reply me.old.me me.new.me) }
        ensures sure { IfNone (said_in M.said result) (wants_memory (M.table_move step) (T.table held) ≡ true) }
        ensures err { IfNone (said_in M.said result) (me.new.me ≡ (with_turn Idle me.old.me.0, [])) }
        ensures refused { OnErr result T.refuses }
        ensures effect { OnErr result (may_have_effect (M.table_move step) ≡ true) }
    {
        let asked = Snapshot::of(&step);
        let answer = held.make(step);
        self.give(me, held);
        if is_answered::<J, M>(&answer) {
            self.pass_on::<Brand, M>(me, asked, &answer);
        } else {
            self.table.shared.fetch_add::<Skip>(me, SERVING, 1);
        }
        self.line.ring();
        answer
    }

    /// Serves the next number, and the move enters the history with its reply.
    fn pass_on<E: Enters, M: Move<J>>(
        &self,
        me: &mut SeatOf<T>,
        _asked: Snapshot<M>,
        _answer: &Result<M::Answer, NotStored>,
    )
        requires seat { me.old.table_id ≡ (desk_id self.now) }
        requires turn { IsMoveAnswered T.becomes (T.opening (told_of self.now)) E.table_move E.reply me.old.me }
        ensures seat { me.new.table_id ≡ me.old.table_id }
        ensures made { AnswersMove T.becomes (T.opening (told_of self.now)) E.table_move E.reply me.old.me me.new.me }
    {
        self.table.shared.fetch_add::<PassOn<E>>(me, SERVING, 1);
    }

    /// Puts it into the slot that the seat has.
    fn give(&self, me: &mut SeatOf<T>, held: T)
        requires { (me.old.table_id ≡ (desk_id self.now)) × (me.old.me.1 ≡ (0, None) ∷ []) }
        ensures { (me.new.table_id ≡ me.old.table_id) × (me.new.me ≡ (me.old.me.0, (0, Some held) ∷ [])) }
    {
        match self.table.shared.exchange(me, SLOT, Some(held)) {
            None => {}
            Some(_) => unreachable!(),
        }
    }
}
