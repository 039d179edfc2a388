//! The moves of the table, each with its own type of answer.

ghost use Rattle.std.specs.Prelude.{◌≡◌, Some, None, IsTrue, ◌↔◌, IsSome};
ghost use Rattle.job_table.specs.Kept.{said_in};
ghost use Rattle.job_table.specs.declared.entries.TableMove.TheVariants as asks;
ghost use Rattle.job_table.specs.declared.entries.Reply.TheVariants as replies;
ghost use Rattle.job_table.specs.Steps.{added_reply, ok_reply};

use crate::entries::{Finishing, IssueFault, Killing, Retrieved, Statistics, Verdicts};
use crate::job::Job;
use crate::plans::put_if;
use crate::table::Table;
use crate::texts::{SharedText, Twin};
use effects::{NoStore, NotStored, Store};
use os_io::Memory;

/// What a move does to the looks at a job, for whoever counts them.
#[derive(Clone, Copy, PartialEq, Eq, Drop)]
pub enum MoveKind {
    /// It is a look.
    Looks,
    /// It gives a job, whose looks begin then.
    Gives,
    /// Neither.
    Else,
}

/// A move of the table.
pub trait Move<V: Verdicts>: Sized {
    ghost use Rattle.std.specs.Prelude.{Option, Some, true, IfOk, IfErr, IfSome, IfNone, IsTrue, ◌↔◌, IsSome};
    ghost use Rattle.job_table.specs.declared.entries.TableMove.{TableMove};
    ghost use Rattle.job_table.specs.declared.entries.Reply.{Reply};
    ghost use Rattle.effects.specs.Stores.{PutsIf};
    ghost use Rattle.job_table.specs.Kept.{KeptBy};
    ghost use Rattle.job_table.specs.Plans.{planned};
    ghost use Rattle.job_table.specs.Steps.{May, Step, fits, wants_memory, move_kind};

    /// What is answered.
    type Answer;

    /// The move, as histories have it.
    ghost table_move: { Self → TableMove };

    /// The answer, as histories have it, or none where there was no memory and no move was made.
    ghost said: { Self.Answer → Option Reply };

    /// What it does to the looks at a job.
    fn kind(&self) -> MoveKind
        ensures { result ≡ move_kind (table_move self.now) };

    /// Whether the move was made: false where there was no memory.
    fn is_made(answer: &Self::Answer) -> bool
        ensures { IsTrue result ↔ IsSome (said answer.now) };

    /// Makes the move at its table, once its effect is stored, where it has one. Where it isn't stored the table stays; where there
    /// is no memory the table stays, and nothing was put.
    fn make_kept<S: Store>(
        self,
        table: &mut Table<V>,
        store: &mut S,
    ) -> Result<Self::Answer, NotStored>
        requires { May V.right (table_move self) }
        ensures ok { IfOk result (λ answer. IfSome (said answer) (λ reply. Step V.right table.old (table_move self) reply table.new)) }
        ensures fits { IfOk result (λ answer. IfSome (said answer) (λ reply. fits (table_move self) reply ≡ true)) }
        ensures kept { IfOk result (λ answer. KeptBy S.keeps S.passes S.too_long S.broken S.faults (planned (table_move self) table.old) store.old (said answer) store.new) }
        ensures sure { IfOk result (λ answer. IfNone (said answer) (wants_memory (table_move self) table.old ≡ true)) }
        ensures err { IfOk result (λ answer. IfNone (said answer) (table.new ≡ table.old)) }
        ensures refused { IfErr result (λ fault. (table.new ≡ table.old) × PutsIf S.keeps S.passes S.too_long S.broken S.faults (planned (table_move self) table.old) store.old (Some fault) store.new) };

    /// Makes the move at its table, and keeps no effect. Where there is no memory, the table stays.
    fn make(self, table: &mut Table<V>) -> Self::Answer
        requires { May V.right (table_move self) }
        ensures ok { IfSome (said result) (λ reply. Step V.right table.old (table_move self) reply table.new) }
        ensures fits { IfSome (said result) (λ reply. fits (table_move self) reply ≡ true) }
        ensures sure { IfNone (said result) (wants_memory (table_move self) table.old ≡ true) }
        ensures err { IfNone (said result) (table.new ≡ table.old) }
    {
        match self.make_kept(table, &mut NoStore) {
            Ok(answer) => answer,
            Err(_) => unreachable!(),
        }
    }
}

/// Whether a move has a reply: false where there was no memory.
pub fn is_answered<V: Verdicts, M: Move<V>>(answer: &Result<M::Answer, NotStored>) -> bool
    ensures { IsTrue result ↔ IsSome (said_in M.said answer.now) }
{
    match answer {
        Ok(answer) => M::is_made(answer),
        Err(_) => true,
    }
}

/// A new job, with its number alone.
#[derive(Drop)]
pub struct Issue;

impl<V: Verdicts> Move<V> for Issue {
    type Answer = Result<u64, IssueFault>;

    ghost table_move = { λ _. asks.Issue };

    ghost said = { added_reply replies.Issued };

    fn kind(&self) -> MoveKind {
        MoveKind::Else
    }

    fn is_made(answer: &Result<u64, IssueFault>) -> bool {
        !matches!(answer, Err(IssueFault::Memory))
    }

    fn make_kept<S: Store>(
        self,
        table: &mut Table<V>,
        store: &mut S,
    ) -> Result<Result<u64, IssueFault>, NotStored> {
        table.issue_kept(store)
    }
}

/// Texts for a job that has its number alone.
#[derive(Drop)]
pub struct Send {
    pub number: u64,
    pub osil: Twin,
    pub osol: Twin,
}

impl<V: Verdicts> Move<V> for Send {
    type Answer = bool;

    ghost table_move = { λ m. asks.Send m.number m.osil m.osol };

    ghost said = { λ taken. Some (replies.Sent taken) };

    fn kind(&self) -> MoveKind {
        MoveKind::Else
    }

    fn is_made(_answer: &bool) -> bool {
        true
    }

    fn make_kept<S: Store>(self, table: &mut Table<V>, store: &mut S) -> Result<bool, NotStored> {
        let Send { number, osil, osol } = self;
        match put_if(store, table.plan_send(number, &osil, &osol)) {
            Ok(()) => Ok(table.send(number, osil, osol)),
            Err(fault) => Err(fault),
        }
    }
}

/// A new job with its texts, which the mover runs at once.
#[derive(Drop)]
pub struct Enter {
    pub osil: Twin,
    pub osol: Twin,
}

impl<V: Verdicts> Move<V> for Enter {
    type Answer = Result<Job, IssueFault>;

    ghost table_move = { λ m. asks.Enter m.osil m.osol };

    ghost said = { added_reply (λ job. replies.Gave (Some job)) };

    fn kind(&self) -> MoveKind {
        MoveKind::Gives
    }

    fn is_made(answer: &Result<Job, IssueFault>) -> bool {
        !matches!(answer, Err(IssueFault::Memory))
    }

    fn make_kept<S: Store>(
        self,
        table: &mut Table<V>,
        store: &mut S,
    ) -> Result<Result<Job, IssueFault>, NotStored> {
        let Enter { osil, osol } = self;
        table.enter_kept(osil, osol, store)
    }
}

/// The first job that waits, for a worker or for another mover.
#[derive(Drop)]
pub struct Claim {
    pub worker: bool,
}

impl<V: Verdicts> Move<V> for Claim {
    type Answer = Option<Job>;

    ghost table_move = { λ m. asks.Claim m.worker };

    ghost said = { λ given. Some (replies.Gave given) };

    fn kind(&self) -> MoveKind {
        MoveKind::Gives
    }

    fn is_made(_answer: &Option<Job>) -> bool {
        true
    }

    fn make_kept<S: Store>(
        self,
        table: &mut Table<V>,
        _store: &mut S,
    ) -> Result<Option<Job>, NotStored> {
        Ok(table.claim(self.worker))
    }
}

/// Whether a job is asked to stop.
#[derive(Drop)]
pub struct Look {
    pub number: u64,
}

impl<V: Verdicts> Move<V> for Look {
    type Answer = bool;

    ghost table_move = { λ m. asks.Look m.number };

    ghost said = { λ marked. Some (replies.Marked marked) };

    fn kind(&self) -> MoveKind {
        MoveKind::Looks
    }

    fn is_made(_answer: &bool) -> bool {
        true
    }

    fn make_kept<S: Store>(self, table: &mut Table<V>, _store: &mut S) -> Result<bool, NotStored> {
        Ok(table.look(self.number))
    }
}

/// The document of a job that the mover ran, and whether the job was asked to stop.
#[derive(Drop)]
pub struct Finish {
    pub job: Job,
    pub asked: bool,
    pub document: Option<SharedText>,
}

impl<V: Verdicts> Move<V> for Finish {
    type Answer = Finishing;

    ghost table_move = { λ m. asks.Finish m.job m.asked m.document };

    ghost said = { λ end. Some (replies.Finish end) };

    fn kind(&self) -> MoveKind {
        MoveKind::Else
    }

    fn is_made(_answer: &Finishing) -> bool {
        true
    }

    fn make_kept<S: Store>(
        self,
        table: &mut Table<V>,
        store: &mut S,
    ) -> Result<Finishing, NotStored> {
        let Finish {
            job,
            asked,
            document,
        } = self;
        match put_if(store, table.plan_finish(&job, asked, &document)) {
            Ok(()) => Ok(table.finish(job, asked, document)),
            Err(fault) => Err(fault),
        }
    }
}

/// A job is killed before it runs, asked to stop, or given up.
#[derive(Drop)]
pub struct Kill {
    pub number: u64,
}

impl<V: Verdicts> Move<V> for Kill {
    type Answer = Killing;

    ghost table_move = { λ m. asks.Kill m.number };

    ghost said = { λ told. Some (replies.Killing told) };

    fn kind(&self) -> MoveKind {
        MoveKind::Else
    }

    fn is_made(_answer: &Killing) -> bool {
        true
    }

    fn make_kept<S: Store>(
        self,
        table: &mut Table<V>,
        store: &mut S,
    ) -> Result<Killing, NotStored> {
        match put_if(store, table.plan_kill(self.number)) {
            Ok(()) => Ok(table.kill(self.number)),
            Err(fault) => Err(fault),
        }
    }
}

/// How far a job has come, with its document.
#[derive(Drop)]
pub struct Retrieve {
    pub number: u64,
}

impl<V: Verdicts> Move<V> for Retrieve {
    type Answer = Result<Retrieved, Memory>;

    ghost table_move = { λ m. asks.Retrieve m.number };

    ghost said = { ok_reply replies.Retrieved };

    fn kind(&self) -> MoveKind {
        MoveKind::Else
    }

    fn is_made(answer: &Result<Retrieved, Memory>) -> bool {
        answer.is_ok()
    }

    fn make_kept<S: Store>(
        self,
        table: &mut Table<V>,
        _store: &mut S,
    ) -> Result<Result<Retrieved, Memory>, NotStored> {
        Ok(table.retrieve(self.number))
    }
}

/// How far all jobs have come.
#[derive(Drop)]
pub struct Knock;

impl<V: Verdicts> Move<V> for Knock {
    type Answer = Result<Statistics, Memory>;

    ghost table_move = { λ _. asks.Knock };

    ghost said = { ok_reply replies.Statistics };

    fn kind(&self) -> MoveKind {
        MoveKind::Else
    }

    fn is_made(answer: &Result<Statistics, Memory>) -> bool {
        answer.is_ok()
    }

    fn make_kept<S: Store>(
        self,
        table: &mut Table<V>,
        _store: &mut S,
    ) -> Result<Result<Statistics, Memory>, NotStored> {
        Ok(table.knock())
    }
}

/// One more worker.
#[derive(Drop)]
pub struct Enlist;

impl<V: Verdicts> Move<V> for Enlist {
    type Answer = ();

    ghost table_move = { λ _. asks.Enlist };

    ghost said = { λ _. Some replies.Done };

    fn kind(&self) -> MoveKind {
        MoveKind::Else
    }

    fn is_made(_answer: &()) -> bool {
        true
    }

    fn make_kept<S: Store>(self, table: &mut Table<V>, _store: &mut S) -> Result<(), NotStored> {
        table.enlist();
        Ok(())
    }
}

/// One worker less.
#[derive(Drop)]
pub struct Leave;

impl<V: Verdicts> Move<V> for Leave {
    type Answer = ();

    ghost table_move = { λ _. asks.Leave };

    ghost said = { λ _. Some replies.Done };

    fn kind(&self) -> MoveKind {
        MoveKind::Else
    }

    fn is_made(_answer: &()) -> bool {
        true
    }

    fn make_kept<S: Store>(self, table: &mut Table<V>, _store: &mut S) -> Result<(), NotStored> {
        table.leave();
        Ok(())
    }
}
