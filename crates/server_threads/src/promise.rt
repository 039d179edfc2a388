//! What threads promise of the seats that they give back.

ghost use Rattle.std.specs.Prelude.{◌≡◌};

use desk::{SeatOf, SlotContents};
use job_table::Verdicts;
use link_service::Service;
use os_io::Link;
use std::marker::PhantomData;
use std::snapshot::Snapshot;
use std::thread::Promise;
use workers::Bell;

/// A link that was served, with the seat that served it.
#[derive(Drop)]
pub(crate) struct Finished<S, L> {
    pub(crate) seat: S,
    pub(crate) link: L,
    /// Whether it ended for want of memory.
    pub(crate) short: bool,
}

/// The promise to serve this link by moves of this seat.
#[derive(Drop)]
pub(crate) struct ToServe<J: Verdicts, T: SlotContents<J>, L, S, B> {
    pub(crate) seat: Snapshot<SeatOf<T>>,
    pub(crate) link: Snapshot<L>,
    pub(crate) service: PhantomData<S>,
    pub(crate) bell: PhantomData<B>,
    pub(crate) verdicts: PhantomData<J>,
}

impl<J: Verdicts, T: SlotContents<J>, L, S, B> ToServe<J, T, L, S, B> {
    /// The promise of this seat and this link.
    pub(crate) fn of(seat: &SeatOf<T>, link: &L) -> ToServe<J, T, L, S, B>
        ensures seat { result.seat.value ≡ seat.now }
        ensures link { result.link.value ≡ link.now }
    {
        ToServe {
            seat: Snapshot::of(seat),
            link: Snapshot::of(link),
            service: PhantomData,
            bell: PhantomData,
            verdicts: PhantomData,
        }
    }
}

impl<J: Verdicts, T: SlotContents<J>, L: Link, S: Service<J>, B: Bell> Promise<
    Finished<SeatOf<T>, L>,
> for ToServe<J, T, L, S, B> {
    ghost use Rattle.server_threads.specs.Talks.{Acts, AnyHistory};

    ghost kept_by = { λ p r. Acts AnyHistory (λ said. S.talked B.rang (L.tells p.link.value) said (L.tells r.link) r.short) p.seat.value r.seat };
}

/// The promise to work on this seat.
#[derive(Drop)]
pub(crate) struct ToWork<J: Verdicts, T: SlotContents<J>, S> {
    pub(crate) seat: Snapshot<SeatOf<T>>,
    pub(crate) service: PhantomData<S>,
    pub(crate) verdicts: PhantomData<J>,
}

impl<J: Verdicts, T: SlotContents<J>, S: Service<J>> Promise<SeatOf<T>> for ToWork<J, T, S> {
    ghost use Rattle.server_threads.specs.Talks.{Acts, AnyHistory, IsShift};

    ghost kept_by = { λ p r. Acts AnyHistory (IsShift S.ran) p.seat.value r };
}
