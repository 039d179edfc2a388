//! Links are accepted and served, each in a thread of its own.

ghost use Rattle.std.specs.Prelude.{◌≡◌, ◌+◌, ◌<◌, ◌≤◌, ◌^◌, ◌∷◌, None, slice_index_or, vec_len};
ghost use Rattle.desk.specs.Rule.{one_if};
ghost use Rattle.desk.specs.SeatMoves.{desk_id, IsSeatOf};
ghost use Rattle.server_threads.specs.Talks.{Acts, AnyHistory, short_of};
ghost use Rattle.server_threads.specs.Promises.{promise_of, Due};
ghost use Rattle.server_threads.specs.Serving.{stand, taken, MayTake};
ghost use Rattle.server_threads.specs.OpenLinks.{GoesOn, Goes, Stays, KeepsMeans, LinksServed, CameSo, served_result, served_so};

use crate::means::{Means, ServeFault};
use crate::places::{Started, put_in, take_out};
use crate::promise::{Finished, ToServe};
use crossbeam_channel::{Receiver, Sender};
use desk::{DeskOf, LentSeatOf, SeatOf, SlotContents};
use job_table::Verdicts;
use link_service::Service;
use open_links::OpenLink;
use os_io::{Close, Failed, Link, Listener};
use std::alloc::Global;
use std::marker::PhantomData;
use std::snapshot::Snapshot;
use std::sync::Wait;
use std::thread::{Scope, Threads};
use workers::Bell;

/// A link that is being served.
type StartedLink<J, T, L, S, B> = Started<Finished<SeatOf<T>, L>, ToServe<J, T, L, S, B>>;

/// As many places as links may be served at once.
pub(crate) type Places<J, T, L, S, B> = Vec<Option<StartedLink<J, T, L, S, B>>>;

/// The links that are being served, and how many of those before them ended for want of memory.
///
/// A number that says which place is free, or becomes so, is a hint: whoever takes a place joins the thread that is still in it.
#[derive(Drop)]
pub(crate) struct Running<J: Verdicts, T: SlotContents<J>, L: Link, S: Service<J>, B: Bell> {
    pub(crate) places: Places<J, T, L, S, B>,
    /// The numbers of the places that are free.
    pub(crate) free: Vec<usize>,
    /// The numbers of those whose threads have done all they had to do. There are as many places in the channel, so nobody waits to send.
    pub(crate) left: Receiver<usize>,
    pub(crate) short: u64,
}

/// The first seat and the listener as they were before the first link came.
#[derive(Drop)]
pub(crate) struct Before<T, N> {
    seat: Snapshot<SeatOf<T>>,
    net: Snapshot<N>,
}

impl<T, N> Before<T, N> {
    /// As they are now.
    pub(crate) fn of(seat: &SeatOf<T>, net: &N) -> Before<T, N>
        ensures seat { result.seat.value ≡ seat.now }
        ensures net { result.net.value ≡ net.now }
    {
        Before {
            seat: Snapshot::of(seat),
            net: Snapshot::of(net),
        }
    }
}

/// Serves a link by moves of this seat, and closes it when the conversation is over, so that its peer reads the end. Its last act is to
/// say that this place becomes free.
fn serve_by<J: Verdicts, T: SlotContents<J>, L: Close, R: Wait, S: Service<J>, B: Bell>(
    rt: &R,
    alloc: Global,
    desk: &DeskOf<J, T>,
    service: &S,
    bell: &B,
    leaving: &Sender<usize>,
    mut seat: SeatOf<T>,
    link: L,
    at: usize,
) -> Finished<SeatOf<T>, L>
    requires { IsSeatOf (desk_id desk.now) seat × L.is_open link }
    ensures { Acts AnyHistory (λ said. S.talked B.rang (L.tells link) said (L.tells result.link) result.short) seat result.seat }
{
    let mut mover = LentSeatOf {
        rt,
        desk,
        seat: &mut seat,
    };
    let open = OpenLink::new(link);
    let (short, open) = service.serve(rt, alloc, bell, open, &mut mover);
    let mut link = open.into_link();
    link.close();
    let LentSeatOf {
        rt: _,
        desk: _,
        seat: _seat,
    } = mover;
    let done = Finished { seat, link, short };
    let _ = leaving.send(rt, at);
    done
}

/// Serves a link in a thread of its own. Where no thread can be started, it is served here.
fn serve_link<
    's,
    E,
    J: Verdicts + Send + Sync,
    T: SlotContents<J> + Send + Sync,
    L: Close + Send + Drop + 's,
    R: Threads + Wait + Sync,
    S: Service<J> + Sync,
    B: Bell + Sync,
>(
    means: &Means<'s, J, T, R, S>,
    bell: &'s B,
    scope: &'s Scope<'s, E>,
    seat: SeatOf<T>,
    link: L,
    at: usize,
) -> StartedLink<J, T, L, S, B>
    requires seat { IsSeatOf (desk_id means.now.desk.now) seat }
    requires open { L.is_open link }
    ensures seat { (promise_of result).seat.value ≡ seat }
    ensures link { (promise_of result).link.value ≡ link }
    ensures due { Due (served_so AnyHistory (S.talked B.rang) L.tells) result }
{
    let Means {
        rt,
        alloc,
        desk,
        service,
        leaving,
        ..
    } = *means;
    let promise = ToServe::of(&seat, &link);
    let again = ToServe::of(&seat, &link);
    let work = move || -> Finished<SeatOf<T>, L>
        requires { IsSeatOf (desk_id desk.now) seat × L.is_open link }
        ensures { Acts AnyHistory (λ said. S.talked B.rang (L.tells link) said (L.tells result.link) result.short) seat result.seat }
    { serve_by(rt, alloc, desk, service, bell, leaving, seat, link, at) };
    match scope.spawn_with(promise, work) {
        Ok(child) => Started::Thread(child),
        Err(refused) => Started::Here((refused.value)(), again),
    }
}

/// 1 where it is so.
fn number_of(so: bool) -> u64
    ensures one { result ≡ one_if so }
    ensures at_most { result ≤ 1 }
{
    if so { 1 } else { 0 }
}

/// Links that are being served: what all threads use, the bell of the workers, where threads are started, how the first seat and the listener stood before the first link came, that seat, and
/// what runs. The listener is lent to each method.
#[derive(Drop)]
pub(crate) struct LinkHost<
    's,
    E,
    J: Verdicts,
    T: SlotContents<J>,
    N,
    L: Link,
    R,
    S: Service<J>,
    B: Bell,
> {
    means: Means<'s, J, T, R, S>,
    bell: &'s B,
    scope: &'s Scope<'s, E>,
    before: Before<T, N>,
    seat: SeatOf<T>,
    running: Running<J, T, L, S, B>,
}

impl<
    's,
    E,
    J: Verdicts + Send + Sync,
    T: SlotContents<J> + Send + Sync,
    N: Listener,
    R: Threads + Wait + Sync,
    S: Service<J> + Sync,
    B: Bell + Sync,
> LinkHost<'s, E, J, T, N, N::Conn, R, S, B> {
    /// No link has come.
    pub(crate) fn new(
        means: &Means<'s, J, T, R, S>,
        bell: &'s B,
        scope: &'s Scope<'s, E>,
        seat: SeatOf<T>,
        net: &N,
        running: Running<J, T, N::Conn, S, B>,
    ) -> LinkHost<'s, E, J, T, N, N::Conn, R, S, B>
        requires seat { IsSeatOf (desk_id means.now.desk.now) seat }
        requires first { seat.me.0.number ≡ 0 }
        requires may { MayTake means.now.limits running }
        ensures goes { Goes AnyHistory (S.talked B.rang) N.Conn.tells N.tells result net.now }
        ensures given { result.seat.me.0.given ≡ seat.me.0.given }
        ensures may { MayTake result.means.limits result.running }
        ensures means { result.means ≡ means.now }
        ensures stands { stand N.tells result.before.seat.value result.before.net.value ≡ stand N.tells seat net.now }
    {
        let before = Before::of(&seat, net);
        LinkHost {
            means: means.again(),
            bell,
            scope,
            before,
            seat,
            running,
        }
    }

    /// Joins a thread, takes its seat in, and gives its link back.
    fn join_one(&mut self, net: &mut N, place: StartedLink<J, T, N::Conn, S, B>)
        requires goes { GoesOn AnyHistory (S.talked B.rang) N.Conn.tells N.tells self.old net.old (place ∷ taken self.old.running.places.items) }
        ensures goes { Goes AnyHistory (S.talked B.rang) N.Conn.tells N.tells self.new net.new }
        ensures stays { Stays N.tells self.old net.old self.new net.new }
        ensures places { self.new.running.places ≡ self.old.running.places }
    {
        let done = place.join(self.means.rt);
        self.means.desk.meet(&mut self.seat, done.seat);
        net.done(done.link);
        self.running.short += number_of(done.short);
    }

    /// Joins the thread that is in this place, if any is, so that the place is free.
    fn free_at(&mut self, net: &mut N, at: usize)
        requires goes { Goes AnyHistory (S.talked B.rang) N.Conn.tells N.tells self.old net.old }
        requires within { at < vec_len self.old.running.places }
        ensures goes { Goes AnyHistory (S.talked B.rang) N.Conn.tells N.tells self.new net.new }
        ensures stays { Stays N.tells self.old net.old self.new net.new }
        ensures free { slice_index_or self.new.running.places.items at None ≡ None }
        ensures len { vec_len self.new.running.places ≡ vec_len self.old.running.places }
    {
        if let Some(place) = take_out(&mut self.running.places, at) {
            self.join_one(net, place);
        }
    }

    /// Joins the threads that have said that their places become free.
    fn join_left(&mut self, net: &mut N)
        requires goes { Goes AnyHistory (S.talked B.rang) N.Conn.tells N.tells self.old net.old }
        ensures goes { Goes AnyHistory (S.talked B.rang) N.Conn.tells N.tells self.new net.new }
        ensures stays { Stays N.tells self.old net.old self.new net.new }
        ensures len { vec_len self.new.running.places ≡ vec_len self.old.running.places }
    {
        for _ in 0..self.means.limits.servers {
            let Ok(at) = self.running.left.try_recv(self.means.rt) else {
                break;
            };
            if at < self.running.places.len() {
                self.free_at(net, at);
                let _ = self.running.free.push(at);
            }
        }
    }

    /// A place that is free; where none is, the next that becomes so is waited for.
    fn free_place(&mut self, net: &mut N) -> usize
        requires goes { Goes AnyHistory (S.talked B.rang) N.Conn.tells N.tells self.old net.old }
        requires some { 0 < vec_len self.old.running.places }
        ensures goes { Goes AnyHistory (S.talked B.rang) N.Conn.tells N.tells self.new net.new }
        ensures stays { Stays N.tells self.old net.old self.new net.new }
        ensures within { result < vec_len self.new.running.places }
        ensures free { slice_index_or self.new.running.places.items result None ≡ None }
        ensures len { vec_len self.new.running.places ≡ vec_len self.old.running.places }
    {
        self.join_left(net);
        let hint = match self.running.free.pop() {
            Some(at) => at,
            None => self.running.left.recv(self.means.rt).unwrap_or(0),
        };
        let at = if hint < self.running.places.len() {
            hint
        } else {
            0
        };
        self.free_at(net, at);
        at
    }

    /// Takes so many links, and has each served by a seat of its own, so many at once at most.
    pub(crate) fn take_links(&mut self, net: &mut N) -> Result<(), Failed>
    where
        N::Conn: Send + Drop + 's,
        requires goes { Goes AnyHistory (S.talked B.rang) N.Conn.tells N.tells self.old net.old }
        requires given { self.old.seat.me.0.given ≡ self.old.before.seat.value.me.0.given }
        requires may { MayTake self.old.means.limits self.old.running }
        ensures goes { Goes AnyHistory (S.talked B.rang) N.Conn.tells N.tells self.new net.new }
        ensures kept { KeepsMeans self.old self.new }
        ensures came { CameSo result self.old.means.limits.connections self.old.seat.me.0.given self.new.seat.me.0.given (N.tells net.old).faults (N.tells net.new).faults }
    {
        for number in 0..self.means.limits.connections {
            let at = self.free_place(net);
            let link = net.accept()?;
            let theirs = self.means.desk.split(&mut self.seat);
            let place = serve_link(&self.means, self.bell, self.scope, theirs, link, at);
            put_in(&mut self.running.places, at, place);
        }
        Ok(())
    }

    /// Joins all threads, gives the seat back, and says how many links ended for want of memory.
    pub(crate) fn join_all(mut self, net: &mut N) -> (SeatOf<T>, u64)
    where
        N::Conn: Drop,
        requires goes { Goes AnyHistory (S.talked B.rang) N.Conn.tells N.tells self net.old }
        ensures seat { IsSeatOf (desk_id self.entry.means.desk.now) result.0 }
        ensures over { (o : LinksServed (S.talked B.rang) self.entry.means.limits.servers (stand N.tells self.entry.before.seat.value self.entry.before.net.value) (stand N.tells result.0 net.new)) × (result.1 ≡ short_of o.links) }
        ensures given { result.0.me.0.given ≡ self.entry.seat.me.0.given }
        ensures faults { (N.tells net.new).faults ≡ (N.tells net.old).faults }
    {
        while let Some(last) = self.running.places.pop() {
            if let Some(place) = last {
                self.join_one(net, place);
            }
        }
        let LinkHost {
            means: _,
            bell: _,
            scope: _,
            before: _,
            seat,
            running,
        } = self;
        (seat, running.short)
    }
}

/// What is answered where room was found.
pub(crate) fn ending(came: Result<(), Failed>, short: u64) -> Result<u64, ServeFault>
    ensures { result ≡ served_result came short }
{
    match came {
        Ok(()) => Ok(short),
        Err(Failed) => Err(ServeFault::Failed),
    }
}
