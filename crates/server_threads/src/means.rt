//! What serving uses, how much is served, and why it ends early.

ghost use Rattle.std.specs.Prelude.{◌≡◌, ◌<◌, [], IfOk, vec_len};
ghost use Rattle.server_threads.specs.Serving.{taken};
ghost use Rattle.server_threads.specs.OpenLinks.{MayServe};

use crate::links::{Places, Running};
use crate::staff::Shifts;
use crossbeam_channel::{Sender, bounded};
use desk::{DeskOf, SlotContents};
use job_table::Verdicts;
use link_service::Service;
use os_io::{Link, Memory};
use std::alloc::Global;
use std::collections::VecDeque;
use std::sync::atomic::AtomicU64;
use thiserror::Error;
use workers::{Wake, WakeSignals, wake_pair};

/// Serving ended before all links were served.
#[derive(Clone, Copy, PartialEq, Eq, Debug, Drop, Error)]
pub enum ServeFault {
    /// The listener failed: its count of faults rose.
    #[error("the listener failed")]
    Failed,
    /// There was no memory, and no link was taken.
    #[error("there was no memory")]
    Memory,
}

/// How much is served.
#[derive(Clone, Copy, PartialEq, Eq, Drop)]
pub struct ServeLimits {
    /// How many links may be served at once, at least one.
    pub servers: u32,
    /// How many links are to come.
    pub connections: u32,
    /// How many workers run the jobs that wait.
    pub workers: u32,
}

/// What all threads use.
#[derive(Drop)]
pub(crate) struct Means<'s, J: Verdicts, T: SlotContents<J>, R, S> {
    pub(crate) rt: &'s R,
    pub(crate) alloc: Global,
    pub(crate) desk: &'s DeskOf<J, T>,
    pub(crate) service: &'s S,
    pub(crate) signals: &'s WakeSignals,
    /// Where a thread that served a link says, as its last act, which place becomes free.
    pub(crate) leaving: &'s Sender<usize>,
    /// The number of the worker that couldn't be started last.
    pub(crate) missing: &'s AtomicU64,
    pub(crate) limits: ServeLimits,
}

impl<'s, J: Verdicts, T: SlotContents<J>, R, S> Means<'s, J, T, R, S> {
    /// The same once more.
    pub(crate) fn again(&self) -> Means<'s, J, T, R, S>
        ensures { result ≡ self.now }
    {
        let Means {
            rt,
            alloc,
            desk,
            service,
            signals,
            leaving,
            missing,
            limits,
        } = *self;
        Means {
            rt,
            alloc,
            desk,
            service,
            signals,
            leaving,
            missing,
            limits,
        }
    }
}

/// Room for the links that are served at once, and for the workers, with what wakes these.
#[derive(Drop)]
pub(crate) struct Room<J: Verdicts, T: SlotContents<J>, L: Link, S: Service<J>> {
    pub(crate) running: Running<J, T, L, S, Wake>,
    pub(crate) shifts: Shifts<J, T, S>,
    pub(crate) wake: Wake,
}

/// So many places, all of them free, with their numbers.
fn free_places<J: Verdicts, T: SlotContents<J>, L: Link + Drop, S: Service<J>>(
    alloc: Global,
    servers: usize,
) -> Result<(Places<J, T, L, S, Wake>, Vec<usize>), Memory>
    ensures { IfOk result (λ r. (taken r.0.items ≡ []) × (vec_len r.0 ≡ servers)) }
{
    let mut places = Vec::with_capacity(alloc, servers)?;
    let mut free = Vec::with_capacity(alloc, servers)?;
    for at in 0..servers {
        places.push_reserved(None);
        free.push_reserved(at);
    }
    Ok((places, free))
}

impl<J: Verdicts, T: SlotContents<J>, L: Link + Drop, S: Service<J>> Room<J, T, L, S> {
    /// Takes as much room as is needed. What workers sleep on comes with it, and where threads of links say that they are over.
    pub(crate) fn new(
        alloc: Global,
        limits: &ServeLimits,
    ) -> Result<(Room<J, T, L, S>, WakeSignals, Sender<usize>), Memory>
        requires { 0 < limits.now.servers }
        ensures { IfOk result (λ r. MayServe limits.now r.0) }
    {
        let servers = limits.servers as usize;
        let (places, free) = free_places(alloc, servers)?;
        let shifts = VecDeque::with_capacity(alloc, limits.workers as usize)?;
        let (leaving, left) = bounded(alloc, servers)?;
        let (wake, signals) = wake_pair(alloc)?;
        let running = Running {
            places,
            free,
            left,
            short: 0,
        };
        let room = Room {
            running,
            shifts,
            wake,
        };
        Ok((room, signals, leaving))
    }
}
