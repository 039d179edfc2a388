//! Tokens that wake workers.
//!
//! A token carries nothing, and what the system's channel did with it is told by nothing else: so no clause says of a ring of [`Wake`]
//! more than its answer. What is said is said where a bell is used, for any [`Bell`].

use crossbeam_channel::{Receiver, Sender, unbounded};
use os_io::Memory;
use std::alloc::Global;
use std::sync::Wait;

/// The end that wakes workers. The channel is closed when it is dropped.
#[derive(Drop)]
pub struct Wake {
    tokens: Sender<()>,
}

/// The end that workers sleep on, any number of them.
#[derive(Drop)]
pub struct WakeSignals {
    tokens: Receiver<()>,
}

/// The two ends of a channel of tokens.
pub fn wake_pair(alloc: Global) -> Result<(Wake, WakeSignals), Memory> {
    let (sender, receiver) = unbounded(alloc)?;
    Ok((Wake { tokens: sender }, WakeSignals { tokens: receiver }))
}

/// What wakes workers. What a ring did is known by its answer alone, so whoever is generic over bells can't say that a worker was woken,
/// or that none was, without having rung.
pub trait Bell {
    ghost use Rattle.std.specs.Prelude.{Bool};

    /// A ring was answered so: whether a token was sent.
    ghost rang: { Bool → Type 0 };

    /// Sends one token, and says whether it was sent. Where it wasn't, whoever wanted to wake a worker is to do its work.
    fn ring<R: Wait>(&self, rt: &R) -> bool
        ensures { rang result };
}

impl Bell for Wake {
    ghost use Rattle.workers.specs.Bells.{Untold};

    ghost rang = { Untold };

    fn ring<R: Wait>(&self, rt: &R) -> bool {
        self.tokens.send(rt, ()).is_ok()
    }
}

impl WakeSignals {
    /// Waits for a token. False once the channel is closed and no token is left.
    pub fn wait<R: Wait>(&self, rt: &R) -> bool {
        self.tokens.recv(rt).is_ok()
    }
}
