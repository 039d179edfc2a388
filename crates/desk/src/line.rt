//! How movers wait for the number that is served. No clause speaks of it: it says how long somebody waits, and not what is answered.

use std::hint::spin_loop;
use std::sync::Wait;
use std::sync::atomic::AtomicU64;
use std::sync::atomic::Ordering::SeqCst;
use std::thread::yield_now;

/// How often a mover tries to draw at once: a move of the table takes about as long.
const AT_ONCE: u32 = 40;

/// How often it tries in all before it sleeps. Behind the first ones it lets others run.
const AWAKE: u32 = 48;

/// What the bell says where nobody sleeps.
const QUIET: u64 = 0;

/// What the bell says where somebody may sleep.
const LISTEN: u64 = 1;

/// Where the next number is anybody's.
const ANYBODY: u64 = 0;

/// Where the next number is for somebody who has slept in vain.
const SOMEBODY: u64 = 1;

/// Two words that all movers of a desk share.
#[derive(Drop)]
pub(crate) struct Line {
    /// Whether somebody may sleep.
    bell: AtomicU64,
    /// Whose the next number is.
    next: AtomicU64,
}

/// How long one mover has waited.
#[derive(Drop)]
pub(crate) struct Waiter {
    tries: u32,
    has_slept: bool,
    is_next: bool,
}

impl Waiter {
    pub(crate) fn new() -> Waiter {
        Waiter {
            tries: 0,
            has_slept: false,
            is_next: false,
        }
    }
}

impl Line {
    pub(crate) fn new() -> Line {
        Line {
            bell: AtomicU64::new(QUIET),
            next: AtomicU64::new(ANYBODY),
        }
    }

    /// Whether a mover may try to draw: not where the next number is another one's.
    pub(crate) fn lets(&self, waiter: &Waiter) -> bool {
        waiter.is_next || self.next.load(SeqCst) == ANYBODY
    }

    /// What a mover that has drawn leaves to others.
    pub(crate) fn leave(&self, waiter: &Waiter) {
        if waiter.is_next {
            self.next.store(ANYBODY, SeqCst);
        }
    }

    /// What a mover does behind a try that failed. Before it sleeps until the bell rings it says that it listens, and tries once more;
    /// when it wakes it says so again, for others who may sleep. Where it has slept before, it asks for the next number first.
    pub(crate) fn rest<R: Wait>(&self, rt: &R, waiter: &mut Waiter) {
        if waiter.tries < AT_ONCE {
            waiter.tries += 1;
            return spin_loop();
        }
        if waiter.is_next {
            return yield_now();
        }
        if waiter.tries < AWAKE {
            waiter.tries += 1;
            return yield_now();
        }
        if waiter.tries > AWAKE {
            self.bell.park(rt, LISTEN as u32);
            self.bell.store(LISTEN, SeqCst);
            waiter.tries = 0;
            waiter.has_slept = true;
        } else if waiter.has_slept && self.next.swap(SOMEBODY, SeqCst) == ANYBODY {
            waiter.is_next = true;
        } else {
            self.bell.store(LISTEN, SeqCst);
            waiter.tries = AWAKE + 1;
        }
    }

    /// Wakes one mover, where somebody may sleep.
    pub(crate) fn ring(&self) {
        if self.bell.load(SeqCst) == LISTEN && self.bell.swap(QUIET, SeqCst) == LISTEN {
            self.bell.wake_one();
        }
    }
}
