//! Waiting for another thread, so long at most.

use std::sync::atomic::AtomicBool;
use std::sync::atomic::Ordering::SeqCst;
use std::thread::{sleep, yield_now};
use std::time::{Clock, Duration};

/// How often a thread that waits looks at most.
const TURNS: u32 = 10_000_000;

/// Behind how many looks it sleeps for a millisecond. Where others want the processor too, whoever only looks takes it from whom it
/// waits for.
const LOOKS: u32 = 1_000;

/// Looks until another thread has set the word, or so often as it looks at most. The answer is whether it was set.
pub(crate) fn wait_for<R: Clock>(clock: &R, word: &AtomicBool) -> bool {
    for turn in 1..=TURNS {
        if word.load(SeqCst) {
            return true;
        }
        if turn.is_multiple_of(LOOKS) {
            sleep(clock, Duration::from_millis(1));
        } else {
            yield_now();
        }
    }
    false
}
