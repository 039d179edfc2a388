//! A watch that is asked now and then.

use os_io::{Sink, Standing, Watch};
use std::time::{Clock, Instant};
use stop_reasons::Told;

/// How many nanoseconds go before a look is passed on again: a tenth of a second.
const PACE: u128 = 100_000_000;

/// A watch around one that tells how a search stands. It passes on a look once the time since the one that it passed on before is over,
/// and the first one; a look that isn't passed on says to go on. To ask whether there is a file takes as long as a small case of a
/// search, to read a clock a fiftieth of that. Where the clock can't be read, each look is passed on.
pub(crate) struct Paced<'c, 'e, W: Watch, T: Clock, E: Sink> {
    pub told: Told<'c, 'e, W, T, E>,
    pub clock: &'c T,
    /// When a look was last passed on.
    pub passed: Option<Instant>,
    /// Whether one was passed on since the watch inside was last asked what it wants to be told.
    pub looked: bool,
}

/// Whether the time between two readings is over. It is where one is missing.
fn is_over(passed: Option<Instant>, now: Option<Instant>) -> bool {
    match passed {
        Some(passed) => match now {
            Some(now) => now.duration_since(passed).as_nanos() >= PACE,
            None => true,
        },
        None => true,
    }
}

impl<'c, 'e, W: Watch, T: Clock, E: Sink> Watch for Paced<'c, 'e, W, T, E> {
    ghost use Rattle.os_app.specs.Paces.{CamePaced, paced_without, paced_then, paced_counts};

    ghost stops = { λ p. W.stops p.told.watch };

    /// The looks that were passed on were the inner watch's, and no other said to stop.
    ghost came = { λ p q answers. CamePaced (W.came p.told.watch q.told.watch) answers };

    fn look(&mut self) -> bool {
        let now = Instant::now(self.clock).ok();
        if !is_over(self.passed, now) {
            return false;
        }
        self.passed = now;
        self.looked = true;
        self.told.look()
    }

    fn asks(&mut self) -> bool {
        if !self.looked {
            return false;
        }
        self.looked = false;
        self.told.asks()
    }

    fn hear(&mut self, standing: Standing) {
        self.told.hear(standing)
    }

    ghost stays = { λ p. paced_without (W.came p.told.watch p.told.watch) (W.stays p.told.watch) };

    ghost joined = { λ p q r a b came more. paced_then (W.came p.told.watch q.told.watch) (W.came q.told.watch r.told.watch) (W.came p.told.watch r.told.watch) (W.joined p.told.watch q.told.watch r.told.watch) a b came more };

    ghost counts = { λ p q answers came. paced_counts (W.came p.told.watch q.told.watch) (W.stops p.told.watch) (W.stops q.told.watch) (W.counts p.told.watch q.told.watch) answers came };
}
