//! A watch that says to stop once a time is over.
ghost use Rattle.std.specs.Prelude.{◌≡◌, None, false};

use fraction::Frac;
use os_io::{Standing, Watch};
use std::cmp::Ordering;
use std::time::{Clock, Duration, Instant};

/// Why a look said to stop.
#[derive(Clone, Copy, PartialEq, Eq, Debug, Drop)]
pub enum Reason {
    /// The watch that is asked first said so.
    Killed,
    /// The time was over.
    Time,
}

/// A time that is over once so many seconds have gone since it began, by this clock. What a clock tells is said by no contract. Where
/// it can't be read, the time isn't over; where it couldn't when the time was to begin, it begins at the first reading. No seconds are
/// over at once, with a clock that can be read or without.
#[derive(Clone, Copy)]
pub struct Deadline<'c, T: Clock> {
    clock: &'c T,
    begun: Option<Instant>,
    limit: Option<Frac>,
}

/// Whether at least so many seconds have gone.
fn have_gone(gone: Duration, seconds: Frac) -> bool {
    match Frac::of(gone.as_nanos() as i128, 1_000_000_000) {
        Ok(gone) => gone.cmp(&seconds) != Ordering::Less,
        Err(_) => true,
    }
}

impl<'c, T: Clock> Deadline<'c, T> {
    /// So many seconds from now on, or, without a limit, a time that is never over.
    pub fn new(clock: &'c T, limit: Option<Frac>) -> Deadline<'c, T>
        ensures { result.limit ≡ limit }
    {
        let begun = match limit {
            Some(_) => Instant::now(clock).ok(),
            None => None,
        };
        Deadline {
            clock,
            begun,
            limit,
        }
    }

    /// Whether so many seconds have gone since it began.
    fn has_passed(&mut self, seconds: Frac) -> bool
        ensures { self.new.limit ≡ self.old.limit }
    {
        match self.begun {
            Some(begun) => match begun.elapsed(self.clock) {
                Ok(gone) => have_gone(gone, seconds),
                Err(_) => false,
            },
            None => {
                self.begun = Instant::now(self.clock).ok();
                false
            }
        }
    }

    /// Begins anew, now.
    pub fn begin_again(&mut self)
        ensures { self.new.limit ≡ self.old.limit }
    {
        let now = Instant::now(self.clock);
        self.begun = now.ok();
    }

    /// Whether it is over. The clock is read only where there is a limit.
    pub fn is_over(&mut self) -> bool
        ensures limit { self.new.limit ≡ self.old.limit }
        ensures only { self.old.limit ≡ None → result ≡ false }
    {
        let Some(seconds) = self.limit else {
            return false;
        };
        seconds.numer() <= 0 || self.has_passed(seconds)
    }
}

/// A watch around another one, which is asked first at each look; where that one says to go on, it says to stop if the time is over.
pub struct Until<'a, 'c, W: Watch, T: Clock> {
    pub watch: &'a mut W,
    pub deadline: Deadline<'c, T>,
    /// How often it was the time that said to stop.
    pub times: u64,
}

impl<'a, 'c, W: Watch, T: Clock> Watch for Until<'a, 'c, W, T> {
    ghost use Rattle.std.specs.Prelude.{◌≡◌, ◌+◌, List, Bool};
    ghost use Rattle.std.proofs.Common.{refl, ◌∙◌};
    ghost use Rattle.stop_reasons.specs.Laws.{until_without, until_then, until_counts};
    ghost use Rattle.stop_reasons.specs.Reasons.{CameUntil};

    ghost stops = { λ u. W.stops u.watch.now + u.times };

    /// The watch inside is lent still, the limit stays, and each look had its answer from the watch inside, or from the time.
    ghost came = { λ u v answers. (v.watch.ghost_name ≡ u.watch.ghost_name) × (v.deadline.limit ≡ u.deadline.limit) × CameUntil (W.came u.watch.now v.watch.now) u.deadline.limit u.times v.times answers };

    fn look(&mut self) -> bool {
        if self.watch.look() {
            return true;
        }
        let over = self.deadline.is_over();
        if over {
            self.times += 1;
        }
        over
    }

    fn asks(&mut self) -> bool {
        self.watch.asks()
    }

    fn hear(&mut self, standing: Standing) {
        self.watch.hear(standing)
    }

    ghost stays = { λ u. (refl, refl, until_without (W.came u.watch.now u.watch.now) u.deadline.limit u.times (W.stays u.watch.now)) };

    ghost joined = { λ u v w a b p q. (q.0 ∙ p.0, q.1 ∙ p.1, until_then (W.came u.watch.now v.watch.now) (W.came v.watch.now w.watch.now) (W.came u.watch.now w.watch.now) (W.joined u.watch.now v.watch.now w.watch.now) u.deadline.limit v.deadline.limit p.1 u.times v.times w.times a b p.2 q.2) };

    ghost counts = { λ u v answers p. until_counts (W.came u.watch.now v.watch.now) (W.stops u.watch.now) (W.stops v.watch.now) (W.counts u.watch.now v.watch.now) u.deadline.limit u.times v.times answers p.2 };
}
