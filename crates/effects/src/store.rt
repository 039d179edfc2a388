//! What keeps effects, each before its move is acknowledged.

ghost use Rattle.std.specs.Prelude.{List, ℕ, Bool};
ghost use Rattle.effects.specs.Records.{Deed, deed_of};
ghost use Rattle.effects.specs.Stores.{Puts, fault_of};

use crate::kinds::Effect;
use thiserror::Error;

/// Why an effect wasn't stored.
#[derive(Clone, Copy, PartialEq, Eq, Debug, Drop, Error)]
pub enum NotStored {
    /// A call of the disk failed. Whether the effect is on the disk shows when the file is opened again.
    #[error("a call of the disk failed")]
    Disk,
    /// An earlier put has answered Disk.
    #[error("an earlier call of the disk failed")]
    Broken,
    /// The record is too long, or the file would be.
    #[error("the record is too long, or the file would be")]
    Long,
}

/// What keeps effects.
pub trait Store {
    /// It keeps these effects, in this order. More than one list may be so where it doesn't tell which.
    ghost keeps: { Self → List Deed → Type 0 };

    /// A crash at any moment between the two leaves these effects, or these and that one behind them.
    ghost passes: { Self → Self → List Deed → Deed → Type 0 };

    /// Whether an effect is too long to be stored once these more are.
    ghost too_long: { Self → List Deed → Deed → Bool };

    /// Whether a put has answered Disk.
    ghost broken: { Self → Bool };

    /// How often a call of its disk has failed, at most 2^64 - 1.
    ghost faults: { Self → ℕ };

    /// Stores an effect behind those that are kept. At an error what was kept stays.
    fn put(&mut self, effect: &Effect) -> Result<(), NotStored>
        ensures { Puts keeps passes too_long broken faults (deed_of effect.now) self.old (fault_of result) self.new };
}

/// Keeps nothing, and says that it stored each effect.
#[derive(Clone, Copy, Drop)]
pub struct NoStore;

impl Store for NoStore {
    ghost use Rattle.std.specs.Prelude.{false};

    ghost keeps = { λ _ _. Unit {0} };

    ghost passes = { λ _ _ _ _. Unit {0} };

    ghost too_long = { λ _ _ _. false };

    ghost broken = { λ _. false };

    ghost faults = { λ _. 0 };

    fn put(&mut self, _effect: &Effect) -> Result<(), NotStored> {
        Ok(())
    }
}
