//! Watches in memory.
ghost use Rattle.std.specs.Prelude.{◌≡◌, IfOk};
ghost use Rattle.memory_ends.specs.Memory.{IsFresh};
ghost use Rattle.memory_ends.specs.Looks.{CameInMemory};
ghost use Rattle.memory_ends.specs.Laws.{came_without, came_on};

use crate::parts::Script;
use os_io::{Memory, Standing, Watch};
use std::alloc::Global;

/// A watch in memory. It counts its looks from 1, and those of given numbers say to stop.
#[derive(Drop)]
pub struct MemWatch {
    script: Script,
    stops: u64,
}

impl MemWatch {
    /// A watch that was not asked yet. The looks whose numbers are in `stops` say to stop.
    pub fn new(alloc: Global, stops: &[u64]) -> Result<MemWatch, Memory>
        ensures stops { IfOk result (λ w. ⟦<MemWatch as Watch>⟧.stops w ≡ 0) }
        ensures fresh { IfOk result (λ w. IsFresh w.script stops.now) }
    {
        Ok(MemWatch {
            script: Script::new(alloc, stops)?,
            stops: 0,
        })
    }

    /// How often it was asked, at most 2^64 - 1.
    pub fn looks(&self) -> u64
        ensures { result ≡ self.now.script.calls }
    {
        self.script.calls()
    }

    /// How often it said to stop.
    pub fn stops(&self) -> u64
        ensures { result ≡ ⟦<MemWatch as Watch>⟧.stops self.now }
    {
        self.stops
    }
}

impl Watch for MemWatch {
    ghost stops = { λ w. w.stops };

    ghost came = { CameInMemory };

    fn look(&mut self) -> bool {
        let stops = self.script.fails();
        if stops {
            self.stops += 1;
        }
        stops
    }

    fn asks(&mut self) -> bool {
        false
    }

    fn hear(&mut self, _standing: Standing) {}

    ghost stays = { λ w. came_without w };

    ghost joined = { λ a b c first second p q. came_on a b c first second p q };

    ghost counts = { λ _ _ _ p. p.counted };
}
