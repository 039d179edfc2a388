//! The watch of a run that nobody stops.
ghost use Rattle.std.specs.Prelude.{◌≡◌, refl};
ghost use Rattle.os_io.specs.Looks.{stops_of};
ghost use Rattle.os_io.specs.Laws.{no_stop, no_stops};

use crate::watch::{Standing, Watch};

/// A watch that never says to stop.
#[derive(Clone, Copy, Drop)]
pub struct Never;

impl Watch for Never {
    ghost stops = { λ _. 0 };

    ghost came = { λ _ _ answers. stops_of answers ≡ 0 };

    fn look(&mut self) -> bool {
        false
    }

    fn asks(&mut self) -> bool {
        false
    }

    fn hear(&mut self, _standing: Standing) {}

    ghost stays = { λ _. refl };

    ghost joined = { λ _ _ _ first second p q. no_stops first second p q };

    ghost counts = { λ _ _ answers p. no_stop answers p };
}
