//! A watch that says to stop once there is a file.
use crate::files::Files;
use crate::watch::{Standing, Watch};

/// A watch that asks at each look whether something with this name is there, and says to stop where it is. So whoever may make a file ends
/// a run, be it a script or a person.
pub struct Halt<'f, 'n, F: Files> {
    pub files: &'f F,
    pub name: &'n str,
    /// How often it was there.
    pub stops: u64,
}

impl<'f, 'n, F: Files> Watch for Halt<'f, 'n, F> {
    ghost use Rattle.std.specs.Prelude.{◌≡◌, List, Bool, refl};
    ghost use Rattle.std.proofs.Common.{◌∙◌};
    ghost use Rattle.os_io.specs.Halts.{CameHalted, halted_without, halted_then};

    ghost stops = { λ h. h.stops };

    /// The files and the name are the same, and the looks saw a file of that name or didn't.
    ghost came = { λ h k answers. (k.files ≡ h.files) × (k.name ≡ h.name) × CameHalted (F.held h.files.now h.name.now) h.stops k.stops answers };

    fn look(&mut self) -> bool {
        let there = self.files.is_there(self.name);
        if there {
            self.stops += 1;
        }
        there
    }

    fn asks(&mut self) -> bool {
        false
    }

    fn hear(&mut self, _standing: Standing) {}

    ghost stays = { λ h. (refl, refl, halted_without (F.held h.files.now h.name.now) h.stops) };

    ghost joined = { λ h k l a b p q. (q.0 ∙ p.0, q.1 ∙ p.1, halted_then F.held h.files k.files p.0 h.name k.name p.1 h.stops k.stops l.stops a b p.2 q.2) };

    ghost counts = { λ _ _ _ p. p.2.counted };
}
