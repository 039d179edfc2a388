//! Disks by name.

ghost use Rattle.std.specs.Prelude.{◌≡◌, ℕ, List, Option, IfOk};
ghost use Rattle.os_io.specs.Files.{CountsFiles};
ghost use Rattle.disks.specs.Stores.{IsBack, IsHeld, NamesOpened};

use crate::disk::Disk;
use os_io::FileFault;

/// Where disks are opened by name, and given back.
pub trait Stores {
    /// What is opened.
    type Store: Disk + Drop;

    /// What an opening of this name gives, where told: the file's bytes, or none where there is no file.
    ghost held: { Self → List ℕ → Option (List ℕ) };

    /// What those had that were given back, in order, where told.
    ghost back: { Self → Option (List (List ℕ)) };

    /// The names under which one was opened, in order, where told.
    ghost opened: { Self → Option (List (List ℕ)) };

    /// How often one couldn't be opened, at most 2^64 - 1.
    ghost faults: { Self → ℕ };

    /// Opens the one of this name, and makes it where there is none. Where its bytes are told, it tells them.
    fn open_store(&mut self, name: &str) -> Result<Self::Store, FileFault>
        ensures opened { IfOk result (λ disk. IsHeld (held self.old name.now) (Self.Store.told disk) (Self.Store.seen disk)) }
        ensures names { NamesOpened result (opened self.old) (opened self.new) name.now }
        ensures back { back self.new ≡ back self.old }
        ensures counted { CountsFiles result (faults self.old) (faults self.new) };

    /// Opens the one of this name where there is one, and makes none. Where its bytes are told, it tells them.
    fn find_store(&mut self, name: &str) -> Result<Self::Store, FileFault>
        ensures opened { IfOk result (λ disk. IsHeld (held self.old name.now) (Self.Store.told disk) (Self.Store.seen disk)) }
        ensures names { NamesOpened result (opened self.old) (opened self.new) name.now }
        ensures back { back self.new ≡ back self.old }
        ensures others { (other : List ℕ) → (other ≡ name.now → ⊥) → held self.new other ≡ held self.old other }
        ensures counted { CountsFiles result (faults self.old) (faults self.new) };

    /// Takes one back.
    fn done_store(&mut self, store: Self::Store)
        ensures back { IsBack (back self.old) (back self.new) (Self.Store.seen store) }
        ensures names { opened self.new ≡ opened self.old }
        ensures faults { faults self.new ≡ faults self.old };
}
