//! Entries of a row as fractions, those that aren't 0 alone.
ghost use Rattle.std.specs.Prelude.{◌≡◌, ℕ, ◌+◌, ◌<◌, ◌≤◌, [], ◌∷◌, ◌++◌, length, slice_index_or, IfOk};

use crate::steps::Steps;
use fraction::Frac;
use std::alloc::{AllocError, Global};
use std::marker::PhantomData;
use std::sync::ledger::Ledger;

/// An entry of a row: its column, and its value, which isn't 0.
#[derive(Clone, Copy, PartialEq, Eq)]
pub struct Item {
    pub col: u32,
    pub value: Frac,
}

/// The entries of a row, by ascending columns. Nothing else reads or writes one than `read` and `write`, which count it on the
/// row's own ledger: whoever is lent the one count of that ledger can begin no other.
#[derive(Drop)]
pub struct Fractions<L: Ledger> {
    items: Vec<Item>,
    ledger: PhantomData<L>,
}

impl<L: Ledger> Fractions<L> {
    ghost use Rattle.dictionary.specs.Row.{entries_of, room_of};

    /// A row without entries, and room for so many.
    pub fn with_room(alloc: Global, room: usize) -> Result<Fractions<L>, AllocError>
        ensures { IfOk result (λ r. room_of r ≡ room) }
    {
        let items = Vec::with_capacity(alloc, room)?;
        Ok(Fractions {
            items,
            ledger: PhantomData,
        })
    }

    /// How many entries it has.
    pub fn len(&self) -> usize
        ensures { result ≡ length (entries_of self.now) }
    {
        self.items.len()
    }

    /// Leaves it without entries.
    pub fn clear(&mut self)
        ensures entries { entries_of self.new ≡ [] }
        ensures room { room_of self.new ≡ room_of self.old }
    {
        self.items.clear();
    }

    /// The entry at a place: one step.
    pub fn read(&self, i: usize, steps: &mut Steps<L>) -> &Item
        requires { i < length (entries_of self.now) }
        ensures item { result.now ≡ slice_index_or (entries_of self.now) i result.now }
        ensures cost { steps.new ≡ steps.old + 1 }
    {
        steps.tick();
        &self.items[i]
    }

    /// Puts an entry at the end: one step.
    pub fn write(&mut self, item: Item, steps: &mut Steps<L>)
        requires { length (entries_of self.old) < room_of self.old }
        ensures entries { entries_of self.new ≡ entries_of self.old ++ item ∷ [] }
        ensures room { room_of self.new ≡ room_of self.old }
        ensures cost { steps.new ≡ steps.old + 1 }
    {
        steps.tick();
        self.items.push_reserved(item);
    }
}
