//! Readers of marks.

ghost use Rattle.std.specs.Prelude.{[], ◌∷◌, map};
ghost use Rattle.doc_tree.specs.Marks.{Start, Char, Finish};
ghost use Rattle.tag_tests.specs.Readers.{Steps};

use element_tree::Attributes;
use std::alloc::{AllocError, Global};

/// Why marks aren't taken.
#[derive(Drop)]
pub enum Stop<R> {
    /// One is refused.
    Refused(R),
    /// There was no memory.
    Memory,
}

impl<R: Drop> From<AllocError> for Stop<R> {
    ghost from_gives = { λ _ e. e ≡ Memory };

    ghost use Rattle.std.specs.Prelude.{◌≡◌};
    ghost use Rattle.tag_tests.specs.declared.marks.Stop.TheVariants.{Memory};

    fn from(_e: AllocError) -> Stop<R> {
        Stop::Memory
    }
}

/// One who reads a document mark by mark. It is what the marks so far leave, and says of each further one that it is taken,
/// or how it is refused.
pub trait MarkReader<R> {
    ghost use Rattle.std.specs.Prelude.{List, [], ◌++◌};
    ghost use Rattle.doc_tree.specs.Marks.{Mark};

    /// These marks are taken, and leave the one as the other.
    ghost took: { Self → List Mark → Self → Type 0 };

    /// The first of these marks that isn't taken is refused so.
    ghost refuses: { Self → List Mark → R → Type 0 };

    /// An element begins.
    fn enter(
        &mut self,
        alloc: Global,
        name: &[u8],
        attributes: &Attributes<'_>,
    ) -> Result<(), Stop<R>>
        ensures { Steps took refuses self.old (Start name.now attributes.now ∷ []) self.new result };

    /// Characters of the innermost element. They may be a part of a run.
    fn chars(&mut self, alloc: Global, text: &[u8]) -> Result<(), Stop<R>>
        ensures { Steps took refuses self.old (map Char text.now) self.new result };

    /// The innermost element ends, which has this name.
    fn close(&mut self, alloc: Global, name: &[u8]) -> Result<(), Stop<R>>
        ensures { Steps took refuses self.old (Finish name.now ∷ []) self.new result };

    /// Law: no marks are taken, and leave it as it is.
    ghost took_none: { (s : Self) → took s [] s };

    /// Law: marks that are taken after others are taken with them.
    ghost took_both: { (s m z : Self) (first second : List Mark) → took s first m → took m second z → took s (first ++ second) z };

    /// Law: marks that are refused after others are refused with them.
    ghost refuses_behind: { (s m : Self) (first second : List Mark) (r : R) → took s first m → refuses m second r → refuses s (first ++ second) r };

    /// Law: marks that are refused are so with others behind them.
    ghost refuses_more: { (s : Self) (first second : List Mark) (r : R) → refuses s first r → refuses s (first ++ second) r };
}
