//! States that the marks of a document change.

ghost use Rattle.std.specs.Prelude.{◌≡◌, ◌⊎◌, map, OnOk, IfOk, IfErr};
ghost use Rattle.doc_tree.specs.Marks.{Start, Char, Finish};
ghost use Rattle.doc_tree.specs.declared.fault.TreeFault.TheVariants.{Memory};
ghost use Rattle.document_tags.specs.Documents.{OfDocument, TreeFails};
ghost use Rattle.mark_folds.specs.Folds.{folded, IsFolded};

use doc_tree::{Events, TreeFault, Visitor};
use element_tree::Attributes;
use os_io::{MOST_BYTES, Memory as NoMemory};
use std::alloc::Global;

/// A state that each mark of a document changes. None is refused.
pub trait MarkFold {
    ghost use Rattle.doc_tree.specs.Marks.{Mark};

    /// What a mark makes of it.
    ghost after: { Self → Mark → Self };

    /// An element begins.
    fn enter(
        &mut self,
        alloc: Global,
        name: &[u8],
        attributes: &Attributes<'_>,
    ) -> Result<(), NoMemory>
        ensures { OnOk result (self.new ≡ after self.old (Start name.now attributes.now)) };

    /// Characters of the innermost element. They may be a part of a run.
    fn chars(&mut self, text: &[u8]) -> Result<(), NoMemory>
        ensures { OnOk result (self.new ≡ folded after self.old (map Char text.now)) };

    /// The innermost element ends, which has this name.
    fn close(&mut self, name: &[u8])
        ensures { self.new ≡ after self.old (Finish name.now) };
}

/// One who is told of a document, and keeps what its marks make of a state.
#[derive(Drop)]
struct Listener<S> {
    alloc: Global,
    state: S,
}

impl<S: MarkFold + Drop> Visitor for Listener<S> {
    ghost use Rattle.mark_folds.specs.Folds.{FoldsTo, folds_none, folds_both};

    ghost had = { λ u v ms. FoldsTo S.after u.state v.state ms };

    ghost stays = { λ v. folds_none S.after v.state };

    ghost joined = { λ u v w first second. folds_both S.after u.state v.state w.state first second };

    fn enter(&mut self, name: &[u8], attributes: &Attributes<'_>) -> Result<(), NoMemory> {
        self.state.enter(self.alloc, name, attributes)
    }

    fn chars(&mut self, text: &[u8]) -> Result<(), NoMemory> {
        self.state.chars(text)
    }

    fn close(&mut self, name: &[u8]) -> Result<(), NoMemory> {
        self.state.close(name);
        Ok(())
    }
}

/// What the marks of a document of at most [`MOST_BYTES`] bytes and of a depth of at most 32 make of a state, or why the bytes are
/// no document.
pub fn fold_document<S: MarkFold + Drop>(
    alloc: Global,
    bytes: &[u8],
    start: S,
) -> Result<S, TreeFault>
    ensures ok { IfOk result (OfDocument (IsFolded S.after start) bytes.now) }
    ensures err { IfErr result (λ f. (f ≡ Memory) ⊎ TreeFails bytes.now f) }
{
    let listener = Listener {
        alloc,
        state: start,
    };
    let mut events = Events::new(alloc, MOST_BYTES, listener);
    // what is refused here is told again in the end
    let _ = events.feed(bytes);
    match events.finish() {
        Ok(Listener { state, .. }) => Ok(state),
        Err(fault) => Err(fault),
    }
}
