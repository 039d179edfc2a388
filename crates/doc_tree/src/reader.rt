//! What reads documents into trees: whole ones, and such as come in pieces.

ghost use Rattle.std.specs.Prelude.{◌≡◌, ◌++◌, [], List, ℕ, IfOk, IfErr, MatchOption, Some, None, Ok, Err};
ghost use Rattle.doc_tree.specs.Reading.{ReadsDocument, ReadsOnly, ReadingFails};
ghost use Rattle.doc_tree.specs.declared.fault.TreeFault.{TreeFault};
ghost use Rattle.doc_tree.specs.Feeding.{WasFed};

use crate::events::Events;
use crate::fault::TreeFault;
use crate::gathering::Gathering;
use element_tree::Tree;
use std::alloc::Global;
use std::marker::Model;

/// Reads a document of at most `limit` bytes and of a depth of at most 32 (`tree_grammar::DEPTH`).
pub fn read(alloc: Global, bytes: &[u8], limit: u64) -> Result<Tree, TreeFault>
    ensures reads { IfOk result (ReadsDocument limit bytes.now) }
    ensures only { IfOk result (ReadsOnly bytes.now) }
    ensures refusal { IfErr result (ReadingFails limit bytes.now) }
{
    let mut reader = Reader::new(alloc, limit);
    match reader.feed(bytes) {
        Ok(()) => reader.finish(),
        Err(fault) => Err(fault),
    }
}

/// Reads a document of at most `limit` bytes and of a depth of at most 32, piece by piece: [`Events`] that tell a tree.
///
/// Contracts say which bytes it was fed (`WasFed`), and why it takes no more, if it doesn't.
pub struct Reader {
    events: Events<Gathering>,
}

impl Drop for Reader {
    fn drop(self) {
        let Reader { events: _ } = self;
    }
}

impl Model for Reader {
    ghost use Rattle.doc_tree.specs.Feeding.{Feeding};
    ghost use Rattle.doc_tree.specs.Gathered.{whole};

    ghost Value = { Feeding };

    ghost view = { λ r. whole r.events.reading r.events.visitor };
}

impl Reader {
    /// A reader that was fed nothing.
    pub fn new(alloc: Global, limit: u64) -> Self
        ensures fed { WasFed result [] }
        ensures limit { result.limit ≡ limit }
        ensures refusal { result.refusal ≡ None }
    {
        Reader {
            events: Events::new(alloc, limit, Gathering::new(alloc)),
        }
    }

    /// Reads the next piece. A refusal comes with the piece that has the byte which decides it, and each later call
    /// answers it again.
    pub fn feed(&mut self, piece: &[u8]) -> Result<(), TreeFault>
        ensures limit { self.new.limit ≡ self.old.limit }
        ensures stays { (fault : TreeFault) → self.old.refusal ≡ Some fault → self.new.refusal ≡ Some fault }
        ensures answers { MatchOption self.new.refusal (result ≡ Ok tt) (λ fault. result ≡ Err fault) }
        ensures fed { (bytes : List ℕ) → WasFed self.old bytes → WasFed self.new (bytes ++ piece.now) }
    {
        self.events.feed(piece)
    }

    /// The tree of the document that was fed, or why there is none.
    pub fn finish(self) -> Result<Tree, TreeFault>
        ensures again { (fault : TreeFault) → self.refusal ≡ Some fault → result ≡ Err fault }
        ensures reads { IfOk result (λ tree. (bytes : List ℕ) → WasFed self bytes → ReadsDocument self.limit bytes tree) }
        ensures only { IfOk result (λ tree. (bytes : List ℕ) → WasFed self bytes → ReadsOnly bytes tree) }
        ensures refuses { IfErr result (λ fault. (bytes : List ℕ) → WasFed self bytes → ReadingFails self.limit bytes fault) }
    {
        let Reader { events } = self;
        let at = events.reading.count();
        match events.finish() {
            Ok(gathering) => match gathering.finish() {
                Ok(Some(tree)) => Ok(tree),
                Ok(None) => Err(TreeFault::Malformed { at }),
                Err(_) => Err(TreeFault::Memory),
            },
            Err(fault) => Err(fault),
        }
    }
}
