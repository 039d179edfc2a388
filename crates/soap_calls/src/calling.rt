//! Reads calls.

ghost use Rattle.std.specs.Prelude.{◌≡◌, [], List, ℕ, None, Some, Err, IfOk, IfErr};
ghost use Rattle.soap_calls.specs.Calls.{IsCallText};
ghost use Rattle.soap_calls.specs.Refusals.{CallFails};
ghost use Rattle.doc_tree.specs.declared.fault.TreeFault as trees;
ghost use Rattle.soap_calls.specs.Reading.{HasTaken, TakesMore, more_none, more_both, tree_fault};

use crate::call::SoapCall;
use crate::fault::SoapFault;
use crate::listening::EnvelopeReader;
use doc_tree::TreeFault;
use os_io::Body;
use std::alloc::Global;

/// Reads the call whose envelope comes in pieces, as the body of a request does, mark by mark. It holds the texts of the call's
/// parts as they came so far, each once, and of the envelope nothing else.
#[derive(Drop)]
pub struct CallReader {
    alloc: Global,
    reader: EnvelopeReader,
}

impl CallReader {
    /// One that took nothing.
    pub fn new(alloc: Global) -> CallReader
        ensures taken { HasTaken result [] }
        ensures fresh { result.reader.refusal ≡ None }
    {
        CallReader {
            alloc,
            reader: EnvelopeReader::new(alloc),
        }
    }

    /// The call that all bytes that it took are the envelope of: a document of at most 4,194,304 bytes and of a depth of at most 32.
    ///
    /// [`SoapFault::Envelope`] exactly where they are none, or no envelope with one body that has one element in it; then
    /// [`SoapFault::Call`] exactly where that element isn't one of the six calls, and [`SoapFault::Part`] of the first part that
    /// is refused. [`SoapFault::Memory`] also where there was no memory for one of the pieces.
    pub fn finish(self) -> Result<SoapCall, SoapFault>
        ensures again { (fault : trees.TreeFault) → self.reader.refusal ≡ Some fault → result ≡ Err (tree_fault fault) }
        ensures ok { (bytes : List ℕ) → HasTaken self bytes → IfOk result (IsCallText bytes) }
        ensures err { (bytes : List ℕ) → HasTaken self bytes → IfErr result (CallFails bytes) }
    {
        let CallReader { alloc, reader } = self;
        match reader.finish() {
            Ok(found) => found.call(alloc),
            Err(TreeFault::Memory) => Err(SoapFault::Memory),
            Err(_) => Err(SoapFault::Envelope),
        }
    }
}

impl Body for CallReader {
    ghost took = { TakesMore };

    ghost stays = { more_none };

    ghost joined = { more_both };

    /// A piece that is refused is refused again at the end, and so is one for which there was no memory.
    fn take(&mut self, piece: &[u8]) {
        self.reader.feed(piece);
    }
}

/// The call that bytes are the envelope of, as the body of a request, or why they are none: what a [`CallReader`] says that took them.
pub fn read_call(alloc: Global, bytes: &[u8]) -> Result<SoapCall, SoapFault>
    ensures ok { IfOk result (IsCallText bytes.now) }
    ensures err { IfErr result (CallFails bytes.now) }
{
    let mut reader = CallReader::new(alloc);
    reader.take(bytes);
    reader.finish()
}
