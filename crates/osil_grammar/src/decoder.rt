//! Reads OSiL documents that come in pieces.

ghost use Rattle.std.specs.Prelude.{◌≡◌, ◌≤◌, ◌++◌, [], List, ℕ, None, Ok, Err, Some, OnOk, IfOk, IfErr, MatchOption, MatchResult};
ghost use Rattle.doc_tree.specs.Relieved.{NoMarkWaits};
ghost use Rattle.doc_tree.specs.declared.fault.TreeFault.{TreeFault};
ghost use Rattle.osil_grammar.specs.ParseState as states;
ghost use Rattle.osil_grammar.specs.Marked.{instance_of};
ghost use Rattle.osil_grammar.specs.Reading.{IsInstanceText, DecodeFails};
ghost use Rattle.osil_grammar.specs.Hearing as hearing;
ghost use Rattle.osil_grammar.specs.Hearing.{WasFed, tree_fault};

use crate::fault::OsilFault;
use crate::parse_state::ParseState;
use crate::stop::{Refused, Stop};
use doc_tree::TreeFault;
use element_tree::Attributes;
use instance::Instance;
use std::alloc::{AllocError, Global};
use std::marker::Model;
use tag_tests::{Decoder as MarkDecoder, MarkReader};

/// What the marks so far leave, which makes an instance as far as it goes. Where one isn't taken it holds nothing.
#[derive(Drop)]
struct Reader {
    parse_state: ParseState,
}

impl Model for Reader {
    ghost use Rattle.osil_grammar.specs.ParseState.{State};
    ghost use Rattle.osil_grammar.specs.Hearing.{MakesSoFar};

    ghost Value = { State };

    ghost view = { λ r. r.parse_state };

    ghost invariant = { λ r. MakesSoFar r.parse_state };
}

/// What a mark came to. Behind one that isn't taken nothing is held.
fn keep(alloc: Global, parse_state: &mut ParseState, step: Result<(), Stop>) -> Result<(), Stop>
    ensures told { result ≡ step }
    ensures held { MatchResult step (λ _. parse_state.new ≡ parse_state.old) (λ _. parse_state.new ≡ states.start) }
{
    match step {
        Ok(()) => Ok(()),
        Err(stop) => {
            *parse_state = ParseState::new(alloc);
            Err(stop)
        }
    }
}

impl Reader {
    /// One who was told nothing.
    fn new(alloc: Global) -> Self
        ensures { result ≡ states.start }
    {
        Reader {
            parse_state: ParseState::new(alloc),
        }
    }

    /// How many items it holds.
    fn numbers(&self) -> u64
        ensures is { result ≡ hearing.held self.now }
        ensures few { result ≤ 211009 }
    {
        self.parse_state.numbers()
    }

    /// The instance that the marks say.
    fn instance(self) -> Result<Instance, AllocError>
        ensures { IfOk result (λ p. p ≡ instance_of self) }
    {
        self.parse_state.instance()
    }
}

impl MarkReader<Refused> for Reader {
    ghost use Rattle.std.proofs.Common.{refl};
    ghost use Rattle.tag_tests.specs.Forms.{AreTaken, AreRefused};
    ghost use Rattle.tag_tests.proofs.Forms.{taken_both, refused_behind, refused_more};
    ghost use Rattle.osil_grammar.specs.Marked.{osil};
    ghost use Rattle.osil_grammar.specs.Stepping.{told_of};

    ghost took = { λ s ms z. AreTaken osil s ms z };

    ghost refuses = { λ s ms r. AreRefused osil s ms (told_of r.refusal r.at) };

    ghost took_none = { λ s. refl };

    ghost took_both = { λ s m z ms ns p q. taken_both osil s m z ms ns p q };

    ghost refuses_behind = { λ s m ms ns r p q. refused_behind osil s m ms ns (told_of r.refusal r.at) p q };

    ghost refuses_more = { λ s ms ns r p. refused_more osil s ms ns (told_of r.refusal r.at) p };

    fn enter(
        &mut self,
        alloc: Global,
        name: &[u8],
        attributes: &Attributes<'_>,
    ) -> Result<(), Stop> {
        if self.parse_state.is_full() {
            return Err(Stop::Memory);
        }
        let step = self.parse_state.enter(name, attributes);
        keep(alloc, &mut self.parse_state, step)
    }

    fn chars(&mut self, alloc: Global, text: &[u8]) -> Result<(), Stop> {
        match self.parse_state.chars(text) {
            Ok(()) => Ok(()),
            Err(_) => {
                self.parse_state = ParseState::new(alloc);
                Err(Stop::Memory)
            }
        }
    }

    fn close(&mut self, alloc: Global, _name: &[u8]) -> Result<(), Stop> {
        let step = self.parse_state.close();
        keep(alloc, &mut self.parse_state, step)
    }
}

/// A tree's refusal as it is told.
fn told(fault: TreeFault) -> OsilFault
    ensures { result ≡ tree_fault fault }
{
    match fault {
        TreeFault::Memory => OsilFault::Memory,
        fault => OsilFault::Tree(fault),
    }
}

/// Reads an OSiL document that comes in pieces. It holds no tree: what the tags say so far, and what they say no more.
///
/// Contracts say which bytes it was fed (`WasFed`), and why it takes no more, if it doesn't.
#[derive(Drop)]
pub struct Decoder {
    marks: MarkDecoder<Refused, Reader>,
}

impl Model for Decoder {
    ghost use Rattle.tag_tests.specs.Readers.{Decoding};
    ghost use Rattle.osil_grammar.specs.ParseState.{State};
    ghost use Rattle.osil_grammar.specs.declared.stop.Refused.{Refused};

    ghost Value = { Decoding State Refused };

    ghost view = { λ d. d.marks };
}

impl Decoder {
    /// One that was fed nothing.
    pub fn new(alloc: Global) -> Self
        ensures fed { WasFed result [] }
        ensures refusal { result.reading.refusal ≡ None }
    {
        Decoder {
            marks: MarkDecoder::new(alloc, Reader::new(alloc)),
        }
    }

    /// Reads the next piece. It answers only a tree's refusal, with the piece that has the byte which decides it, or
    /// want of memory, and each later call answers it again. Behind the piece no mark waits to be read, unless it ends within a
    /// start tag behind an attribute.
    pub fn feed(&mut self, piece: &[u8]) -> Result<(), OsilFault>
        ensures stays { (fault : TreeFault) → self.old.reading.refusal ≡ Some fault → self.new.reading.refusal ≡ Some fault }
        ensures answers { MatchOption self.new.reading.refusal (result ≡ Ok tt) (λ fault. result ≡ Err (tree_fault fault)) }
        ensures fed { (bytes : List ℕ) → WasFed self.old bytes → WasFed self.new (bytes ++ piece.now) }
        ensures none { OnOk result (NoMarkWaits self.new.reading.state) }
    {
        match self.marks.feed(piece) {
            Ok(()) => Ok(()),
            Err(fault) => Err(told(fault)),
        }
    }

    /// How many items it holds so far: the variables, the rows, the goals with their costs, the costs of an `obj` that is
    /// open, and the entries and the lists of the matrix.
    pub fn numbers(&self) -> u64
        ensures is { result ≡ hearing.numbers self.now.course }
        ensures few { result ≤ 211009 }
    {
        match self.marks.reader() {
            Some(reader) => reader.numbers(),
            None => 0,
        }
    }

    /// The instance that the document which was fed stands for, or why it is none: what [`decode`](crate::decode)
    /// answers of its bytes, in whatever pieces they came.
    pub fn finish(self) -> Result<Instance, OsilFault>
        ensures again { (fault : TreeFault) → self.reading.refusal ≡ Some fault → result ≡ Err (tree_fault fault) }
        ensures ok { IfOk result (λ p. (bytes : List ℕ) → WasFed self bytes → IsInstanceText bytes p) }
        ensures err { IfErr result (λ fault. (bytes : List ℕ) → WasFed self bytes → DecodeFails bytes fault) }
    {
        match self.marks.finish() {
            Ok(Ok(reader)) => Ok(reader.instance()?),
            Ok(Err(Refused { refusal, at })) => Err(OsilFault::Refused { refusal, at }),
            Err(fault) => Err(told(fault)),
        }
    }
}
