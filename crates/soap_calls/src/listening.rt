//! Hears of a call's envelope as its bytes come.

ghost use Rattle.std.specs.Prelude.{◌≡◌, ◌++◌, [], List, ℕ, None, Some, Err, IfOk, IfErr};
ghost use Rattle.doc_tree.specs.Reading.{ReadingFails};
ghost use Rattle.doc_tree.specs.declared.fault.TreeFault.{TreeFault};
ghost use Rattle.document_tags.specs.Documents.{OfDocument};
ghost use Rattle.document_tags.specs.Texts.{document_limit};
ghost use Rattle.soap_calls.specs.Leaving.{WasHeard, FindsIn};

use crate::parse_state::{Found, ParseState};
use doc_tree::{Events, TreeFault, Visitor};
use element_tree::Attributes;
use os_io::{MOST_BYTES, Memory};
use std::alloc::Global;
use std::marker::Model;

/// One who is told of an envelope, and keeps what its marks leave.
#[derive(Drop)]
struct Listener {
    alloc: Global,
    parse_state: ParseState,
}

impl Visitor for Listener {
    ghost use Rattle.mark_folds.specs.Folds.{folds_none, folds_both};
    ghost use Rattle.soap_calls.specs.Leaving.{Leaves};
    ghost use Rattle.soap_calls.specs.Marked.{left_by};

    ghost had = { λ u v ms. Leaves u.parse_state v.parse_state ms };

    ghost stays = { λ v. folds_none left_by v.parse_state };

    ghost joined = { λ u v w first second. folds_both left_by u.parse_state v.parse_state w.parse_state first second };

    fn enter(&mut self, name: &[u8], _attributes: &Attributes<'_>) -> Result<(), Memory> {
        self.parse_state.enter(self.alloc, name)
    }

    fn chars(&mut self, text: &[u8]) -> Result<(), Memory> {
        self.parse_state.say(text)
    }

    fn close(&mut self, _name: &[u8]) -> Result<(), Memory> {
        self.parse_state.end();
        Ok(())
    }
}

/// Reads an envelope in pieces. Of it what its marks leave is held, and of a piece nothing behind it but a tag that isn't whole.
#[derive(Drop)]
pub(crate) struct EnvelopeReader {
    events: Events<Listener>,
}

impl Model for EnvelopeReader {
    ghost use Rattle.soap_calls.specs.Listening.{Listening, listening};

    ghost Value = { Listening };

    ghost view = { λ r. listening r.events.reading r.events.visitor.parse_state };
}

impl EnvelopeReader {
    /// One that was fed nothing.
    pub(crate) fn new(alloc: Global) -> Self
        ensures fed { WasHeard result [] }
        ensures refusal { result.refusal ≡ None }
    {
        let listener = Listener {
            alloc,
            parse_state: ParseState::new(),
        };
        EnvelopeReader {
            events: Events::new(alloc, MOST_BYTES, listener),
        }
    }

    /// Reads the next piece. What refuses it, or want of memory, is told in the end.
    pub(crate) fn feed(&mut self, piece: &[u8])
        ensures stays { (fault : TreeFault) → self.old.refusal ≡ Some fault → self.new.refusal ≡ Some fault }
        ensures fed { (bytes : List ℕ) → WasHeard self.old bytes → WasHeard self.new (bytes ++ piece.now) }
    {
        let _ = self.events.feed(piece);
    }

    /// What was found in the envelope that was fed, or why the bytes are no document.
    pub(crate) fn finish(self) -> Result<Found, TreeFault>
        ensures again { (fault : TreeFault) → self.refusal ≡ Some fault → result ≡ Err fault }
        ensures finds { IfOk result (λ found. (bytes : List ℕ) → WasHeard self bytes → OfDocument FindsIn bytes found) }
        ensures fails { IfErr result (λ fault. (bytes : List ℕ) → WasHeard self bytes → ReadingFails document_limit bytes fault) }
    {
        match self.events.finish() {
            Ok(Listener { parse_state, .. }) => Ok(parse_state.found),
            Err(fault) => Err(fault),
        }
    }
}
