//! Documents that readers of marks read, in pieces or whole.

ghost use Rattle.std.specs.Prelude.{◌≡◌, ◌⊎◌, ◌++◌, [], List, ℕ, None, Some, Ok, Err, OnOk, IfOk, IfErr, MatchOption};
ghost use Rattle.std.specs.Option.{option_copied};
ghost use Rattle.doc_tree.specs.declared.fault.TreeFault.{TreeFault};
ghost use Rattle.doc_tree.specs.declared.fault.TreeFault.TheVariants.{Memory};
ghost use Rattle.doc_tree.specs.Relieved.{NoMarkWaits};
ghost use Rattle.document_tags.specs.Documents.{OfDocument, TreeFails};
ghost use Rattle.tag_tests.specs.Readers.{IsKept, IsReader, WasFed, Reads};

use crate::marks::{MarkReader, Stop};
use doc_tree::{Events, TreeFault, Visitor};
use element_tree::Attributes;
use os_io::{MOST_BYTES, Memory as NoMemory};
use std::alloc::{AllocError, Global};
use std::marker::Model;

/// What one has come to who is told of a document's marks. Behind a refusal nothing of what was read is held.
#[derive(Drop)]
pub enum Course<S, R> {
    /// All marks so far were taken, and left this.
    Going(S),
    /// One was refused so.
    Stopped(R),
    /// There was no memory.
    Lost,
}

/// One who tells a reader of a document's marks, until one is refused. Then it hears on, since a tree's refusal comes first.
#[derive(Drop)]
struct Listener<R, S> {
    alloc: Global,
    course: Course<S, R>,
}

/// Keeps why a mark isn't taken.
fn stop<R: Drop, S: Drop>(course: &mut Course<S, R>, why: Stop<R>) -> Result<(), NoMemory>
    ensures { IsKept {X = Unit {0}} (Err why) course.old course.new result }
{
    match why {
        Stop::Refused(r) => {
            *course = Course::Stopped(r);
            Ok(())
        }
        Stop::Memory => {
            *course = Course::Lost;
            Err(AllocError)
        }
    }
}

/// Keeps what marks came to. Most are taken: what the others need stands apart, so that it costs those nothing.
fn keep<R: Drop, S: Drop>(
    course: &mut Course<S, R>,
    step: Result<(), Stop<R>>,
) -> Result<(), NoMemory>
    ensures { IsKept step course.old course.new result }
{
    match step {
        Ok(()) => Ok(()),
        Err(why) => stop(course, why),
    }
}

impl<R: Drop, S: MarkReader<R> + Drop> Visitor for Listener<R, S> {
    ghost use Rattle.tag_tests.specs.Readers.{HearsBy};
    ghost use Rattle.tag_tests.specs.Heard.{hears_none, hears_both};

    ghost had = { λ u v ms. HearsBy S.took S.refuses u.course v.course ms };

    ghost stays = { λ v. hears_none S.took S.refuses S.took_none v.course };

    ghost joined = { λ u v w first second. hears_both S.took S.refuses S.took_both S.refuses_behind S.refuses_more u.course v.course w.course first second };

    fn enter(&mut self, name: &[u8], attributes: &Attributes<'_>) -> Result<(), NoMemory> {
        let Course::Going(reader) = &mut self.course else {
            return Ok(());
        };
        let step = reader.enter(self.alloc, name, attributes);
        keep(&mut self.course, step)
    }

    fn chars(&mut self, text: &[u8]) -> Result<(), NoMemory> {
        let Course::Going(reader) = &mut self.course else {
            return Ok(());
        };
        let step = reader.chars(self.alloc, text);
        keep(&mut self.course, step)
    }

    fn close(&mut self, name: &[u8]) -> Result<(), NoMemory> {
        let Course::Going(reader) = &mut self.course else {
            return Ok(());
        };
        let step = reader.close(self.alloc, name);
        keep(&mut self.course, step)
    }
}

/// Has a reader of marks read a document of at most [`MOST_BYTES`] bytes and of a depth of at most 32 that comes in pieces.
///
/// Contracts say which bytes it was fed (`WasFed`), and why it takes no more, if it doesn't.
#[derive(Drop)]
pub struct Decoder<R, S> {
    events: Events<Listener<R, S>>,
}

impl<R, S> Model for Decoder<R, S> {
    ghost use Rattle.tag_tests.specs.Readers.{Decoding};

    ghost Value = { Decoding S R };

    ghost view = { λ d. record { reading = d.events.reading; course = d.events.visitor.course } };
}

impl<R: Drop, S: MarkReader<R> + Drop> Decoder<R, S> {
    /// One that was fed nothing.
    pub fn new(alloc: Global, reader: S) -> Self
        ensures fed { WasFed S.took S.refuses reader result [] }
        ensures refusal { result.reading.refusal ≡ None }
    {
        let listener = Listener {
            alloc,
            course: Course::Going(reader),
        };
        Decoder {
            events: Events::new(alloc, MOST_BYTES, listener),
        }
    }

    /// Reads the next piece. It answers only a tree's refusal, with the piece that has the byte which decides it, or
    /// want of memory, and each later call answers it again. Behind the piece no mark waits for the reader, unless it ends
    /// within a start tag behind an attribute.
    pub fn feed(&mut self, piece: &[u8]) -> Result<(), TreeFault>
        ensures stays { (fault : TreeFault) → self.old.reading.refusal ≡ Some fault → self.new.reading.refusal ≡ Some fault }
        ensures answers { MatchOption self.new.reading.refusal (result ≡ Ok tt) (λ fault. result ≡ Err fault) }
        ensures fed { (first : S) (bytes : List ℕ) → WasFed S.took S.refuses first self.old bytes → WasFed S.took S.refuses first self.new (bytes ++ piece.now) }
        ensures none { OnOk result (NoMarkWaits self.new.reading.state) }
    {
        self.events.feed(piece)
    }

    /// The reader as the marks so far leave it, if none was refused.
    pub fn reader(&self) -> Option<&S>
        ensures { IsReader self.now.course (option_copied result) }
    {
        match &self.events.visitor().course {
            Course::Going(reader) => Some(reader),
            Course::Stopped(_) | Course::Lost => None,
        }
    }

    /// The reader as the document that was fed leaves it, or how it refuses it, or why the bytes are no document.
    pub fn finish(self) -> Result<Result<S, R>, TreeFault>
        ensures again { (fault : TreeFault) → self.reading.refusal ≡ Some fault → result ≡ Err fault }
        ensures ok { IfOk result (λ r. (first : S) (bytes : List ℕ) → WasFed S.took S.refuses first self bytes → OfDocument (Reads S.took S.refuses first) bytes r) }
        ensures err { IfErr result (λ f. (first : S) (bytes : List ℕ) → WasFed S.took S.refuses first self bytes → (f ≡ Memory) ⊎ TreeFails bytes f) }
    {
        match self.events.finish() {
            Ok(Listener { course, .. }) => match course {
                Course::Going(reader) => Ok(Ok(reader)),
                Course::Stopped(refused) => Ok(Err(refused)),
                Course::Lost => Err(TreeFault::Memory),
            },
            Err(fault) => Err(fault),
        }
    }
}

/// The reader as a document of at most [`MOST_BYTES`] bytes and of a depth of at most 32 leaves it, or how it refuses it, or
/// why the bytes are none.
pub fn read_marks<R: Drop, S: MarkReader<R> + Drop>(
    alloc: Global,
    bytes: &[u8],
    reader: S,
) -> Result<Result<S, R>, TreeFault>
    ensures ok { IfOk result (OfDocument (Reads S.took S.refuses reader) bytes.now) }
    ensures err { IfErr result (λ f. (f ≡ Memory) ⊎ TreeFails bytes.now f) }
{
    let mut decoder = Decoder::new(alloc, reader);
    // what is refused here is told again in the end
    let _ = decoder.feed(bytes);
    decoder.finish()
}
