//! Reads a process mark by mark.

ghost use Rattle.std.specs.Prelude.{◌≡◌, ◌<◌, ◌^◌, codes, IfOk};
ghost use Rattle.document_tags.specs.Elements.{value_of};
ghost use Rattle.document_tags.specs.OneChild.{IsOnly};
ghost use Rattle.decimal_text.specs.Count.{IsCount};
ghost use Rattle.tag_tests.specs.Kinds.{StepsAs};
ghost use Rattle.ospl_grammar.specs.declared.place.Place.TheVariants as places;
ghost use Rattle.tag_tests.specs.declared.places.Led.TheVariants as leading;
ghost use Rattle.tag_tests.specs.Places.{begins, ends};
ghost use Rattle.tag_tests.specs.Contents.{keeps_in};
ghost use Rattle.ospl_grammar.specs.Table as table;
ghost use Rattle.ospl_grammar.specs.Marked.{by_kinds};

use crate::parts::Parts;
use crate::place::{Place, around, leads};
use crate::process::Process;
use crate::words::{busy_of, state_of};
use decimal_text::read_count;
use element_tree::Attributes;
use os_io::{Memory, Text};
use std::alloc::Global;
use std::mem;
use tag_tests::{Led, MarkReader, Stop, led_from, value};

/// What the marks so far leave: the element that is read and that they end in, how many elements are open in it that are
/// passed over, the characters in it that are kept, what statistics have said that are read, what the first request asks,
/// and the first statistics that were whole.
pub(crate) struct ParseState {
    pub place: Place,
    pub depth: u64,
    pub text: Text,
    pub parts: Parts,
    pub asked: Option<Text>,
    pub told: Option<Process>,
}

impl Drop for ParseState {
    // By hand, as for the parts, so that letting one go is a call. What is derived would be taken apart wherever one is let go.
    fn drop(self) {
        let ParseState {
            place: _,
            depth: _,
            text: _,
            parts: _,
            asked: _,
            told: _,
        } = self;
    }
}

/// What a request asks.
fn action_of(alloc: Global, attributes: &Attributes<'_>) -> Result<Text, Memory>
    ensures { IfOk result (λ t. t ≡ table.action attributes.now) }
{
    match value(attributes, b"action") {
        Some(action) => Text::from_slice(alloc, action),
        None => Ok(Text::new(alloc)),
    }
}

/// The name of a job, if it has one.
fn job_id(alloc: Global, attributes: &Attributes<'_>) -> Result<Option<Text>, Memory>
    ensures { IfOk result (λ id. id ≡ value_of (codes "jobID") attributes.now) }
{
    match value(attributes, b"jobID") {
        Some(id) => Ok(Some(Text::from_slice(alloc, id)?)),
        None => Ok(None),
    }
}

/// How many numbers were given, if a text says that.
fn total_of(text: &Text) -> Option<u64>
    ensures { IsOnly (λ n. IsCount text.now n) result }
{
    read_count(text.as_slice()).ok()
}

/// How many jobs wait or run, if a text says that.
fn current_of(text: &Text) -> Option<u32>
    ensures { IsOnly (λ n. IsCount text.now n × (n < 2 ^ 32)) result }
{
    let number = read_count(text.as_slice()).ok()?;
    if number > u64::from(u32::MAX) {
        return None;
    }
    Some(number as u32)
}

impl ParseState {
    /// Before all marks.
    pub(crate) fn new(alloc: Global) -> Self
        ensures { result ≡ table.start }
    {
        ParseState {
            place: Place::Outside,
            depth: 0,
            text: Text::new(alloc),
            parts: Parts::none(alloc),
            asked: None,
            told: None,
        }
    }

    /// Goes past a start tag `request`.
    fn begin_request(&mut self, alloc: Global, attributes: &Attributes<'_>) -> Result<(), Stop<()>>
        ensures { StepsAs by_kinds self.old (begins (leading.To places.Request) attributes.now) self.new result }
    {
        if self.asked.is_none() {
            let action = action_of(alloc, attributes)?;
            self.asked = Some(action);
        }
        self.place = Place::Request;
        Ok(())
    }

    /// Goes past a start tag `job`.
    fn begin_job(&mut self, alloc: Global, attributes: &Attributes<'_>) -> Result<(), Stop<()>>
        ensures { StepsAs by_kinds self.old (begins (leading.To places.Job) attributes.now) self.new result }
    {
        let id = job_id(alloc, attributes)?;
        self.parts.id = id;
        self.place = Place::Job;
        Ok(())
    }

    /// Goes past the start tag of an element that is passed over.
    fn go_over(&mut self, attributes: &Attributes<'_>) -> Result<(), Stop<()>>
        ensures { StepsAs by_kinds self.old (begins leading.Over attributes.now) self.new result }
    {
        if self.depth == u64::MAX {
            return Err(Stop::Memory);
        }
        self.depth += 1;
        Ok(())
    }

    /// Goes past a start tag that leads there.
    fn begin(
        &mut self,
        alloc: Global,
        led: Led<Place>,
        attributes: &Attributes<'_>,
    ) -> Result<(), Stop<()>>
        ensures { StepsAs by_kinds self.old (begins led attributes.now) self.new result }
    {
        match led {
            Led::To(place) => match place {
                Place::Request => self.begin_request(alloc, attributes),
                Place::Job => self.begin_job(alloc, attributes),
                Place::Jobs => {
                    self.parts.begin_list();
                    self.place = place;
                    Ok(())
                }
                Place::Outside
                | Place::Ospl
                | Place::Header
                | Place::Data
                | Place::Statistics
                | Place::CurrentState
                | Place::CurrentCount
                | Place::Total
                | Place::State => {
                    self.place = place;
                    Ok(())
                }
            },
            Led::OtherRoot => Err(Stop::Refused(())),
            Led::Over => self.go_over(attributes),
        }
    }

    /// Whether characters are kept.
    fn keeps(&self) -> bool
        ensures { result ≡ keeps_in table.is_text self.now.depth self.now.place }
    {
        if self.depth > 0 {
            return false;
        }
        match self.place {
            Place::CurrentState | Place::CurrentCount | Place::Total | Place::State => true,
            Place::Outside
            | Place::Ospl
            | Place::Header
            | Place::Request
            | Place::Data
            | Place::Statistics
            | Place::Jobs
            | Place::Job => false,
        }
    }

    /// Goes out of an element whose characters were kept.
    fn pass(&mut self, alloc: Global, place: Place)
        ensures { self.new ≡ table.past self.old place }
    {
        self.text = Text::new(alloc);
        self.place = around(place);
    }

    /// Goes past an end tag `statistics`.
    fn end_statistics(&mut self, alloc: Global)
        ensures { table.Ends self.old places.Statistics self.new }
    {
        let parts = mem::replace(&mut self.parts, Parts::none(alloc));
        if self.told.is_none() {
            self.told = parts.whole();
        }
        self.place = Place::Data;
    }

    /// Goes past an end tag of such an element.
    fn end(&mut self, alloc: Global, place: Place) -> Result<(), Stop<()>>
        ensures { StepsAs by_kinds self.old (ends place) self.new result }
    {
        match place {
            Place::CurrentState => {
                self.parts.add_busy(busy_of(self.text.as_slice()));
                self.pass(alloc, place);
            }
            Place::CurrentCount => {
                self.parts.add_current(current_of(&self.text));
                self.pass(alloc, place);
            }
            Place::Total => {
                self.parts.add_total(total_of(&self.text));
                self.pass(alloc, place);
            }
            Place::State => {
                self.parts.add_state(state_of(self.text.as_slice()));
                self.pass(alloc, place);
            }
            Place::Job => {
                self.parts.add_job()?;
                self.place = Place::Jobs;
            }
            Place::Statistics => self.end_statistics(alloc),
            Place::Outside
            | Place::Ospl
            | Place::Header
            | Place::Request
            | Place::Data
            | Place::Jobs => self.place = around(place),
        }
        Ok(())
    }
}

impl MarkReader<()> for ParseState {
    ghost use Rattle.tag_tests.specs.Forms.{AreTaken, AreRefused};
    ghost use Rattle.tag_tests.proofs.Forms.{taken_both, refused_behind, refused_more};
    ghost use Rattle.std.proofs.Common.{refl};
    ghost use Rattle.ospl_grammar.specs.Marked.{ospl};

    ghost took = { λ s ms z. AreTaken ospl s ms z };

    ghost refuses = { λ s ms r. AreRefused ospl s ms r };

    ghost took_none = { λ s. refl };

    ghost took_both = { λ s m z ms ns p q. taken_both ospl s m z ms ns p q };

    ghost refuses_behind = { λ s m ms ns r p q. refused_behind ospl s m ms ns r p q };

    ghost refuses_more = { λ s ms ns r p. refused_more ospl s ms ns r p };

    fn enter(
        &mut self,
        alloc: Global,
        name: &[u8],
        attributes: &Attributes<'_>,
    ) -> Result<(), Stop<()>> {
        let led = led_from(self.depth, leads(self.place, name));
        self.begin(alloc, led, attributes)
    }

    fn chars(&mut self, _alloc: Global, text: &[u8]) -> Result<(), Stop<()>> {
        if !self.keeps() {
            return Ok(());
        }
        self.text.extend(text)?;
        Ok(())
    }

    fn close(&mut self, alloc: Global, _name: &[u8]) -> Result<(), Stop<()>> {
        if self.depth > 0 {
            self.depth -= 1;
            return Ok(());
        }
        self.end(alloc, self.place)
    }
}
