//! Reads options mark by mark.

ghost use Rattle.std.specs.Prelude.{◌≡◌, ◌+◌, ◌<◌, ◌^◌, IfOk};
ghost use Rattle.document_tags.specs.Elements.{unless_empty};
ghost use Rattle.tag_tests.specs.declared.marks.Stop.TheVariants as stops;
ghost use Rattle.tag_tests.specs.Kinds.{StepsAs};
ghost use Rattle.osol_grammar.specs.declared.place.Place.TheVariants as places;
ghost use Rattle.tag_tests.specs.declared.places.Led.TheVariants as leading;
ghost use Rattle.tag_tests.specs.Places.{begins, ends};
ghost use Rattle.tag_tests.specs.Contents.{keeps_in};
ghost use Rattle.osol_grammar.specs.Table as table;
ghost use Rattle.osol_grammar.specs.Marked.{by_kinds};

use crate::amounts::{amount_of, is_gap, limit_of};
use crate::fault::Refusal;
use crate::gaps::gap_of;
use crate::options::Options;
use crate::place::{Place, around, leads};
use crate::times::{time_of, unit_of};
use crate::values::{index_of, value_of};
use decimal_text::trim;
use element_tree::Attributes;
use os_io::{Memory, Text};
use std::alloc::Global;
use tag_tests::{Led, MarkReader, Stop, led_from};

/// The most bytes of a job's name.
const MOST_OF_JOB: usize = 256;

/// How a mark is refused. `at` is the ordinal of the element.
#[derive(Drop)]
pub(crate) struct Refused {
    pub refusal: Refusal,
    pub at: u64,
}

/// What the marks so far leave: the element that is read and that they end in, how many elements are open in it that are
/// passed over, how many start tags there are, the ordinals of the `jobID` and of the `maxTime` (0 before each), the seconds of
/// the latter's unit, the characters in the one that stands last, and what is said.
#[derive(Drop)]
pub(crate) struct ParseState {
    pub place: Place,
    pub depth: u64,
    pub count: u64,
    pub job_at: u64,
    pub time_at: u64,
    pub unit: u32,
    pub text: Text,
    pub options: Options,
}

/// A copy of a text, none where it is empty.
fn copied(alloc: Global, text: &[u8]) -> Result<Option<Text>, Memory>
    ensures { IfOk result (λ t. t ≡ unless_empty text.now) }
{
    if text.is_empty() {
        return Ok(None);
    }
    Ok(Some(Text::from_slice(alloc, text)?))
}

impl ParseState {
    /// Before all marks.
    pub(crate) fn new(alloc: Global) -> Self
        ensures { result ≡ table.start }
    {
        ParseState {
            place: Place::Outside,
            depth: 0,
            count: 0,
            job_at: 0,
            time_at: 0,
            unit: 1,
            text: Text::new(alloc),
            options: Options::none(),
        }
    }

    /// The refusal of the element whose start tag comes.
    fn refused(&self, refusal: Refusal) -> Stop<Refused>
        requires { self.now.count + 1 < 2 ^ 64 }
        ensures { result ≡ stops.Refused (record { refusal = refusal; at = self.now.count + 1 }) }
    {
        Stop::Refused(Refused {
            refusal,
            at: self.count + 1,
        })
    }

    /// Goes into an element.
    fn go(&mut self, place: Place)
        requires { self.old.count + 1 < 2 ^ 64 }
        ensures { self.new ≡ table.into self.old place }
    {
        self.place = place;
        self.count += 1;
    }

    /// Goes past a start tag `jobID`.
    fn begin_job(&mut self, attributes: &Attributes<'_>) -> Result<(), Stop<Refused>>
        requires { self.old.count + 1 < 2 ^ 64 }
        ensures { StepsAs by_kinds self.old (begins (leading.To places.JobId) attributes.now) self.new result }
    {
        if self.job_at > 0 {
            return Err(self.refused(Refusal::JobTwice));
        }
        self.job_at = self.count + 1;
        self.text.truncate(0);
        self.go(Place::JobId);
        Ok(())
    }

    /// Goes past a start tag `maxTime`.
    fn begin_time(&mut self, attributes: &Attributes<'_>) -> Result<(), Stop<Refused>>
        requires { self.old.count + 1 < 2 ^ 64 }
        ensures { StepsAs by_kinds self.old (begins (leading.To places.MaxTime) attributes.now) self.new result }
    {
        if self.time_at > 0 {
            return Err(self.refused(Refusal::TimeTwice));
        }
        let Some(unit) = unit_of(attributes) else {
            return Err(self.refused(Refusal::BadUnit));
        };
        self.time_at = self.count + 1;
        self.unit = unit;
        self.text.truncate(0);
        self.go(Place::MaxTime);
        Ok(())
    }

    /// Goes past a start tag `var` of first values.
    fn begin_value(
        &mut self,
        alloc: Global,
        attributes: &Attributes<'_>,
    ) -> Result<(), Stop<Refused>>
        requires { self.old.count + 1 < 2 ^ 64 }
        ensures { StepsAs by_kinds self.old (begins (leading.To places.Var) attributes.now) self.new result }
    {
        let Some(index) = index_of(attributes) else {
            return Err(self.refused(Refusal::BadIndex));
        };
        if self.options.has_first(index) {
            return Err(self.refused(Refusal::IndexTwice));
        }
        let Some(value) = value_of(attributes) else {
            return Err(self.refused(Refusal::BadValue));
        };
        self.options.set_first(alloc, index, value)?;
        self.go(Place::Var);
        Ok(())
    }

    /// Goes past a start tag `solverOption`.
    fn begin_option(&mut self, attributes: &Attributes<'_>) -> Result<(), Stop<Refused>>
        requires { self.old.count + 1 < 2 ^ 64 }
        ensures { StepsAs by_kinds self.old (begins (leading.To places.SolverOption) attributes.now) self.new result }
    {
        if let Some(limit) = limit_of(attributes) {
            match amount_of(attributes, limit) {
                Some(amount) => self.options.set(limit, amount),
                None => return Err(self.refused(Refusal::BadLimit)),
            }
        } else if is_gap(attributes) {
            match gap_of(attributes) {
                Some(gap) => self.options.gap = Some(gap),
                None => return Err(self.refused(Refusal::BadGap)),
            }
        }
        self.go(Place::SolverOption);
        Ok(())
    }

    /// Goes past the start tag of an element that is passed over.
    fn go_over(&mut self, attributes: &Attributes<'_>) -> Result<(), Stop<Refused>>
        requires { self.old.count + 1 < 2 ^ 64 }
        ensures { StepsAs by_kinds self.old (begins leading.Over attributes.now) self.new result }
    {
        if self.depth == u64::MAX {
            return Err(Stop::Memory);
        }
        self.count += 1;
        self.depth += 1;
        Ok(())
    }

    /// Goes past a start tag that leads there.
    fn begin(
        &mut self,
        alloc: Global,
        led: Led<Place>,
        attributes: &Attributes<'_>,
    ) -> Result<(), Stop<Refused>>
        requires { self.old.count + 1 < 2 ^ 64 }
        ensures { StepsAs by_kinds self.old (begins led attributes.now) self.new result }
    {
        match led {
            Led::To(place) => match place {
                Place::JobId => self.begin_job(attributes),
                Place::MaxTime => self.begin_time(attributes),
                Place::Var => self.begin_value(alloc, attributes),
                Place::SolverOption => self.begin_option(attributes),
                Place::Outside
                | Place::Osol
                | Place::General
                | Place::Job
                | Place::Optimization
                | Place::Variables
                | Place::InitialValues
                | Place::SolverOptions => {
                    self.go(place);
                    Ok(())
                }
            },
            Led::OtherRoot => Err(self.refused(Refusal::Root)),
            Led::Over => self.go_over(attributes),
        }
    }

    /// Whether characters are kept.
    fn keeps_text(&self) -> bool
        ensures { result ≡ keeps_in table.is_text self.now.depth self.now.place }
    {
        self.depth == 0 && (self.place == Place::JobId || self.place == Place::MaxTime)
    }

    /// Goes past an end tag `jobID`.
    fn end_job(&mut self, alloc: Global) -> Result<(), Stop<Refused>>
        ensures { StepsAs by_kinds self.old (ends places.JobId) self.new result }
    {
        let name = trim(self.text.as_slice());
        if name.len() > MOST_OF_JOB {
            return Err(Stop::Refused(Refused {
                refusal: Refusal::LongJob,
                at: self.job_at,
            }));
        }
        let job = copied(alloc, name)?;
        self.options.job = job;
        self.place = Place::General;
        Ok(())
    }

    /// Goes past an end tag `maxTime`.
    fn end_time(&mut self) -> Result<(), Stop<Refused>>
        ensures { StepsAs by_kinds self.old (ends places.MaxTime) self.new result }
    {
        let Some(seconds) = time_of(self.text.as_slice(), self.unit) else {
            return Err(Stop::Refused(Refused {
                refusal: Refusal::BadTime,
                at: self.time_at,
            }));
        };
        self.options.seconds = Some(seconds);
        self.place = Place::Job;
        Ok(())
    }

    /// Goes past an end tag of such an element.
    fn end(&mut self, alloc: Global, place: Place) -> Result<(), Stop<Refused>>
        ensures { StepsAs by_kinds self.old (ends place) self.new result }
    {
        match place {
            Place::JobId => self.end_job(alloc),
            Place::MaxTime => self.end_time(),
            Place::Outside
            | Place::Osol
            | Place::General
            | Place::Job
            | Place::Optimization
            | Place::Variables
            | Place::InitialValues
            | Place::Var
            | Place::SolverOptions
            | Place::SolverOption => {
                self.place = around(place);
                Ok(())
            }
        }
    }
}

impl MarkReader<Refused> for ParseState {
    ghost use Rattle.tag_tests.specs.Forms.{AreTaken, AreRefused};
    ghost use Rattle.tag_tests.proofs.Forms.{taken_both, refused_behind, refused_more};
    ghost use Rattle.std.proofs.Common.{refl};
    ghost use Rattle.osol_grammar.specs.Marked.{osol};

    ghost took = { λ s ms z. AreTaken osol s ms z };

    ghost refuses = { λ s ms r. AreRefused osol s ms r };

    ghost took_none = { λ s. refl };

    ghost took_both = { λ s m z ms ns p q. taken_both osol s m z ms ns p q };

    ghost refuses_behind = { λ s m ms ns r p q. refused_behind osol s m ms ns r p q };

    ghost refuses_more = { λ s ms ns r p. refused_more osol s ms ns r p };

    fn enter(
        &mut self,
        alloc: Global,
        name: &[u8],
        attributes: &Attributes<'_>,
    ) -> Result<(), Stop<Refused>> {
        if self.count == u64::MAX {
            return Err(Stop::Memory);
        }
        let led = led_from(self.depth, leads(self.place, name));
        self.begin(alloc, led, attributes)
    }

    fn chars(&mut self, _alloc: Global, text: &[u8]) -> Result<(), Stop<Refused>> {
        if !self.keeps_text() {
            return Ok(());
        }
        self.text.extend(text)?;
        Ok(())
    }

    fn close(&mut self, alloc: Global, _name: &[u8]) -> Result<(), Stop<Refused>> {
        if self.depth > 0 {
            self.depth -= 1;
            return Ok(());
        }
        self.end(alloc, self.place)
    }
}
