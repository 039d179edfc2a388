//! Reads a result document mark by mark.

ghost use Rattle.std.specs.Prelude.{◌≡◌, ◌↔◌, ◌+◌, ◌<◌, ◌^◌, ◌&&◌, ◌||◌, true, IsTrue, IsFalse, IfOk, OnOk, None, Some, List, ℕ, cond, bytes_eq, codes, option_map, option_and_then};
ghost use Rattle.doc_tree.specs.Marks.{Start, Finish};
ghost use Rattle.tag_tests.specs.Readers.{StepsBy};
ghost use Rattle.osrl_grammar.specs.declared.elements.Place.TheVariants as places;
ghost use Rattle.osrl_grammar.specs.ParseState as parse_state;
ghost use Rattle.osrl_grammar.specs.Saying as saying;
ghost use Rattle.osrl_grammar.specs.Table as table;
ghost use Rattle.osrl_grammar.specs.Words.{worded, all_statuses, all_claimings};
ghost use Rattle.osrl_writing.specs.Words.{status_text, claiming_text};
ghost use Rattle.osrl_writing.specs.declared.parts.Part.{Part};
ghost use Rattle.osrl_grammar.specs.Items as items;
ghost use Rattle.osrl_grammar.specs.Adding as adding;
ghost use Rattle.osrl_grammar.specs.Adding.{noted, with_read, AfterItem};
ghost use Rattle.osrl_grammar.specs.Leaving as leaving;
ghost use Rattle.osrl_grammar.specs.Marked.{osrl};
ghost use Rattle.osrl_grammar.specs.Stepping.{as_held, EndsAt, AreCounted};

use crate::elements::{Place, leads, outer};
use crate::fault::OsrlFault;
use crate::held::Held;
use crate::item_reading::is_level;
use crate::parts::{BadItem, Misread};
use crate::words::with_word;
use certificate::Claim;
use decimal_text::trim;
use element_tree::Attributes;
use os_io::Text;
use osrl_writing::{Claiming, JobStatus, Part, Report};
use std::alloc::{AllocError, Global};
use std::marker::Model;
use std::mem;
use tag_tests::{Led, MarkReader, Stop, led_from, value};

/// All that a job's status says.
const STATUSES: [JobStatus; 6] = [
    JobStatus::Unknown,
    JobStatus::Issued,
    JobStatus::Waiting,
    JobStatus::Running,
    JobStatus::Killed,
    JobStatus::Finished,
];

/// All that a solution's status claims.
const CLAIMINGS: [Claiming; 5] = [
    Claiming::Optimal,
    Claiming::Infeasible,
    Claiming::Unbounded,
    Claiming::BestSoFar,
    Claiming::Unsure,
];

/// What the marks so far leave. It holds no element, and no more than what they say.
pub(crate) struct ParseState {
    alloc: Global,
    place: Place,
    depth: u64,
    count: u64,
    text: Vec<u8>,
    general: Option<Text>,
    job: Option<Text>,
    message: Option<Text>,
    status: Option<Text>,
    claiming: Option<Text>,
    has_solution: bool,
    twice: bool,
    level: Option<u64>,
    bad: Option<BadItem>,
    held: Held,
    report: Report,
}

impl Drop for ParseState {
    // By hand, as for all types here that have lists or texts, so that letting one go is a call. What is derived would be taken apart wherever one is let go.
    fn drop(self) {
        let ParseState {
            alloc: _,
            place: _,
            depth: _,
            count: _,
            text: _,
            general: _,
            job: _,
            message: _,
            status: _,
            claiming: _,
            has_solution: _,
            twice: _,
            level: _,
            bad: _,
            held: _,
            report: _,
        } = self;
    }
}

impl Model for ParseState {
    ghost use Rattle.osrl_grammar.specs.ParseState.{State};

    ghost Value = { State };

    ghost view = { λ d. record {
      place = d.place;
      depth = d.depth;
      count = d.count;
      text = d.text.items;
      general = d.general;
      job = d.job;
      message = d.message;
      status = d.status;
      claiming = d.claiming;
      has_solution = d.has_solution;
      twice = d.twice;
      level = d.level;
      bad = d.bad;
      held = d.held;
      report = d.report;
    } };
}

/// What is reported before the root has ended: nothing.
fn nothing_said() -> Report
    ensures { result ≡ parse_state.nothing_said }
{
    Report {
        error: false,
        job: None,
        message: None,
        status: JobStatus::Unknown,
        claim: None,
    }
}

/// Whether one of the two is so.
fn either(a: bool, b: bool) -> bool
    ensures { result ≡ a || b }
{
    if a { true } else { b }
}

/// Keeps a text, unless one of its kind was kept before.
fn keep_first(alloc: Global, kept: &mut Option<Text>, text: &[u8]) -> Result<(), AllocError>
    ensures { OnOk result (kept.new ≡ leaving.first kept.old text.now) }
{
    if kept.is_some() {
        return Ok(());
    }
    *kept = Some(Text::from_slice(alloc, text)?);
    Ok(())
}

/// The type that a start tag says, empty where it says none.
fn type_of<'a>(attributes: &'a Attributes<'_>) -> &'a [u8]
    ensures { result.now ≡ saying.type_of attributes.now }
{
    match value(attributes, b"type") {
        Some(kind) => kind,
        None => b"",
    }
}

/// Whether a general status is that of an error, if there is one.
fn is_error(kind: &Option<Text>) -> Option<bool>
    ensures { result ≡ option_map (λ t. bytes_eq t (codes "error")) kind.now }
{
    match kind {
        Some(kind) => Some(kind.as_slice() == b"error".as_slice()),
        None => None,
    }
}

/// The status of this word, if there is one.
fn status_of(word: &Option<Text>) -> Option<JobStatus>
    ensures { result ≡ option_and_then (worded status_text all_statuses) word.now }
{
    match word {
        Some(word) => with_word(word.as_slice(), &STATUSES),
        None => None,
    }
}

/// What this word says that a solution claims, if it says that.
fn claiming_of(word: &Option<Text>) -> Option<Claiming>
    ensures { result ≡ option_and_then (worded claiming_text all_claimings) word.now }
{
    match word {
        Some(word) => with_word(word.as_slice(), &CLAIMINGS),
        None => None,
    }
}

/// Whether what is claimed so speaks of one level: that no point is feasible, or what is left of a search, with a bound.
fn is_of_one_level(bounded: bool, claiming: Option<Claiming>) -> bool
    ensures { result ≡ saying.is_of_one_level bounded claiming }
{
    match claiming {
        Some(Claiming::Infeasible) => true,
        Some(Claiming::BestSoFar | Claiming::Unsure) => bounded,
        Some(Claiming::Optimal | Claiming::Unbounded) | None => false,
    }
}

/// Whether a solution with such a status speaks of one level; where there is no status so far, as is said.
fn has_one_level(unknown: bool, bounded: bool, word: &Option<Text>) -> bool
    ensures { result ≡ saying.has_one_level unknown bounded word.now }
{
    match word {
        Some(word) => is_of_one_level(bounded, with_word(word.as_slice(), &CLAIMINGS)),
        None => unknown,
    }
}

/// Whether an item begins with the word of a level, where its solution may speak of one level.
fn may_begin(claiming: &Option<Text>, part: Part, text: &[u8]) -> bool
    ensures { result ≡ saying.has_one_level true true claiming.now && items.is_level part text.now }
{
    if is_level(part, text) {
        has_one_level(true, true, claiming)
    } else {
        false
    }
}

/// The number of the first such item: this one's, where it is one and there was none.
fn first_level(begins: bool, level: Option<u64>, number: u64) -> Option<u64>
    ensures { result ≡ adding.first_level begins level number }
{
    match level {
        None if begins => Some(number),
        _ => level,
    }
}

/// The item of this number, as one that isn't of its shape; or the other, where there is no number.
fn level_or(level: Option<u64>, bad: Option<BadItem>) -> Option<BadItem>
    ensures { result ≡ saying.level_or level bad }
{
    match level {
        Some(number) => Some(BadItem {
            misread: Misread::NoShape,
            number,
        }),
        None => bad,
    }
}

/// The claim of a solution with such a status, if all parts are there that it needs.
fn claim_with_status(
    alloc: Global,
    held: Held,
    word: &Option<Text>,
) -> Result<Option<Claim>, AllocError>
    ensures { IfOk result (λ c. c ≡ option_and_then (saying.claim_as held) (option_and_then (worded claiming_text all_claimings) word.now)) }
{
    match claiming_of(word) {
        Some(claiming) => held.claim(alloc, claiming),
        None => Ok(None),
    }
}

/// What is claimed: nothing where there is no solution.
fn claimed(
    alloc: Global,
    has_solution: bool,
    held: Held,
    word: &Option<Text>,
) -> Result<Option<Option<Claim>>, AllocError>
    ensures { IfOk result (λ c. c ≡ cond has_solution (option_map Some (option_and_then (saying.claim_as held) (option_and_then (worded claiming_text all_claimings) word.now))) (Some None)) }
{
    if !has_solution {
        return Ok(Some(None));
    }
    match claim_with_status(alloc, held, word)? {
        Some(claim) => Ok(Some(Some(claim))),
        None => Ok(None),
    }
}

/// What is reported, if all parts are there that it needs.
fn reported(
    general: &Option<Text>,
    job: Option<Text>,
    message: Option<Text>,
    status: Option<JobStatus>,
    claim: Option<Option<Claim>>,
) -> Option<Report>
    ensures { result ≡ saying.report_with general.now job message status claim }
{
    let error = is_error(general)?;
    let status = status?;
    let claim = claim?;
    Some(Report {
        error,
        job,
        message,
        status,
        claim,
    })
}

/// A text that is there and isn't empty.
fn nonempty(text: Option<Text>) -> Option<Text>
    ensures { result ≡ saying.nonempty text }
{
    let text = text?;
    if text.as_slice().is_empty() {
        None
    } else {
        Some(text)
    }
}

/// How an item that isn't read is refused.
fn refusal(bad: BadItem) -> OsrlFault
    ensures { result ≡ table.refusal_of (Some bad) }
{
    let n = bad.number;
    match bad.misread {
        Misread::NoShape => OsrlFault::Item { n },
        Misread::NoNumber => OsrlFault::Number { n },
        Misread::TooGreat => OsrlFault::Wide { n },
    }
}

impl ParseState {
    /// Before all marks.
    pub(crate) fn new(alloc: Global) -> Self
        ensures { result ≡ parse_state.start }
    {
        ParseState {
            alloc,
            place: Place::Outside,
            depth: 0,
            count: 0,
            text: Vec::new(alloc),
            general: None,
            job: None,
            message: None,
            status: None,
            claiming: None,
            has_solution: false,
            twice: false,
            level: None,
            bad: None,
            held: Held::new(alloc),
            report: nothing_said(),
        }
    }

    /// Goes past a start tag that leads there.
    fn begin(&mut self, place: Place, attributes: &Attributes<'_>) -> Result<(), AllocError>
        requires { self.old.count + 1 < 2 ^ 64 }
        ensures { OnOk result (self.new ≡ leaving.begun self.old attributes.now place) }
    {
        self.place = place;
        self.text.clear();
        match place {
            Place::GeneralStatus => keep_first(self.alloc, &mut self.general, type_of(attributes)),
            Place::SolutionStatus => {
                keep_first(self.alloc, &mut self.claiming, type_of(attributes))
            }
            Place::Solution => {
                self.twice = either(self.has_solution, self.twice);
                self.has_solution = true;
                Ok(())
            }
            Place::Result(part) => {
                self.twice = either(self.held.has(part), self.twice);
                self.held.begin(part);
                Ok(())
            }
            Place::Item(_) => {
                self.count += 1;
                Ok(())
            }
            _ => Ok(()),
        }
    }

    /// Goes past a start tag.
    fn go_in(&mut self, name: &[u8], attributes: &Attributes<'_>) -> Result<(), Stop<OsrlFault>>
        requires count { self.old.count + 1 < 2 ^ 64 }
        requires depth { self.old.depth + 1 < 2 ^ 64 }
        ensures { StepsBy osrl self.old (Start name.now attributes.now) self.new result }
    {
        match led_from(self.depth, leads(self.place, name, attributes)) {
            Led::To(place) => {
                self.begin(place, attributes)?;
                Ok(())
            }
            Led::Over => {
                self.depth += 1;
                Ok(())
            }
            Led::OtherRoot => Err(Stop::Refused(OsrlFault::Root)),
        }
    }

    /// Whether characters are kept.
    fn keeps(&self) -> bool
        ensures { result ≡ leaving.keeps self.now.depth self.now.place }
    {
        if self.depth > 0 {
            return false;
        }
        match self.place {
            Place::JobId | Place::Message | Place::JobStatus | Place::Item(_) => true,
            Place::Outside
            | Place::Osrl
            | Place::General
            | Place::GeneralStatus
            | Place::Job
            | Place::Optimization
            | Place::Solution
            | Place::SolutionStatus
            | Place::Results
            | Place::Result(_) => false,
        }
    }

    /// Keeps in mind which item is the first that begins with the word of a level, where the solution may speak of one level.
    fn note_level(&mut self, part: Part)
        ensures { self.new ≡ noted self.old part }
    {
        let begins = may_begin(&self.claiming, part, self.text.as_slice());
        self.level = first_level(begins, self.level, self.count);
    }

    /// Keeps what was read of an item, or that it isn't read; then no item is held any more.
    fn keep_read(&mut self, read: Result<(), Misread>)
        ensures { self.new ≡ with_read self.old (as_held self.old.held read) }
    {
        if let Err(misread) = read {
            self.bad = Some(BadItem {
                misread,
                number: self.count,
            });
            self.held.empty(self.alloc);
        }
    }

    /// Reads an item, where all before it were read.
    fn read_item(&mut self, part: Part) -> Result<(), AllocError>
        ensures { OnOk result (AfterItem self.old.bad self.old part self.new) }
    {
        if self.bad.is_some() {
            return Ok(());
        }
        self.note_level(part);
        let read = self.held.add(self.alloc, part, self.text.as_slice())?;
        self.keep_read(read);
        Ok(())
    }

    /// Goes past the end tag of an item.
    fn end_item(&mut self, part: Part) -> Result<(), Stop<OsrlFault>>
        ensures { EndsAt self.old (places.Item part) self.new result }
    {
        self.place = Place::Result(part);
        self.read_item(part)?;
        Ok(())
    }

    /// The item that isn't read, if one isn't: the first that isn't one of its part, or begins a level out of order; but in
    /// a solution that speaks of one level the first that begins with the word of a level, unless one before it isn't read.
    fn bad_item(&self) -> Option<BadItem>
        ensures { result ≡ saying.bad_item self.now }
    {
        if !has_one_level(false, self.held.has_bound, &self.claiming) {
            return self.bad;
        }
        level_or(self.level, self.bad)
    }

    /// Whether at most one solution was there, and each part at most once and with as many items as it may have.
    fn are_counted(&self) -> bool
        ensures { IsTrue result ↔ AreCounted self.now }
    {
        !self.twice
            && self.held.is_counted(Part::Value)
            && self.held.is_counted(Part::Tree)
            && self.held.is_counted(Part::Cause)
            && self.held.is_counted(Part::Bound)
    }

    /// What the marks have reported, if all parts are there.
    fn into_report(mut self) -> Result<Option<Report>, AllocError>
        ensures { IfOk result (λ r. r ≡ saying.report_of self) }
    {
        let held = mem::replace(&mut self.held, Held::new(self.alloc));
        let claim = claimed(self.alloc, self.has_solution, held, &self.claiming)?;
        Ok(reported(
            &self.general,
            nonempty(self.job.take()),
            nonempty(self.message.take()),
            status_of(&self.status),
            claim,
        ))
    }

    /// Goes past the end tag of the root.
    fn end_root(&mut self) -> Result<(), Stop<OsrlFault>>
        ensures { EndsAt self.old places.Osrl self.new result }
    {
        if let Some(bad) = self.bad_item() {
            return Err(Stop::Refused(refusal(bad)));
        }
        if !self.are_counted() {
            return Err(Stop::Refused(OsrlFault::Count));
        }
        let alloc = self.alloc;
        match mem::replace(self, ParseState::new(alloc)).into_report()? {
            Some(report) => {
                self.report = report;
                Ok(())
            }
            None => Err(Stop::Refused(OsrlFault::Missing)),
        }
    }

    /// Goes past the end tag of such an element but an item or the root.
    fn end_text(&mut self, place: Place) -> Result<(), AllocError>
        requires item { (part : Part) → place ≡ places.Item part → ⊥ }
        requires root { place ≡ places.Osrl → ⊥ }
        ensures { OnOk result (leaving.Ends self.old place self.new) }
    {
        self.place = outer(place);
        let text = self.text.as_slice();
        match place {
            Place::JobId => keep_first(self.alloc, &mut self.job, trim(text)),
            Place::Message => keep_first(self.alloc, &mut self.message, trim(text)),
            Place::JobStatus => keep_first(self.alloc, &mut self.status, text),
            _ => Ok(()),
        }
    }

    /// Goes past an end tag of such an element.
    fn end(&mut self, place: Place) -> Result<(), Stop<OsrlFault>>
        ensures { EndsAt self.old place self.new result }
    {
        match place {
            Place::Item(part) => self.end_item(part),
            Place::Osrl => self.end_root(),
            _ => {
                self.end_text(place)?;
                Ok(())
            }
        }
    }

    /// Goes past an end tag.
    fn go_out(&mut self) -> Result<(), Stop<OsrlFault>>
        ensures { (name : List ℕ) → StepsBy osrl self.old (Finish name) self.new result }
    {
        if self.depth > 0 {
            self.depth -= 1;
            return Ok(());
        }
        self.end(self.place)
    }

    /// Whether no element more can be counted.
    fn is_full(&self) -> bool
        ensures count { IsFalse result → self.now.count + 1 < 2 ^ 64 }
        ensures depth { IsFalse result → self.now.depth + 1 < 2 ^ 64 }
    {
        self.count == u64::MAX || self.depth == u64::MAX
    }

    /// What the document reports, where its root has ended.
    pub(crate) fn report(mut self) -> Report
        ensures { result ≡ self.report }
    {
        mem::replace(&mut self.report, nothing_said())
    }
}

impl MarkReader<OsrlFault> for ParseState {
    ghost use Rattle.std.proofs.Common.{refl};
    ghost use Rattle.tag_tests.specs.Forms.{AreTaken, AreRefused};
    ghost use Rattle.tag_tests.proofs.Forms.{taken_both, refused_behind, refused_more};
    ghost use Rattle.osrl_grammar.specs.Marked.{osrl};

    ghost took = { λ s ms z. AreTaken osrl s ms z };

    ghost refuses = { λ s ms f. AreRefused osrl s ms f };

    ghost took_none = { λ s. refl };

    ghost took_both = { λ s m z ms ns p q. taken_both osrl s m z ms ns p q };

    ghost refuses_behind = { λ s m ms ns f p q. refused_behind osrl s m ms ns f p q };

    ghost refuses_more = { λ s ms ns f p. refused_more osrl s ms ns f p };

    fn enter(
        &mut self,
        _alloc: Global,
        name: &[u8],
        attributes: &Attributes<'_>,
    ) -> Result<(), Stop<OsrlFault>> {
        if self.is_full() {
            return Err(Stop::Memory);
        }
        self.go_in(name, attributes)
    }

    fn chars(&mut self, _alloc: Global, text: &[u8]) -> Result<(), Stop<OsrlFault>> {
        if !self.keeps() {
            return Ok(());
        }
        self.text.extend_from_slice(text)?;
        Ok(())
    }

    fn close(&mut self, _alloc: Global, _name: &[u8]) -> Result<(), Stop<OsrlFault>> {
        self.go_out()
    }
}
