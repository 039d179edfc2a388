//! Reads an OSiL document mark by mark.

ghost use Rattle.std.specs.Prelude.{◌≡◌, ◌≢◌, ◌↔◌, ◌+◌, ◌<◌, ◌≤◌, ◌^◌, ◌++◌, pos, ◌+ℤ◌, ◌*ℤ◌, IsTrue, IsSomeAnd, OnOk, IfOk, length, vec_len, replicate, map, List, ℕ};
ghost use Rattle.std.specs.List.{All};
ghost use Rattle.doc_tree.specs.Marks.{Start, Char, Finish};
ghost use Rattle.osil_grammar.specs.Reading.{told_refusal};
ghost use Rattle.osil_grammar.specs.ParseState as parse_state;
ghost use Rattle.osil_grammar.specs.Failing as failing;
ghost use Rattle.instance.specs.Limits.{most_entries};
ghost use Rattle.osil_grammar.specs.Failing.{IsIndexBelow, most_lines};
ghost use Rattle.osil_grammar.specs.Table.{part_row, list_rank, count_name};
ghost use Rattle.osil_grammar.specs.declared.elements.Place.TheVariants as places;
ghost use Rattle.osil_grammar.specs.declared.elements.Led.TheVariants as led;
ghost use Rattle.osil_grammar.specs.declared.elements.Part.TheVariants as parts;
ghost use Rattle.osil_grammar.specs.declared.elements.Listing.TheVariants as listings;
ghost use Rattle.osil_grammar.specs.Refusals as refusals;
ghost use Rattle.document_tags.specs.Faults as spoken;
ghost use Rattle.fraction.specs.Frac.{ratio};
ghost use Rattle.decimal_text.specs.Whole.{IsWholeText};
ghost use Rattle.decimal_text.specs.Decimal.{IsDecimal};
ghost use Rattle.std.specs.Prelude.{◌||◌};
ghost use Rattle.tag_tests.specs.declared.marks.Stop.TheVariants as stops;
ghost use Rattle.osil_grammar.specs.Matrix.{stored};
ghost use Rattle.osil_grammar.specs.Meaning.{AreEntriesOf};
ghost use Rattle.osil_grammar.specs.Leaving as leaving;
ghost use Rattle.osil_grammar.specs.Leaving.{IsMatrixOf, AddsRun};
ghost use Rattle.tag_tests.specs.Forms.{AreTaken};
ghost use Rattle.osil_grammar.specs.Marked.{osil, goals_said, instance_of};
ghost use Rattle.osil_grammar.specs.Hearing.{goals_held, held};
ghost use Rattle.osil_grammar.specs.Sound.{IsSound, IsSoundIn, HasGoals, HasGoalsIn};
ghost use Rattle.osil_grammar.specs.Stepping.{StepsAt, BeginsAt, EndsAt, EndAnswers, IsToldAs, AddsUp};

use crate::domains::zero;
use crate::elements::{Led, Listing, Part, Place, keeps_text, leads, outer};
use crate::entries::{Lists, entries, is_division};
use crate::fault::Refusal;
use crate::run_numbers::{is_in_range, push_decimals, push_wholes};
use crate::start_tags::{read_coef, read_con, read_obj, read_value_el, read_var, read_whole_el};
use crate::stop::{Refused, Stop};
use crate::tag_numbers::{count, decimal_of, refusal, whole_of};
use document_tags::told_name;
use element_tree::Attributes;
use fraction::{Entry, Frac, Wide};
use instance::{Costs, Goal, Instance, Row, Sense, Var};
use os_io::Text;
use std::alloc::{AllocError, Global};
use std::marker::Model;

/// What the marks so far leave. It holds no element, and no more than what they say.
#[derive(Drop)]
pub(crate) struct ParseState {
    alloc: Global,
    place: Place,
    count: u64,
    depth: u64,
    data_at: u64,
    part_at: u64,
    obj_at: u64,
    part: u64,
    has_variables: bool,
    further: Text,
    list: u64,
    lists: u64,
    declared: Option<u64>,
    declared_coefs: Option<u64>,
    coefs: u64,
    sense: Sense,
    constant: Frac,
    costs: Vec<Frac>,
    times: u64,
    variable: usize,
    whole_step: i64,
    step: Frac,
    text: Vec<u8>,
    vars: Vec<Var>,
    rows: Vec<Row>,
    goals: Vec<Goal>,
    matrix: Lists,
    entries: Vec<Entry>,
}

impl Model for ParseState {
    ghost use Rattle.osil_grammar.specs.ParseState.{State};

    ghost Value = { State };

    ghost view = { λ d. record {
      place = d.place;
      count = d.count;
      depth = d.depth;
      data_at = d.data_at;
      part_at = d.part_at;
      obj_at = d.obj_at;
      part = d.part;
      has_variables = d.has_variables;
      further = d.further;
      list = d.list;
      lists = d.lists;
      declared = d.declared;
      declared_coefs = d.declared_coefs;
      coefs = d.coefs;
      sense = d.sense;
      constant = d.constant;
      costs = d.costs.items;
      times = d.times;
      variable = d.variable;
      whole_step = d.whole_step;
      step = d.step;
      text = d.text.items;
      vars = d.vars.items;
      rows = d.rows.items;
      goals = d.goals.items;
      by_columns = d.matrix.by_columns;
      starts = d.matrix.starts.items;
      indices = d.matrix.indices.items;
      values = d.matrix.values.items;
      entries = d.entries.items;
    } };
}

/// Adds so many equal items.
fn push_times<T: Copy + Drop>(items: &mut Vec<T>, item: T, times: u64) -> Result<(), AllocError>
    ensures { OnOk result (items.new.items ≡ items.old.items ++ replicate times item) }
{
    for _ in 0..times {
        items.push(item)?;
    }
    Ok(())
}

/// Adds so many equal goals.
fn push_goals(
    alloc: Global,
    goals: &mut Vec<Goal>,
    sense: Sense,
    constant: Frac,
    costs: &[Frac],
    times: u64,
) -> Result<(), AllocError>
    ensures { OnOk result (goals.new.items ≡ goals.old.items ++ replicate times (record { sense = sense; constant = constant; costs = costs.now })) }
{
    for _ in 0..times {
        goals.push(Goal {
            sense,
            constant,
            costs: Costs::of(Vec::from_slice(alloc, costs)?),
        })?;
    }
    Ok(())
}

/// The goals, where there are some; else the one of minimising 0, where there are so many variables.
fn goals_or_least(
    alloc: Global,
    mut goals: Vec<Goal>,
    width: usize,
) -> Result<Vec<Goal>, AllocError>
    ensures { IfOk result (λ gs. gs.items ≡ goals_said goals.items width) }
{
    if !goals.is_empty() {
        return Ok(goals);
    }
    let mut costs = Vec::new(alloc);
    push_times(&mut costs, zero(), width as u64)?;
    goals.push(Goal {
        sense: Sense::Min,
        constant: zero(),
        costs: Costs::of(costs),
    })?;
    Ok(goals)
}

/// The place of a part in their order.
fn row_of(part: Part) -> u64
    ensures { result ≡ part_row part }
{
    match part {
        Part::Variables => 1,
        Part::Objectives => 2,
        Part::Constraints => 3,
        Part::Coefficients => 4,
    }
}

/// Whether `variables` has begun, where this part begins.
fn have_begun(part: Part, before: bool) -> bool
    ensures { result ≡ leaving.is_variables part || before }
{
    match part {
        Part::Variables => true,
        _ => before,
    }
}

/// The place of a list of the matrix in their order.
fn rank_of_list(list: Listing) -> u64
    ensures { result ≡ list_rank list }
{
    match list {
        Listing::Starts => 1,
        Listing::RowIndices | Listing::ColumnIndices => 2,
        Listing::Values => 3,
    }
}

/// The attribute in which a part declares how many items it has.
fn count_name_of(part: Part) -> &'static [u8]
    ensures { result.now ≡ count_name part }
{
    match part {
        Part::Variables => b"numberOfVariables",
        Part::Objectives => b"numberOfObjectives",
        Part::Constraints => b"numberOfConstraints",
        Part::Coefficients => b"numberOfValues",
    }
}

impl ParseState {
    /// Before all marks.
    pub(crate) fn new(alloc: Global) -> Self
        ensures { result ≡ parse_state.start }
    {
        ParseState {
            alloc,
            place: Place::Outside,
            count: 0,
            depth: 0,
            data_at: 0,
            part_at: 0,
            obj_at: 0,
            part: 0,
            has_variables: false,
            further: Text::new(alloc),
            list: 0,
            lists: 0,
            declared: None,
            declared_coefs: None,
            coefs: 0,
            sense: Sense::Min,
            constant: zero(),
            costs: Vec::new(alloc),
            times: 0,
            variable: 0,
            whole_step: 0,
            step: zero(),
            text: Vec::new(alloc),
            vars: Vec::new(alloc),
            rows: Vec::new(alloc),
            goals: Vec::new(alloc),
            matrix: Lists {
                by_columns: false,
                starts: Vec::new(alloc),
                indices: Vec::new(alloc),
                values: Vec::new(alloc),
            },
            entries: Vec::new(alloc),
        }
    }

    /// A refusal of the start tag that comes.
    fn refused(&self, refusal: Refusal) -> Stop
        requires { self.now.count + 1 < 2 ^ 64 }
        ensures { result ≡ stops.Refused (record { refusal = refusal; at = self.now.count + 1 }) }
    {
        Stop::Refused(Refused {
            refusal,
            at: self.count + 1,
        })
    }

    /// The refusal of the start tag that comes because of where it stands.
    fn beyond(&self, name: &[u8]) -> Stop
        requires { self.now.count + 1 < 2 ^ 64 }
        ensures { IsToldAs result (record { refusal = refusals.Beyond (spoken.told_name name.now); at = self.now.count + 1 }) }
    {
        match told_name(self.alloc, name) {
            Ok(name) => self.refused(Refusal::Beyond { name }),
            Err(_) => Stop::Memory,
        }
    }

    /// The refusal of a further part for the start tag that comes in it.
    fn in_further(&self) -> Stop
        ensures { IsToldAs result (record { refusal = refusals.Beyond self.now.further; at = self.now.part_at }) }
    {
        match Text::from_slice(self.alloc, self.further.as_slice()) {
            Ok(name) => Stop::Refused(Refused {
                refusal: Refusal::Beyond { name },
                at: self.part_at,
            }),
            Err(_) => Stop::Memory,
        }
    }

    /// Goes into an element.
    fn go(&mut self, place: Place)
        requires { self.old.count + 1 < 2 ^ 64 }
        ensures { self.new ≡ record self.old { place = place; count = self.old.count + 1 } }
    {
        self.place = place;
        self.count += 1;
    }

    /// Goes past a start tag `instanceData`.
    fn begin_data(&mut self, name: &[u8], attributes: &Attributes<'_>) -> Result<(), Stop>
        requires { self.old.count + 1 < 2 ^ 64 }
        ensures { BeginsAt self.old name.now attributes.now (led.To places.Data) self.new result }
    {
        if 0 < self.data_at {
            return Err(self.beyond(name));
        }
        self.data_at = self.count + 1;
        self.go(Place::Data);
        Ok(())
    }

    /// Goes past a start tag of an element that is passed over.
    fn begin_passed(&mut self, name: &[u8], attributes: &Attributes<'_>) -> Result<(), Stop>
        requires { self.old.count + 1 < 2 ^ 64 }
        ensures { BeginsAt self.old name.now attributes.now (led.To places.Passed) self.new result }
    {
        if self.depth == u64::MAX {
            return Err(Stop::Memory);
        }
        self.depth += 1;
        self.go(Place::Passed);
        Ok(())
    }

    /// Goes past a start tag of a further part of `instanceData`.
    fn begin_further(&mut self, name: &[u8], attributes: &Attributes<'_>) -> Result<(), Stop>
        requires { self.old.count + 1 < 2 ^ 64 }
        ensures { BeginsAt self.old name.now attributes.now (led.To places.Further) self.new result }
    {
        self.further = told_name(self.alloc, name)?;
        self.part_at = self.count + 1;
        self.go(Place::Further);
        Ok(())
    }

    /// Goes past a start tag of a part that is read.
    fn begin_part(
        &mut self,
        part: Part,
        name: &[u8],
        attributes: &Attributes<'_>,
    ) -> Result<(), Stop>
        requires { self.old.count + 1 < 2 ^ 64 }
        ensures { BeginsAt self.old name.now attributes.now (led.To (places.Part part)) self.new result }
    {
        if row_of(part) <= self.part {
            return Err(self.beyond(name));
        }
        match count(attributes, count_name_of(part)) {
            Ok(declared) => {
                self.declared = declared;
                self.part = row_of(part);
                self.part_at = self.count + 1;
                self.has_variables = have_begun(part, self.has_variables);
                self.go(Place::Part(part));
                Ok(())
            }
            Err(unread) => Err(self.refused(refusal(unread))),
        }
    }

    /// Goes past a start tag `var`.
    fn begin_var(&mut self, name: &[u8], attributes: &Attributes<'_>) -> Result<(), Stop>
        requires { self.old.count + 1 < 2 ^ 64 }
        ensures { BeginsAt self.old name.now attributes.now (led.To places.Var) self.new result }
    {
        match read_var(attributes, self.vars.len() as u64) {
            Ok((var, times)) => {
                push_times(&mut self.vars, var, times)?;
                self.go(Place::Var);
                Ok(())
            }
            Err(refusal) => Err(self.refused(refusal)),
        }
    }

    /// Goes past a start tag `con`.
    fn begin_con(&mut self, name: &[u8], attributes: &Attributes<'_>) -> Result<(), Stop>
        requires { self.old.count + 1 < 2 ^ 64 }
        ensures { BeginsAt self.old name.now attributes.now (led.To places.Con) self.new result }
    {
        match read_con(attributes, self.rows.len() as u64) {
            Ok((row, times)) => {
                push_times(&mut self.rows, row, times)?;
                self.go(Place::Con);
                Ok(())
            }
            Err(refusal) => Err(self.refused(refusal)),
        }
    }

    /// Goes past a start tag `obj`.
    fn begin_obj(&mut self, name: &[u8], attributes: &Attributes<'_>) -> Result<(), Stop>
        requires { self.old.count + 1 < 2 ^ 64 }
        ensures { BeginsAt self.old name.now attributes.now (led.To places.Obj) self.new result }
    {
        match read_obj(attributes, self.goals.len() as u64) {
            Ok(tag) => {
                self.costs.clear();
                push_times(&mut self.costs, zero(), self.vars.len() as u64)?;
                self.times = tag.times;
                self.sense = tag.sense;
                self.constant = tag.constant;
                self.declared_coefs = tag.declared;
                self.coefs = 0;
                self.obj_at = self.count + 1;
                self.go(Place::Obj);
                Ok(())
            }
            Err(refusal) => Err(self.refused(refusal)),
        }
    }

    /// Goes past a start tag `coef`.
    fn begin_coef(&mut self, name: &[u8], attributes: &Attributes<'_>) -> Result<(), Stop>
        requires { self.old.count + 1 < 2 ^ 64 }
        ensures { BeginsAt self.old name.now attributes.now (led.To places.Coef) self.new result }
    {
        if self.coefs == u64::MAX {
            return Err(Stop::Memory);
        }
        match read_coef(attributes, self.vars.len()) {
            Ok(j) => {
                self.variable = j;
                self.coefs += 1;
                self.text.clear();
                self.go(Place::Coef);
                Ok(())
            }
            Err(refusal) => Err(self.refused(refusal)),
        }
    }

    /// Empties a list of the matrix. An index list says which lines are stored.
    fn clear(&mut self, list: Listing)
        ensures { self.new ≡ leaving.with_list self.old list }
    {
        match list {
            Listing::Starts => self.matrix.starts.clear(),
            Listing::RowIndices => {
                self.matrix.by_columns = true;
                self.matrix.indices.clear();
            }
            Listing::ColumnIndices => {
                self.matrix.by_columns = false;
                self.matrix.indices.clear();
            }
            Listing::Values => self.matrix.values.clear(),
        }
    }

    /// Goes past a start tag of a list of the matrix.
    fn begin_list(
        &mut self,
        list: Listing,
        name: &[u8],
        attributes: &Attributes<'_>,
    ) -> Result<(), Stop>
        requires { self.old.count + 1 < 2 ^ 64 }
        ensures { BeginsAt self.old name.now attributes.now (led.To (places.Listed list)) self.new result }
    {
        if rank_of_list(list) <= self.list {
            return Err(self.beyond(name));
        }
        if self.lists == u64::MAX {
            return Err(Stop::Memory);
        }
        self.list = rank_of_list(list);
        self.lists += 1;
        self.clear(list);
        self.go(Place::Listed(list));
        Ok(())
    }

    /// How many numbers a list has so far.
    fn list_len(&self, list: Listing) -> u64
        ensures { result ≡ failing.list_length self.now list }
    {
        match list {
            Listing::Starts => self.matrix.starts.len() as u64,
            Listing::Values => self.matrix.values.len() as u64,
            _ => self.matrix.indices.len() as u64,
        }
    }

    /// Goes past a start tag `el` in a list of whole numbers.
    fn begin_whole(
        &mut self,
        list: Listing,
        name: &[u8],
        attributes: &Attributes<'_>,
    ) -> Result<(), Stop>
        requires counted { self.old.count + 1 < 2 ^ 64 }
        requires other { list ≡ listings.Values → ⊥ }
        ensures { BeginsAt self.old name.now attributes.now (led.To (places.El list)) self.new result }
    {
        match read_whole_el(attributes, list, self.list_len(list)) {
            Ok((times, step)) => {
                self.times = times;
                self.whole_step = step;
                self.text.clear();
                self.go(Place::El(list));
                Ok(())
            }
            Err(refusal) => Err(self.refused(refusal)),
        }
    }

    /// Goes past a start tag `el` in the list of values.
    fn begin_value(&mut self, name: &[u8], attributes: &Attributes<'_>) -> Result<(), Stop>
        requires { self.old.count + 1 < 2 ^ 64 }
        ensures { BeginsAt self.old name.now attributes.now (led.To (places.El listings.Values)) self.new result }
    {
        match read_value_el(attributes, self.matrix.values.len() as u64) {
            Ok((times, step)) => {
                self.times = times;
                self.step = step;
                self.text.clear();
                self.go(Place::El(Listing::Values));
                Ok(())
            }
            Err(refusal) => Err(self.refused(refusal)),
        }
    }

    /// Goes past a start tag `el`.
    fn begin_el(
        &mut self,
        list: Listing,
        name: &[u8],
        attributes: &Attributes<'_>,
    ) -> Result<(), Stop>
        requires { self.old.count + 1 < 2 ^ 64 }
        ensures { BeginsAt self.old name.now attributes.now (led.To (places.El list)) self.new result }
    {
        match list {
            Listing::Values => self.begin_value(name, attributes),
            _ => self.begin_whole(list, name, attributes),
        }
    }

    /// Goes past a start tag that leads there.
    fn begin(&mut self, place: Place, name: &[u8], attributes: &Attributes<'_>) -> Result<(), Stop>
        requires { self.old.count + 1 < 2 ^ 64 }
        ensures { BeginsAt self.old name.now attributes.now (led.To place) self.new result }
    {
        match place {
            Place::Passed => self.begin_passed(name, attributes),
            Place::Data => self.begin_data(name, attributes),
            Place::Further => self.begin_further(name, attributes),
            Place::Part(part) => self.begin_part(part, name, attributes),
            Place::Var => self.begin_var(name, attributes),
            Place::Obj => self.begin_obj(name, attributes),
            Place::Coef => self.begin_coef(name, attributes),
            Place::Con => self.begin_con(name, attributes),
            Place::Listed(list) => self.begin_list(list, name, attributes),
            Place::El(list) => self.begin_el(list, name, attributes),
            Place::Outside | Place::Osil => {
                self.go(place);
                Ok(())
            }
        }
    }

    /// Goes past a start tag.
    pub(crate) fn enter(&mut self, name: &[u8], attributes: &Attributes<'_>) -> Result<(), Stop>
        requires { self.old.count + 1 < 2 ^ 64 }
        ensures { StepsAt self.old (Start name.now attributes.now) self.new result }
    {
        match leads(self.place, name) {
            Led::To(place) => self.begin(place, name, attributes),
            Led::OtherRoot => Err(self.refused(Refusal::Root)),
            Led::InFurther => Err(self.in_further()),
            Led::Beyond => Err(self.beyond(name)),
        }
    }

    /// Goes past characters.
    pub(crate) fn chars(&mut self, text: &[u8]) -> Result<(), AllocError>
        ensures { OnOk result (AreTaken osil self.old (map Char text.now) self.new) }
    {
        if keeps_text(self.place) {
            return self.text.extend_from_slice(text);
        }
        Ok(())
    }

    /// Goes past an end tag `osil`.
    fn end_root(&mut self) -> Result<(), Stop>
        ensures { EndsAt self.old places.Osil self.new result }
    {
        if self.data_at == 0 {
            return Err(Stop::Refused(Refused {
                refusal: Refusal::Missing,
                at: 1,
            }));
        }
        self.place = Place::Outside;
        Ok(())
    }

    /// Goes past an end tag of an element that is passed over.
    fn end_passed(&mut self) -> Result<(), Stop>
        ensures { EndsAt self.old places.Passed self.new result }
    {
        if 1 < self.depth {
            self.depth -= 1;
        } else {
            self.depth = 0;
            self.place = Place::Osil;
        }
        Ok(())
    }

    /// Goes past an end tag `instanceData`.
    fn end_data(&mut self) -> Result<(), Stop>
        ensures { EndsAt self.old places.Data self.new result }
    {
        if !self.has_variables {
            return Err(Stop::Refused(Refused {
                refusal: Refusal::Missing,
                at: self.data_at,
            }));
        }
        self.place = Place::Osil;
        Ok(())
    }

    /// How many items a part has.
    fn part_items(&self, part: Part) -> u64
        ensures { result ≡ failing.part_items self.now part }
    {
        match part {
            Part::Variables => self.vars.len() as u64,
            Part::Objectives => self.goals.len() as u64,
            Part::Constraints => self.rows.len() as u64,
            Part::Coefficients => self.matrix.values.len() as u64,
        }
    }

    /// Goes past an end tag of a part but the matrix.
    fn end_items(&mut self, part: Part) -> Result<(), Stop>
        requires { part ≡ parts.Coefficients → ⊥ }
        ensures { EndsAt self.old (places.Part part) self.new result }
    {
        if differs(self.declared, self.part_items(part)) {
            return Err(self.refused_part(Refusal::Count));
        }
        self.place = Place::Data;
        Ok(())
    }

    /// Adds the goal of the latest `obj`, as often as it stands for it.
    fn add_goals(&mut self) -> Result<(), AllocError>
        ensures { OnOk result (self.new ≡ leaving.with_goals self.old) }
    {
        push_goals(
            self.alloc,
            &mut self.goals,
            self.sense,
            self.constant,
            self.costs.as_slice(),
            self.times,
        )?;
        self.costs.clear();
        Ok(())
    }

    /// Goes past an end tag `obj`.
    fn end_obj(&mut self) -> Result<(), Stop>
        ensures { EndsAt self.old places.Obj self.new result }
    {
        if differs(self.declared_coefs, self.coefs) {
            return Err(Stop::Refused(Refused {
                refusal: Refusal::Count,
                at: self.obj_at,
            }));
        }
        self.add_goals()?;
        self.place = Place::Part(Part::Objectives);
        Ok(())
    }

    /// A refusal of the latest element.
    fn refused_latest(&self, refusal: Refusal) -> Stop
        ensures { result ≡ stops.Refused (record { refusal = refusal; at = self.now.count }) }
    {
        Stop::Refused(Refused {
            refusal,
            at: self.count,
        })
    }

    /// Adds the cost of a `coef` at its end tag.
    fn end_cost(&mut self, cost: Frac) -> Result<(), Stop>
        requires inside { self.old.variable < length self.old.costs }
        requires reads { IsDecimal self.old.text (ratio cost) }
        ensures { EndsAt self.old places.Coef self.new result }
    {
        match add_to(&mut self.costs, self.variable, cost) {
            Ok(()) => {
                self.place = Place::Obj;
                Ok(())
            }
            Err(_) => Err(self.refused_latest(Refusal::Wide)),
        }
    }

    /// Goes past an end tag `coef`.
    fn end_coef(&mut self) -> Result<(), Stop>
        requires { self.old.variable < length self.old.costs }
        ensures { EndsAt self.old places.Coef self.new result }
    {
        match decimal_of(self.text.as_slice()) {
            Ok(cost) => self.end_cost(cost),
            Err(unread) => Err(self.refused_latest(refusal(unread))),
        }
    }

    /// The numbers of a list of whole numbers are below this.
    fn limit(&self, list: Listing) -> u32
        requires few_vars { length self.now.vars ≤ most_lines }
        requires few_rows { length self.now.rows ≤ most_lines }
        ensures limit { result ≡ failing.limit self.now list }
        ensures low { result ≤ 100001 }
    {
        match list {
            Listing::Starts => 100_001,
            _ if self.matrix.by_columns => self.rows.len() as u32,
            _ => self.vars.len() as u32,
        }
    }

    /// Adds the numbers of a run of whole numbers to their list.
    fn push_run(&mut self, list: Listing, first: i64) -> Result<(), AllocError>
        requires other { list ≡ listings.Values → ⊥ }
        requires reads { IsWholeText self.old.text first }
        requires few { self.old.times ≤ most_entries }
        requires inside { (k : ℕ) → k < self.old.times → IsIndexBelow (first +ℤ pos k *ℤ self.old.whole_step) 100001 }
        ensures { OnOk result (AddsRun list self.old self.new) }
    {
        let (step, times) = (self.whole_step, self.times);
        match list {
            Listing::Starts => push_wholes(&mut self.matrix.starts, first, step, times),
            _ => push_wholes(&mut self.matrix.indices, first, step, times),
        }
    }

    /// Adds the numbers of a run of whole numbers at its end tag.
    fn end_wholes(&mut self, list: Listing, first: i64) -> Result<(), Stop>
        requires other { list ≡ listings.Values → ⊥ }
        requires reads { IsWholeText self.old.text first }
        requires some { 0 < self.old.times }
        requires few { self.old.times ≤ most_entries }
        requires few_vars { length self.old.vars ≤ most_lines }
        requires few_rows { length self.old.rows ≤ most_lines }
        ensures { EndsAt self.old (places.El list) self.new result }
    {
        if !is_in_range(first, self.whole_step, self.times, self.limit(list)) {
            return Err(self.refused_latest(Refusal::Index));
        }
        self.push_run(list, first)?;
        self.place = Place::Listed(list);
        Ok(())
    }

    /// Goes past an end tag `el` in a list of whole numbers.
    fn end_whole(&mut self, list: Listing) -> Result<(), Stop>
        requires other { list ≡ listings.Values → ⊥ }
        requires some { 0 < self.old.times }
        requires few { self.old.times ≤ most_entries }
        requires few_vars { length self.old.vars ≤ most_lines }
        requires few_rows { length self.old.rows ≤ most_lines }
        ensures { EndsAt self.old (places.El list) self.new result }
    {
        match whole_of(self.text.as_slice()) {
            Ok(first) => self.end_wholes(list, first),
            Err(unread) => Err(self.refused_latest(refusal(unread))),
        }
    }

    /// Adds the numbers of a run of decimals at its end tag.
    fn end_run(&mut self, first: Frac) -> Result<(), Stop>
        requires some { 0 < self.old.times }
        requires reads { IsDecimal self.old.text (ratio first) }
        ensures { EndsAt self.old (places.El listings.Values) self.new result }
    {
        let pushed = push_decimals(&mut self.matrix.values, first, self.step, self.times)?;
        match pushed {
            Ok(()) => {
                self.place = Place::Listed(Listing::Values);
                Ok(())
            }
            Err(Wide) => Err(self.refused_latest(Refusal::Wide)),
        }
    }

    /// Goes past an end tag `el` in the list of values.
    fn end_value(&mut self) -> Result<(), Stop>
        requires { 0 < self.old.times }
        ensures { EndsAt self.old (places.El listings.Values) self.new result }
    {
        match decimal_of(self.text.as_slice()) {
            Ok(first) => self.end_run(first),
            Err(unread) => Err(self.refused_latest(refusal(unread))),
        }
    }

    /// A refusal of the latest part.
    fn refused_part(&self, refusal: Refusal) -> Stop
        ensures { result ≡ stops.Refused (record { refusal = refusal; at = self.now.part_at }) }
    {
        Stop::Refused(Refused {
            refusal,
            at: self.part_at,
        })
    }

    /// How many lines are stored.
    fn lines(&self) -> usize
        ensures { result ≡ failing.lines self.now }
    {
        if self.matrix.by_columns {
            self.vars.len()
        } else {
            self.rows.len()
        }
    }

    /// The entries of lists with as many indices as values, which the starts divide, at the end of the matrix.
    fn close_entries(&self) -> Result<Vec<Entry>, Stop>
        requires all { 3 ≤ self.now.lists }
        requires few { failing.lines self.now ≤ most_lines }
        requires as_many { length self.now.indices ≡ length self.now.values }
        requires divided { failing.IsDivided self.now }
        ensures { EndAnswers self.now (places.Part parts.Coefficients) result (λ es. AreEntriesOf (stored (failing.lists_so_far self.now)) es.items) }
    {
        match entries(self.alloc, &self.matrix)? {
            Ok(entries) => {
                if differs(self.declared, self.matrix.values.len() as u64) {
                    return Err(self.refused_part(Refusal::Count));
                }
                Ok(entries)
            }
            Err(Wide) => Err(self.refused_part(Refusal::Wide)),
        }
    }

    /// The entries of the three lists, at the end of the matrix.
    fn close_lists(&self) -> Result<Vec<Entry>, Stop>
        requires all { 3 ≤ self.now.lists }
        requires few { failing.lines self.now ≤ most_lines }
        ensures { EndAnswers self.now (places.Part parts.Coefficients) result (λ es. AreEntriesOf (stored (failing.lists_so_far self.now)) es.items) }
    {
        let values = self.matrix.values.len();
        if self.matrix.indices.len() != values {
            return Err(self.refused_part(Refusal::Count));
        }
        if is_division(self.matrix.starts.as_slice(), self.lines(), values) {
            return self.close_entries();
        }
        if differs(self.declared, values as u64) {
            return Err(self.refused_part(Refusal::Count));
        }
        Err(self.refused_part(Refusal::Start))
    }

    /// The entries of the matrix at its end: none where no list has begun.
    fn close_matrix(&self) -> Result<Vec<Entry>, Stop>
        requires { failing.lines self.now ≤ most_lines }
        ensures { EndAnswers self.now (places.Part parts.Coefficients) result (λ es. IsMatrixOf self.now es.items) }
    {
        if 3 <= self.lists {
            return self.close_lists();
        }
        if 0 < self.lists {
            return Err(self.refused_part(Refusal::Missing));
        }
        if differs(self.declared, self.matrix.values.len() as u64) {
            return Err(self.refused_part(Refusal::Count));
        }
        Ok(Vec::new(self.alloc))
    }

    /// Goes past an end tag `linearConstraintCoefficients`.
    fn end_matrix(&mut self) -> Result<(), Stop>
        requires { failing.lines self.old ≤ most_lines }
        ensures { EndsAt self.old (places.Part parts.Coefficients) self.new result }
    {
        match self.close_matrix() {
            Ok(entries) => {
                self.entries = entries;
                self.matrix.starts = Vec::new(self.alloc);
                self.matrix.indices = Vec::new(self.alloc);
                self.matrix.values = Vec::new(self.alloc);
                self.place = Place::Data;
                Ok(())
            }
            Err(stop) => Err(stop),
        }
    }

    /// Goes past an end tag of a part.
    fn end_part(&mut self, part: Part) -> Result<(), Stop>
        requires { failing.lines self.old ≤ most_lines }
        ensures { EndsAt self.old (places.Part part) self.new result }
    {
        match part {
            Part::Coefficients => self.end_matrix(),
            _ => self.end_items(part),
        }
    }

    /// Goes past an end tag `el`.
    fn end_el(&mut self, list: Listing) -> Result<(), Stop>
        requires sound { IsSoundIn (places.El list) self.old }
        ensures { EndsAt self.old (places.El list) self.new result }
    {
        match list {
            Listing::Values => self.end_value(),
            _ => self.end_whole(list),
        }
    }

    /// Goes past an end tag of such an element.
    fn end(&mut self, place: Place) -> Result<(), Stop>
        requires sound { IsSoundIn place self.old }
        requires goals { HasGoalsIn place self.old }
        ensures { EndsAt self.old place self.new result }
    {
        match place {
            Place::Osil => self.end_root(),
            Place::Passed => self.end_passed(),
            Place::Data => self.end_data(),
            Place::Part(part) => self.end_part(part),
            Place::Obj => self.end_obj(),
            Place::Coef => self.end_coef(),
            Place::El(list) => self.end_el(list),
            Place::Outside | Place::Further | Place::Var | Place::Con | Place::Listed(_) => {
                self.place = outer(place);
                Ok(())
            }
        }
    }

    /// Whether no start tag more can be counted.
    pub(crate) fn is_full(&self) -> bool
        ensures { IsTrue result ↔ (2 ^ 64 ≤ self.now.count + 1) }
    {
        self.count == u64::MAX
    }

    /// How many items the goals are: each has a cost for each variable.
    fn goal_items(&self) -> usize
        requires few { goals_held self.now.goals ≤ 211009 }
        requires each { All (λ g. length g.costs ≡ length self.now.vars) self.now.goals }
        ensures { result ≡ goals_held self.now.goals }
    {
        self.goals.len() * (self.vars.len() + 1)
    }

    /// How many items are held, in all lists.
    pub(crate) fn numbers(&self) -> u64
        requires few { held self.now ≤ 211009 }
        requires each { All (λ g. length g.costs ≡ length self.now.vars) self.now.goals }
        ensures { result ≡ held self.now }
    {
        let items = self.vars.len() + self.rows.len() + self.goal_items() + self.costs.len();
        let listed = self.matrix.starts.len()
            + self.matrix.indices.len()
            + self.matrix.values.len();
        (items + listed + self.entries.len()) as u64
    }

    /// The instance that the marks have said.
    pub(crate) fn instance(self) -> Result<Instance, AllocError>
        requires sound { IsSound self }
        requires goals { HasGoals self }
        ensures { IfOk result (λ p. p ≡ instance_of self) }
    {
        let ParseState {
            alloc,
            vars,
            rows,
            goals,
            entries,
            ..
        } = self;
        let goals = goals_or_least(alloc, goals, vars.len())?;
        match Instance::of(vars, rows, entries, goals) {
            Some(instance) => Ok(instance),
            None => unreachable!(),
        }
    }

    /// Goes past an end tag.
    pub(crate) fn close(&mut self) -> Result<(), Stop>
        requires sound { IsSound self.old }
        requires goals { HasGoals self.old }
        ensures { (name : List ℕ) → StepsAt self.old (Finish name) self.new result }
    {
        self.end(self.place)
    }
}

/// Whether a count is declared and is another.
fn differs(declared: Option<u64>, found: u64) -> bool
    ensures { IsTrue result ↔ IsSomeAnd declared (λ n. n ≢ found) }
{
    match declared {
        Some(n) => n != found,
        None => false,
    }
}

/// Adds a cost to that of its variable; Wide where the sum is too great.
fn add_to(costs: &mut Vec<Frac>, index: usize, value: Frac) -> Result<(), Wide>
    requires { index < vec_len costs.old }
    ensures { AddsUp result costs.old.items costs.new.items index value }
{
    match costs[index].add(value) {
        Ok(sum) => {
            costs[index] = sum;
            Ok(())
        }
        Err(wide) => Err(wide),
    }
}
