//! What start tags say.

ghost use Rattle.std.specs.Prelude.{◌≡◌, ◌↔◌, ◌+◌, ◌<◌, ◌≤◌, None, Some, IsTrue, MatchOption, MatchResult, IfOk, IsSomeAnd, [], ◌∷◌, ◌++◌, codes, length};
ghost use Rattle.tree_grammar.specs.Tags.{IsAmong};
ghost use Rattle.document_tags.specs.Elements.{value_of};
ghost use Rattle.tag_tests.specs.Fields.{FieldsRead};
ghost use Rattle.rational.specs.Ratio.{negative};
ghost use Rattle.instance.specs.Parts.{AreEnds};
ghost use Rattle.osil_grammar.specs.Meaning.{IsLess};
ghost use Rattle.osil_grammar.specs.Grammars as grammars;
ghost use Rattle.osil_grammar.specs.Grammars.{field, IsBad, IsTooGreat, HasSuch, SaysCount};
ghost use Rattle.osil_grammar.specs.Saying.{SaysTimes, SaysConstant, SaysStep, SaysWholeStep, SaysLow, SaysRowLow, SaysHigh, IsOfDomain, SaysDomain, SaysRow, SaysSense, SaysIndex, letter_names};
ghost use Rattle.osil_grammar.specs.VarTags.{SaysVar};
ghost use Rattle.osil_grammar.specs.Table as table;
ghost use Rattle.osil_grammar.specs.declared.elements.Led.TheVariants as led;
ghost use Rattle.osil_grammar.specs.declared.elements.Place.TheVariants as places;
ghost use Rattle.osil_grammar.specs.declared.elements.Listing.TheVariants as listings;
ghost use Rattle.osil_grammar.specs.Stepping.{AnswersTests, AnswersTag, Anything, IsNear, IsTooFar};
ghost use Rattle.osil_grammar.specs.Failing as failing;
ghost use Rattle.osil_grammar.specs.Reading.{told_refusal};
ghost use Rattle.osil_grammar.specs.Refusals as refusals;

use crate::domains::{Domain, lowered, raised, zero};
use crate::elements::Listing;
use crate::fault::Refusal;
use crate::tag_numbers::{bound, count, decimal, refusal, times, whole};
use element_tree::Attributes;
use fraction::{End, Frac};
use instance::{MAX_ENTRIES, MAX_GOALS, MAX_ROWS, MAX_VARS, Row, Sense, Var, are_ends};
use tag_tests::{Unread, both, value};

/// Whether so many more items, behind so many, are more than there may be.
pub(crate) fn are_too_many(before: u64, times: u64, most: u64) -> bool
    ensures { IsTrue result ↔ (most < before + times) }
{
    times > most || before > most - times
}

/// The type that a start tag `var` says.
fn type_of(attributes: &Attributes<'_>) -> Option<Domain>
    ensures { MatchOption result (HasSuch attributes.now (codes "type") (λ text. IsAmong text letter_names → ⊥)) (SaysDomain attributes.now) }
{
    match value(attributes, b"type") {
        None => Some(Domain::Continuous),
        Some(b"C") => Some(Domain::Continuous),
        Some(b"B") => Some(Domain::Binary),
        Some(b"I") => Some(Domain::Integer),
        Some(b"D") => Some(Domain::SemiContinuous),
        Some(b"J") => Some(Domain::SemiInteger),
        Some(_) => None,
    }
}

/// A variable between these ends.
fn between(lb: End, ub: End, whole: bool, zero: bool) -> Var
    ensures { result ≡ record { lb = lb; ub = ub; whole = whole; zero = zero } }
{
    Var {
        lb,
        ub,
        whole,
        zero,
    }
}

/// The variable of this type between these ends.
fn variable(domain: Domain, lb: End, ub: End) -> Var
    ensures { IsOfDomain domain lb ub result }
{
    match domain {
        Domain::Continuous => between(lb, ub, false, false),
        Domain::Integer => between(lb, ub, true, false),
        Domain::Binary => between(raised(lb), lowered(ub), true, false),
        Domain::SemiContinuous => between(lb, ub, false, true),
        Domain::SemiInteger => between(lb, ub, true, true),
    }
}

/// The numbers of a start tag `var`: its ends, and for how many it stands.
fn var_numbers(attributes: &Attributes<'_>) -> Result<((End, End), u64), Unread>
    ensures { FieldsRead (IsBad attributes.now) (IsTooGreat attributes.now) (table.fields places.Var) result (λ x. (SaysLow attributes.now x.0.0 × SaysHigh attributes.now x.0.1) × SaysTimes attributes.now x.1) }
{
    let low = bound(attributes, b"lb", End::At(zero()));
    let high = bound(attributes, b"ub", End::Inf);
    both(both(low, high), times(attributes))
}

/// What a start tag `var` says with these numbers, where so many variables stand before it.
fn var_of(
    attributes: &Attributes<'_>,
    lb: End,
    ub: End,
    times: u64,
    before: u64,
) -> Result<(Var, u64), Refusal>
    requires low { SaysLow attributes.now lb }
    requires high { SaysHigh attributes.now ub }
    requires times { SaysTimes attributes.now times }
    ensures { AnswersTests (λ s. length s.vars ≡ before) attributes.now (table.no_type ∷ table.low_infinite ∷ table.high_infinite ∷ table.too_many places.Var ∷ []) result (λ x. SaysVar attributes.now x.0 × SaysTimes attributes.now x.1) }
{
    let Some(domain) = type_of(attributes) else {
        return Err(Refusal::VarType);
    };
    if !are_ends(lb, ub) {
        return Err(Refusal::Bound);
    }
    if are_too_many(before, times, MAX_VARS as u64) {
        return Err(Refusal::TooBig);
    }
    Ok((variable(domain, lb, ub), times))
}

/// What a start tag `var` says, and for how many it stands, where so many variables stand before it.
pub(crate) fn read_var(attributes: &Attributes<'_>, before: u64) -> Result<(Var, u64), Refusal>
    ensures { AnswersTag (λ s. length s.vars ≡ before) attributes.now (led.To places.Var) result (λ x. SaysVar attributes.now x.0 × SaysTimes attributes.now x.1) }
{
    match var_numbers(attributes) {
        Ok(numbers) => {
            let ((lb, ub), times) = numbers;
            var_of(attributes, lb, ub, times, before)
        }
        Err(unread) => Err(refusal(unread)),
    }
}

/// An end less a constant.
fn less(end: End, constant: Frac) -> Result<End, Unread>
    ensures { MatchResult result (λ x. IsLess end constant x × IsNear end constant) (IsTooFar end constant) }
{
    match end {
        End::At(x) => match x.sub(constant) {
            Ok(less) => Ok(End::At(less)),
            Err(_) => Err(Unread::Wide),
        },
        _ => Ok(end),
    }
}

/// The numbers of a start tag `con`: its ends, its constant, and for how many it stands.
fn con_numbers(attributes: &Attributes<'_>) -> Result<((End, End), (Frac, u64)), Unread>
    ensures { FieldsRead (IsBad attributes.now) (IsTooGreat attributes.now) (table.fields places.Con) result (λ x. (SaysRowLow attributes.now x.0.0 × SaysHigh attributes.now x.0.1) × (SaysConstant attributes.now x.1.0 × SaysTimes attributes.now x.1.1)) }
{
    let low = bound(attributes, b"lb", End::NegInf);
    let high = bound(attributes, b"ub", End::Inf);
    both(
        both(low, high),
        both(decimal(attributes, b"constant"), times(attributes)),
    )
}

/// What a start tag `con` says with these numbers, where so many rows stand before it.
fn row_of(
    attributes: &Attributes<'_>,
    ends: (End, End),
    constant: Frac,
    times: u64,
    before: u64,
) -> Result<(Row, u64), Refusal>
    requires low { SaysRowLow attributes.now ends.0 }
    requires high { SaysHigh attributes.now ends.1 }
    requires constant { SaysConstant attributes.now constant }
    requires times { SaysTimes attributes.now times }
    ensures { AnswersTests (λ s. length s.rows ≡ before) attributes.now (table.great_end (codes "lb") ∷ table.great_end (codes "ub") ∷ table.low_infinite ∷ table.high_infinite ∷ table.too_many places.Con ∷ []) result (λ x. SaysRow attributes.now x.0 × SaysTimes attributes.now x.1) }
{
    let (lb, ub) = ends;
    let Ok(low) = less(lb, constant) else {
        return Err(Refusal::Wide);
    };
    let Ok(high) = less(ub, constant) else {
        return Err(Refusal::Wide);
    };
    if !are_ends(lb, ub) {
        return Err(Refusal::Bound);
    }
    if are_too_many(before, times, MAX_ROWS as u64) {
        return Err(Refusal::TooBig);
    }
    Ok((Row { lb: low, ub: high }, times))
}

/// What a start tag `con` says, and for how many it stands, where so many rows stand before it.
pub(crate) fn read_con(attributes: &Attributes<'_>, before: u64) -> Result<(Row, u64), Refusal>
    ensures { AnswersTag (λ s. length s.rows ≡ before) attributes.now (led.To places.Con) result (λ x. SaysRow attributes.now x.0 × SaysTimes attributes.now x.1) }
{
    match con_numbers(attributes) {
        Ok((ends, (constant, times))) => row_of(attributes, ends, constant, times, before),
        Err(unread) => Err(refusal(unread)),
    }
}

/// The sense that a start tag `obj` says.
fn sense_of(attributes: &Attributes<'_>) -> Option<Sense>
    ensures { MatchOption result (failing.HasNoSense attributes.now) (SaysSense attributes.now) }
{
    match value(attributes, b"maxOrMin") {
        None => Some(Sense::Min),
        Some(b"min") => Some(Sense::Min),
        Some(b"max") => Some(Sense::Max),
        Some(_) => None,
    }
}

/// What a start tag `obj` says.
#[derive(Clone, Copy)]
pub(crate) struct ObjTag {
    pub(crate) sense: Sense,
    pub(crate) constant: Frac,
    pub(crate) declared: Option<u64>,
    pub(crate) times: u64,
}

/// The numbers of a start tag `obj`: its constant, its count, and for how many it stands.
fn obj_numbers(attributes: &Attributes<'_>) -> Result<((Frac, Option<u64>), u64), Unread>
    ensures { FieldsRead (IsBad attributes.now) (IsTooGreat attributes.now) (table.fields places.Obj) result (λ x. (SaysConstant attributes.now x.0.0 × SaysCount attributes.now (codes "numberOfObjCoef") x.0.1) × SaysTimes attributes.now x.1) }
{
    let constant = decimal(attributes, b"constant");
    let declared = count(attributes, b"numberOfObjCoef");
    both(both(constant, declared), times(attributes))
}

/// What a start tag `obj` says with this sense and these numbers, where so many goals stand before it.
fn goal_of(
    attributes: &Attributes<'_>,
    sense: Sense,
    constant: Frac,
    declared: Option<u64>,
    times: u64,
    before: u64,
) -> Result<ObjTag, Refusal>
    requires sense { SaysSense attributes.now sense }
    requires constant { SaysConstant attributes.now constant }
    requires declared { SaysCount attributes.now (codes "numberOfObjCoef") declared }
    requires times { SaysTimes attributes.now times }
    ensures { AnswersTests (λ s. length s.goals ≡ before) attributes.now (table.too_many places.Obj ∷ []) result (λ x. SaysSense attributes.now x.sense × SaysConstant attributes.now x.constant × SaysCount attributes.now (codes "numberOfObjCoef") x.declared × SaysTimes attributes.now x.times) }
{
    if are_too_many(before, times, MAX_GOALS as u64) {
        return Err(Refusal::ManyObjectives);
    }
    Ok(ObjTag {
        sense,
        constant,
        declared,
        times,
    })
}

/// What a start tag `obj` says behind its sense, where so many goals stand before it.
fn obj_of(attributes: &Attributes<'_>, sense: Sense, before: u64) -> Result<ObjTag, Refusal>
    requires { SaysSense attributes.now sense }
    ensures { AnswersTests (λ s. length s.goals ≡ before) attributes.now (table.numbers places.Obj ++ (table.too_many places.Obj ∷ [])) result (λ x. SaysSense attributes.now x.sense × SaysConstant attributes.now x.constant × SaysCount attributes.now (codes "numberOfObjCoef") x.declared × SaysTimes attributes.now x.times) }
{
    match obj_numbers(attributes) {
        Ok(((constant, declared), times)) => {
            goal_of(attributes, sense, constant, declared, times, before)
        }
        Err(unread) => Err(refusal(unread)),
    }
}

/// What a start tag `obj` says, where so many goals stand before it.
pub(crate) fn read_obj(attributes: &Attributes<'_>, before: u64) -> Result<ObjTag, Refusal>
    ensures { AnswersTag (λ s. length s.goals ≡ before) attributes.now (led.To places.Obj) result (λ x. SaysSense attributes.now x.sense × SaysConstant attributes.now x.constant × SaysCount attributes.now (codes "numberOfObjCoef") x.declared × SaysTimes attributes.now x.times) }
{
    match sense_of(attributes) {
        Some(sense) => obj_of(attributes, sense, before),
        None => Err(Refusal::Attribute { name: b"maxOrMin" }),
    }
}

/// That a start tag `coef` has `idx`, and neither `mult` nor `incr`.
fn coef_attributes(attributes: &Attributes<'_>) -> Result<(), Refusal>
    ensures { AnswersTests Anything attributes.now (table.no_index ∷ table.has (codes "mult") ∷ table.has (codes "incr") ∷ []) result (λ _. Unit {0}) }
{
    if value(attributes, b"idx").is_none() {
        return Err(Refusal::Attribute { name: b"idx" });
    }
    if value(attributes, b"mult").is_some() {
        return Err(Refusal::Attribute { name: b"mult" });
    }
    if value(attributes, b"incr").is_some() {
        return Err(Refusal::Attribute { name: b"incr" });
    }
    Ok(())
}

/// The variable of this `idx` of a start tag `coef`, where there are so many variables.
fn variable_of(
    attributes: &Attributes<'_>,
    index: Option<u64>,
    width: usize,
) -> Result<usize, Refusal>
    requires { SaysCount attributes.now (codes "idx") index }
    ensures reads { AnswersTests (λ s. (length s.vars ≡ width) × (value_of (codes "idx") attributes.now ≡ None → ⊥)) attributes.now (table.no_variable ∷ []) result (λ j. SaysIndex attributes.now j) }
    ensures inside { IfOk result (λ j. j < width) }
{
    let Some(j) = index else {
        return Err(Refusal::Index);
    };
    if width as u64 <= j {
        return Err(Refusal::Index);
    }
    Ok(j as usize)
}

/// The variable of the `idx` of a start tag `coef`, where there are so many variables.
fn index_of(attributes: &Attributes<'_>, width: usize) -> Result<usize, Refusal>
    ensures reads { AnswersTests (λ s. (length s.vars ≡ width) × (value_of (codes "idx") attributes.now ≡ None → ⊥)) attributes.now (table.numbers places.Coef ++ (table.no_variable ∷ [])) result (λ j. SaysIndex attributes.now j) }
    ensures inside { IfOk result (λ j. j < width) }
{
    match count(attributes, b"idx") {
        Ok(index) => variable_of(attributes, index, width),
        Err(unread) => Err(refusal(unread)),
    }
}

/// The variable of a start tag `coef`, where there are so many variables.
pub(crate) fn read_coef(attributes: &Attributes<'_>, width: usize) -> Result<usize, Refusal>
    ensures reads { AnswersTag (λ s. length s.vars ≡ width) attributes.now (led.To places.Coef) result (λ j. SaysIndex attributes.now j) }
    ensures inside { IfOk result (λ j. j < width) }
{
    match coef_attributes(attributes) {
        Ok(()) => index_of(attributes, width),
        Err(refusal) => Err(refusal),
    }
}

/// The most numbers of a list.
fn most_of(list: Listing) -> u64
    ensures { result ≡ failing.most (places.El list) }
{
    match list {
        Listing::Starts => MAX_ROWS as u64 + 1,
        _ => MAX_ENTRIES as u64,
    }
}

/// So many numbers of an `el` and their step, where so many stand before them in this list.
fn with_room<T: Copy + Drop>(
    list: Listing,
    before: u64,
    times: u64,
    step: T,
) -> Result<(u64, T), Refusal>
    ensures { MatchResult result (λ x. (x ≡ (times, step)) × (failing.most (places.El list) < before + times → ⊥)) (λ r. (told_refusal r ≡ refusals.TooBig) × (failing.most (places.El list) < before + times)) }
{
    if are_too_many(before, times, most_of(list)) {
        return Err(Refusal::TooBig);
    }
    Ok((times, step))
}

/// The numbers of a start tag `el` in a list of whole numbers: for how many it stands, and their step.
fn whole_el_numbers(attributes: &Attributes<'_>) -> Result<(u64, i64), Unread>
    ensures { FieldsRead (IsBad attributes.now) (IsTooGreat attributes.now) (table.mult ∷ field (codes "incr") grammars.whole ∷ []) result (λ x. SaysTimes attributes.now x.0 × SaysWholeStep attributes.now x.1) }
{
    both(times(attributes), whole(attributes, b"incr"))
}

/// The numbers of a start tag `el` in the list of values: for how many it stands, and their step.
fn value_el_numbers(attributes: &Attributes<'_>) -> Result<(u64, Frac), Unread>
    ensures { FieldsRead (IsBad attributes.now) (IsTooGreat attributes.now) (table.fields (places.El listings.Values)) result (λ x. SaysTimes attributes.now x.0 × SaysStep attributes.now x.1) }
{
    both(times(attributes), decimal(attributes, b"incr"))
}

/// For how many whole numbers a start tag `el` stands, and their step, where so many stand before it in this list.
pub(crate) fn read_whole_el(
    attributes: &Attributes<'_>,
    list: Listing,
    before: u64,
) -> Result<(u64, i64), Refusal>
    requires { list ≡ listings.Values → ⊥ }
    ensures { AnswersTag (λ s. failing.list_length s list ≡ before) attributes.now (led.To (places.El list)) result (λ x. SaysTimes attributes.now x.0 × SaysWholeStep attributes.now x.1) }
{
    match whole_el_numbers(attributes) {
        Ok((times, step)) => with_room(list, before, times, step),
        Err(unread) => Err(refusal(unread)),
    }
}

/// For how many decimals a start tag `el` stands, and their step, where so many values stand before it.
pub(crate) fn read_value_el(
    attributes: &Attributes<'_>,
    before: u64,
) -> Result<(u64, Frac), Refusal>
    ensures { AnswersTag (λ s. length s.values ≡ before) attributes.now (led.To (places.El listings.Values)) result (λ x. SaysTimes attributes.now x.0 × SaysStep attributes.now x.1) }
{
    match value_el_numbers(attributes) {
        Ok((times, step)) => with_room(Listing::Values, before, times, step),
        Err(unread) => Err(refusal(unread)),
    }
}
