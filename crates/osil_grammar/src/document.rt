//! Writes instances.

ghost use Rattle.std.specs.Prelude.{◌≡◌, ◌≤◌, List, [], ◌∷◌, IfOk, IfErr, OnOk, MatchResult, codes, decimal as digits, length, map, pos};
ghost use Rattle.std.specs.List.{All};
ghost use Rattle.tree_grammar.specs.Elements.{Attribute, Nodes, Element, none, nodes_events};
ghost use Rattle.tree_grammar.specs.Elements as tree;
ghost use Rattle.document_tags.specs.Texts.{document_limit};
ghost use Rattle.fraction.specs.Frac.{ratio};
ghost use Rattle.decimal_text.specs.Plain.{PlainText};
ghost use Rattle.instance.specs.Parts.{IsAscending};
ghost use Rattle.document_tags.specs.Writing.{counted_element, with_attribute};
ghost use Rattle.osil_grammar.specs.Writing.{HasDecimal, EndHasText, WriteVars, WriteRows, WriteCosts, CountsCosts, WriteGoals, GoalHasDecimals, WriteValues, WriteLists, WritesInstance, HasDecimals, IsWrittenText, counts_nodes, entries_below, row_starts, sense_text};
ghost use Rattle.osil_grammar.specs.Saying.{IsEndText};
ghost use Rattle.osil_grammar.specs.VarTags.{type_text};
ghost use Rattle.document_tags.specs.Telling.{opening};
ghost use Rattle.tree_writing.specs.Awaiting.{AddsAttributes};
ghost use Rattle.osil_grammar.specs.Telling.{LacksDecimal, Wrote, WroteRoot, WritesNodes, EndsHaveTexts, EndAttributes, EncodeFails};

use crate::fault::EncodeFault;
use crate::telling::leaf;
use decimal_text::{DecimalFault, write_decimal};
use fraction::{End, Entry, Frac};
use instance::{Goal, Instance, Row, Sense, Var};
use itoa::Buffer;
use os_io::{Memory, Text};
use std::alloc::Global;
use tree_writing::TextWriter;

/// A number's text.
fn decimal(alloc: Global, value: Frac) -> Result<Text, EncodeFault>
    ensures { MatchResult result (λ t. HasDecimal value × PlainText t (ratio value)) (LacksDecimal (HasDecimal value)) }
{
    let mut text = Text::new(alloc);
    match write_decimal(value, &mut text) {
        Ok(()) => Ok(text),
        Err(DecimalFault::NotDecimal) => Err(EncodeFault::NotDecimal),
        Err(_) => Err(EncodeFault::Memory),
    }
}

/// An end's text.
fn end_text(alloc: Global, end: End) -> Result<Text, EncodeFault>
    ensures { MatchResult result (λ t. EndHasText end × IsEndText end t) (LacksDecimal (EndHasText end)) }
{
    match end {
        End::NegInf => Ok(Text::from_slice(alloc, b"-INF")?),
        End::At(x) => decimal(alloc, x),
        End::Inf => Ok(Text::from_slice(alloc, b"INF")?),
    }
}

/// Tells two ends as attributes of the element that was begun last.
fn tell_ends(alloc: Global, w: &mut TextWriter, lb: End, ub: End) -> Result<(), EncodeFault>
    ensures { MatchResult result (λ _. EndsHaveTexts lb ub × (more : List Attribute) × EndAttributes lb ub more × AddsAttributes w.old w.new more) (LacksDecimal (EndsHaveTexts lb ub)) }
{
    let low = end_text(alloc, lb)?;
    let high = end_text(alloc, ub)?;
    w.attribute(b"lb", low.as_slice())?;
    w.attribute(b"ub", high.as_slice())?;
    Ok(())
}

/// The text of a variable's type: continuous, integer, semi-continuous or semi-integer.
fn type_of(whole: bool, semi: bool) -> &'static [u8]
    ensures { result.now ≡ type_text whole semi }
{
    match (whole, semi) {
        (false, false) => b"C",
        (true, false) => b"I",
        (false, true) => b"D",
        (true, true) => b"J",
    }
}

/// Tells a variable.
fn tell_var(alloc: Global, w: &mut TextWriter, var: Var) -> Result<(), EncodeFault>
    ensures { WritesNodes result w.old w.new (EndsHaveTexts var.lb var.ub) (WriteVars (var ∷ [])) }
{
    w.begin(b"var")?;
    w.attribute(b"type", type_of(var.whole, var.zero))?;
    tell_ends(alloc, w, var.lb, var.ub)?;
    w.end(b"var")?;
    Ok(())
}

/// Tells the variables.
fn tell_vars(alloc: Global, w: &mut TextWriter, vars: &[Var]) -> Result<(), EncodeFault>
    ensures { WritesNodes result w.old w.new (All (λ v. EndsHaveTexts v.lb v.ub) vars.now) (λ nodes. (inner : Nodes) × WriteVars vars.now inner × (nodes ≡ counted_element (codes "variables") (codes "numberOfVariables") (length vars.now) inner none)) }
{
    open_counted(w, b"variables", b"numberOfVariables", vars.len())?;
    for var in vars {
        tell_var(alloc, w, *var)?;
    }
    w.end(b"variables")?;
    Ok(())
}

/// Begins an element with a count of what stands in it.
fn open_counted(w: &mut TextWriter, name: &[u8], key: &[u8], n: usize) -> Result<(), Memory>
    ensures { OnOk result (Wrote w.old w.new (opening name.now (with_attribute key.now (digits n) []))) }
{
    w.begin(name)?;
    w.attribute(key, Buffer::new().format(n).as_bytes())
}

/// Tells a row.
fn tell_row(alloc: Global, w: &mut TextWriter, row: Row) -> Result<(), EncodeFault>
    ensures { WritesNodes result w.old w.new (EndsHaveTexts row.lb row.ub) (WriteRows (row ∷ [])) }
{
    w.begin(b"con")?;
    tell_ends(alloc, w, row.lb, row.ub)?;
    w.end(b"con")?;
    Ok(())
}

/// Tells the rows.
fn tell_rows(alloc: Global, w: &mut TextWriter, rows: &[Row]) -> Result<(), EncodeFault>
    ensures { WritesNodes result w.old w.new (All (λ r. EndsHaveTexts r.lb r.ub) rows.now) (λ nodes. (inner : Nodes) × WriteRows rows.now inner × (nodes ≡ counted_element (codes "constraints") (codes "numberOfConstraints") (length rows.now) inner none)) }
{
    open_counted(w, b"constraints", b"numberOfConstraints", rows.len())?;
    for row in rows {
        tell_row(alloc, w, *row)?;
    }
    w.end(b"constraints")?;
    Ok(())
}

/// How many this cost counts for: 1, or 0 where it is 0.
fn count_cost(cost: Frac) -> usize
    ensures counts { CountsCosts (cost ∷ []) result }
    ensures few { result ≤ 1 }
{
    if cost.numer != 0 { 1 } else { 0 }
}

/// How many costs aren't 0.
fn count_costs(costs: &[Frac]) -> usize
    ensures { CountsCosts costs.now result }
{
    let mut count = 0;
    for cost in costs {
        count += count_cost(*cost);
    }
    count
}

/// Tells the cost of variable `j`, unless it is 0.
fn tell_cost(alloc: Global, w: &mut TextWriter, j: usize, cost: Frac) -> Result<(), EncodeFault>
    ensures { WritesNodes result w.old w.new (HasDecimal cost) (WriteCosts j (cost ∷ [])) }
{
    if cost.numer == 0 {
        return Ok(());
    }
    let text = decimal(alloc, cost)?;
    w.begin(b"coef")?;
    w.attribute(b"idx", Buffer::new().format(j).as_bytes())?;
    w.chars(text.as_slice())?;
    w.end(b"coef")?;
    Ok(())
}

/// Tells the costs that aren't 0.
fn tell_costs(alloc: Global, w: &mut TextWriter, costs: &[Frac]) -> Result<(), EncodeFault>
    ensures { WritesNodes result w.old w.new (All HasDecimal costs.now) (WriteCosts 0 costs.now) }
{
    for j in 0..costs.len() {
        tell_cost(alloc, w, j, costs[j])?;
    }
    Ok(())
}

/// The text of a sense.
fn sense_of(sense: Sense) -> &'static [u8]
    ensures { result.now ≡ sense_text sense }
{
    match sense {
        Sense::Min => b"min",
        Sense::Max => b"max",
    }
}

/// Tells an objective.
fn tell_objective(alloc: Global, w: &mut TextWriter, goal: &Goal) -> Result<(), EncodeFault>
    ensures { WritesNodes result w.old w.new (GoalHasDecimals goal.now) (WriteGoals (goal.now ∷ [])) }
{
    let costs = goal.costs.as_slice();
    let constant = decimal(alloc, goal.constant)?;
    let count = count_costs(costs);
    w.begin(b"obj")?;
    w.attribute(b"maxOrMin", sense_of(goal.sense))?;
    w.attribute(b"constant", constant.as_slice())?;
    w.attribute(b"numberOfObjCoef", Buffer::new().format(count).as_bytes())?;
    tell_costs(alloc, w, costs)?;
    w.end(b"obj")?;
    Ok(())
}

/// Tells the goals.
fn tell_goals(alloc: Global, w: &mut TextWriter, goals: &[Goal]) -> Result<(), EncodeFault>
    ensures { WritesNodes result w.old w.new (All GoalHasDecimals goals.now) (λ nodes. (inner : Nodes) × WriteGoals goals.now inner × (nodes ≡ counted_element (codes "objectives") (codes "numberOfObjectives") (length goals.now) inner none)) }
{
    open_counted(w, b"objectives", b"numberOfObjectives", goals.len())?;
    for goal in goals {
        tell_objective(alloc, w, goal)?;
    }
    w.end(b"objectives")?;
    Ok(())
}

/// Tells one `el` that holds a count.
fn tell_count(w: &mut TextWriter, n: usize) -> Result<(), Memory>
    ensures { OnOk result (Wrote w.old w.new (nodes_events (counts_nodes (n ∷ [])))) }
{
    leaf(w, b"el", Buffer::new().format(n).as_bytes())
}

/// How many entries stand before this row.
fn entries_before(entries: &[Entry], row: usize) -> usize
    requires { IsAscending entries.now }
    ensures { result ≡ entries_below row entries.now }
{
    entries.partition_point(|e| (e.row as usize) < row)
}

/// Tells where each row begins among the entries, and where the last one ends.
fn tell_starts(w: &mut TextWriter, entries: &[Entry], rows: usize) -> Result<(), Memory>
    requires { IsAscending entries.now }
    ensures { OnOk result (Wrote w.old w.new (nodes_events (tree.element (codes "start") [] (counts_nodes (row_starts entries.now 0 rows)) none))) }
{
    w.begin(b"start")?;
    for row in 0..rows {
        tell_count(w, entries_before(entries, row))?;
    }
    tell_count(w, entries_before(entries, rows))?;
    w.end(b"start")
}

/// Tells the column of each entry.
fn tell_columns(w: &mut TextWriter, entries: &[Entry]) -> Result<(), Memory>
    ensures { OnOk result (Wrote w.old w.new (nodes_events (tree.element (codes "colIdx") [] (counts_nodes (map (λ e. e.col) entries.now)) none))) }
{
    w.begin(b"colIdx")?;
    for entry in entries {
        tell_count(w, entry.col as usize)?;
    }
    w.end(b"colIdx")
}

/// Tells the value of an entry.
fn tell_value(alloc: Global, w: &mut TextWriter, entry: &Entry) -> Result<(), EncodeFault>
    ensures { WritesNodes result w.old w.new (HasDecimal entry.now.value) (WriteValues (entry.now ∷ [])) }
{
    let text = decimal(alloc, entry.value)?;
    leaf(w, b"el", text.as_slice())?;
    Ok(())
}

/// Tells the value of each entry.
fn tell_values(alloc: Global, w: &mut TextWriter, entries: &[Entry]) -> Result<(), EncodeFault>
    ensures { WritesNodes result w.old w.new (All (λ e. HasDecimal e.value) entries.now) (λ nodes. (inner : Nodes) × WriteValues entries.now inner × (nodes ≡ tree.element (codes "value") [] inner none)) }
{
    w.begin(b"value")?;
    for entry in entries {
        tell_value(alloc, w, entry)?;
    }
    w.end(b"value")?;
    Ok(())
}

/// Tells the three lists of the matrix, or nothing where it is empty.
fn tell_lists(
    alloc: Global,
    w: &mut TextWriter,
    entries: &[Entry],
    rows: usize,
) -> Result<(), EncodeFault>
    requires { IsAscending entries.now }
    ensures { WritesNodes result w.old w.new (All (λ e. HasDecimal e.value) entries.now) (WriteLists rows entries.now) }
{
    if entries.is_empty() {
        return Ok(());
    }
    tell_starts(w, entries, rows)?;
    tell_columns(w, entries)?;
    tell_values(alloc, w, entries)?;
    Ok(())
}

/// Tells the matrix, rows one after another.
fn tell_matrix(
    alloc: Global,
    w: &mut TextWriter,
    entries: &[Entry],
    rows: usize,
) -> Result<(), EncodeFault>
    requires { IsAscending entries.now }
    ensures { WritesNodes result w.old w.new (All (λ e. HasDecimal e.value) entries.now) (λ nodes. (inner : Nodes) × WriteLists rows entries.now inner × (nodes ≡ counted_element (codes "linearConstraintCoefficients") (codes "numberOfValues") (length entries.now) inner none)) }
{
    let name = b"linearConstraintCoefficients";
    open_counted(w, name, b"numberOfValues", entries.len())?;
    tell_lists(alloc, w, entries, rows)?;
    w.end(name)?;
    Ok(())
}

/// Tells the root that an instance is written as.
fn tell_instance(alloc: Global, w: &mut TextWriter, instance: &Instance) -> Result<(), EncodeFault>
    ensures { MatchResult result (λ _. HasDecimals instance.now × (root : Element) × WritesInstance instance.now root × WroteRoot w.old w.new root) (LacksDecimal (HasDecimals instance.now)) }
{
    let rows = instance.rows();
    w.begin(b"osil")?;
    w.attribute(b"xmlns", b"os.optimizationservices.org")?;
    w.begin(b"instanceHeader")?;
    w.end(b"instanceHeader")?;
    w.begin(b"instanceData")?;
    tell_vars(alloc, w, instance.vars())?;
    tell_goals(alloc, w, instance.goals())?;
    tell_rows(alloc, w, rows)?;
    tell_matrix(alloc, w, instance.entries(), rows.len())?;
    w.end(b"instanceData")?;
    w.end(b"osil")?;
    Ok(())
}

/// The text that an instance is written as: an OSiL document.
///
/// [`EncodeFault::NotDecimal`] exactly where a number of it has no decimal, and else [`EncodeFault::Long`] exactly
/// where the text is longer than a document may be. There is one such text
/// ([`instances_have_one_text`](crate::instances_have_one_text)), and the document that it is
/// ([`written_instance_is_document`](crate::written_instance_is_document)) stands for the instance
/// ([`written_root_means_instance`](crate::written_root_means_instance)).
pub fn encode(alloc: Global, instance: &Instance) -> Result<Text, EncodeFault>
    ensures ok { IfOk result (λ text. IsWrittenText instance.now text) }
    ensures short { IfOk result (λ text. length text ≤ document_limit) }
    ensures decimals { IfOk result (λ text. HasDecimals instance.now) }
    ensures err { IfErr result (EncodeFails instance.now) }
{
    let mut w = TextWriter::new(alloc)?;
    // Where the text has become too long this goes on, since a number without a decimal is told first.
    tell_instance(alloc, &mut w, instance)?;
    match w.finish() {
        Some(text) => Ok(text),
        None => Err(EncodeFault::Long),
    }
}
