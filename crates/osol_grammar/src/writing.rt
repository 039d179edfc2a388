//! Writes options.

ghost use Rattle.std.specs.Prelude.{◌≡◌, [], OnOk, IfOk};
ghost use Rattle.tree_grammar.specs.Elements.{none, nodes_events};
ghost use Rattle.document_tags.specs.Telling.{Told, whole_element};
ghost use Rattle.osol_grammar.specs.Limits.{form_word, amount_text};
ghost use Rattle.osol_grammar.specs.Writing as writing;

use crate::gaps::{Gap, gap_text};
use crate::limit::{LIMITS, Limit};
use crate::options::Options;
use crate::values::Values;
use decimal_text::write_ratio;
use document_tags::{attribute, close, leaf, open, open_after, open_with, told_text};
use element_tree::TreeBuilder;
use fraction::Frac;
use itoa::Buffer;
use os_io::{Memory, Text};
use std::alloc::Global;

/// Tells the job's name, if there is one.
fn tell_job(b: &mut TreeBuilder, job: &Option<Text>) -> Result<(), Memory>
    requires { b.old.attributes ≡ [] }
    ensures { OnOk result (Told b.old b.new (λ k. nodes_events (writing.job_nodes job.now none) k)) }
{
    let Some(job) = job else {
        return Ok(());
    };
    open(b, b"general")?;
    leaf(b, b"jobID", job.as_slice())?;
    close(b, b"general")
}

/// Tells the time, if there is one.
fn tell_time(alloc: Global, b: &mut TreeBuilder, seconds: Option<Frac>) -> Result<(), Memory>
    requires { b.old.attributes ≡ [] }
    ensures { OnOk result (Told b.old b.new (λ k. nodes_events (writing.time_nodes seconds none) k)) }
{
    let Some(seconds) = seconds else {
        return Ok(());
    };
    let mut text = Text::new(alloc);
    write_ratio(seconds, &mut text)?;
    open(b, b"job")?;
    leaf(b, b"maxTime", text.as_slice())?;
    close(b, b"job")
}

/// Tells the first value of a variable, if there is one.
fn tell_value(
    alloc: Global,
    b: &mut TreeBuilder,
    index: usize,
    value: Option<Frac>,
) -> Result<(), Memory>
    requires { b.old.attributes ≡ [] }
    ensures { OnOk result (Told b.old b.new (λ k. nodes_events (writing.value_nodes index value none) k)) }
{
    let Some(value) = value else {
        return Ok(());
    };
    let mut text = Text::new(alloc);
    write_ratio(value, &mut text)?;
    let mut number = Buffer::new();
    attribute(b, b"idx", number.format(index).as_bytes())?;
    open_after(b, b"var", b"value", text.as_slice())?;
    close(b, b"var")
}

/// Tells the first values of all variables that have one.
fn tell_values(alloc: Global, b: &mut TreeBuilder, values: &[Option<Frac>]) -> Result<(), Memory>
    requires { b.old.attributes ≡ [] }
    ensures { OnOk result (Told b.old b.new (nodes_events (writing.values_nodes 0 values.now))) }
{
    for index in 0..values.len() {
        tell_value(alloc, b, index, values[index])?;
    }
    Ok(())
}

/// Tells the first values, if there are any.
fn tell_first(alloc: Global, b: &mut TreeBuilder, first: &Option<Values>) -> Result<(), Memory>
    requires { b.old.attributes ≡ [] }
    ensures { OnOk result (Told b.old b.new (λ k. nodes_events (writing.first_nodes first.now none) k)) }
{
    let Some(first) = first else {
        return Ok(());
    };
    open(b, b"variables")?;
    open(b, b"initialVariableValues")?;
    tell_values(alloc, b, first.as_slice())?;
    close(b, b"initialVariableValues")?;
    close(b, b"variables")
}

/// Whether the option of a limit is written.
fn is_told(options: &Options, limit: Limit) -> bool
    ensures { result ≡ writing.is_told options.now limit }
{
    let row = limit.row();
    row.always || options.amount(limit) != row.default
}

/// The word that says a form.
fn word_of(form: u32) -> &'static [u8]
    ensures { result.now ≡ form_word form }
{
    match form {
        0 => b"whole",
        _ => b"rows",
    }
}

/// The text that says an amount.
fn text_of(limit: Limit, amount: u32, digits: &mut Buffer) -> &[u8]
    ensures { result.now ≡ amount_text limit amount }
{
    match limit {
        Limit::Form => word_of(amount),
        Limit::Nodes | Limit::Turns | Limit::Rounds | Limit::Names | Limit::Bound => {
            digits.format(amount).as_bytes()
        }
    }
}

/// Tells an option.
fn tell_option(b: &mut TreeBuilder, name: &[u8], value: &[u8]) -> Result<(), Memory>
    requires { b.old.attributes ≡ [] }
    ensures { OnOk result (Told b.old b.new (λ k. nodes_events (writing.option_node name.now value.now none) k)) }
{
    attribute(b, b"name", name)?;
    attribute(b, b"value", value)?;
    open_after(b, b"solverOption", b"solver", b"os_cert")?;
    close(b, b"solverOption")
}

/// Tells the option of a limit.
fn tell_limit(b: &mut TreeBuilder, options: &Options, limit: Limit) -> Result<(), Memory>
    requires { b.old.attributes ≡ [] }
    ensures { OnOk result (Told b.old b.new (λ k. nodes_events (writing.limit_node options.now limit none) k)) }
{
    let mut digits = Buffer::new();
    let value = text_of(limit, options.amount(limit), &mut digits);
    tell_option(b, limit.row().name, value)
}

/// Tells the options of all limits that are written.
fn tell_limits(b: &mut TreeBuilder, options: &Options) -> Result<(), Memory>
    requires { b.old.attributes ≡ [] }
    ensures { OnOk result (Told b.old b.new (λ k. nodes_events (writing.limit_nodes options.now none) k)) }
{
    for limit in LIMITS {
        if is_told(options, limit) {
            tell_limit(b, options, limit)?;
        }
    }
    Ok(())
}

/// Tells the option of the gap, if there is one.
fn tell_gap(alloc: Global, b: &mut TreeBuilder, gap: Option<Gap>) -> Result<(), Memory>
    requires { b.old.attributes ≡ [] }
    ensures { OnOk result (Told b.old b.new (λ k. nodes_events (writing.gap_nodes gap none) k)) }
{
    let Some(gap) = gap else {
        return Ok(());
    };
    let value = gap_text(alloc, gap)?;
    tell_option(b, b"gap", value.as_slice())
}

/// Tells a whole document.
fn tell_options(alloc: Global, b: &mut TreeBuilder, options: &Options) -> Result<(), Memory>
    requires { b.old.attributes ≡ [] }
    ensures { OnOk result (Told b.old b.new (whole_element (writing.options_element options.now))) }
{
    open_with(b, b"osol", b"xmlns", b"os.optimizationservices.org")?;
    tell_job(b, &options.job)?;
    tell_time(alloc, b, options.seconds)?;
    open(b, b"optimization")?;
    tell_first(alloc, b, &options.first)?;
    open(b, b"solverOptions")?;
    tell_limits(b, options)?;
    tell_gap(alloc, b, options.gap)?;
    close(b, b"solverOptions")?;
    close(b, b"optimization")?;
    close(b, b"osol")
}

/// The text of options: a document with the namespace of the option language, the job's name, the time and the first values where there are
/// any, the option of each limit, those of rounds, of names, of the form and of a bound only where they aren't as without them, and that
/// of the gap where there is one.
pub fn encode(alloc: Global, options: &Options) -> Result<Text, Memory>
    ensures { IfOk result (λ text. text ≡ writing.options_text options.now) }
{
    let mut b = TreeBuilder::new(alloc);
    tell_options(alloc, &mut b, options)?;
    told_text(alloc, b)
}
