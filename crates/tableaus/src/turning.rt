//! Exchanges of columns, one after another.
ghost use Rattle.std.specs.Prelude.{◌≡◌, ℕ, ◌+◌, ◌≤◌, ◌<◌, length, IfOk, IfSome};
ghost use Rattle.bases.specs.Dictionary.{Entries};
ghost use Rattle.dictionary.specs.Dict.{width_of, height_of, count_of, IsLoaded, Holds, IsBasic, IsNonbasic};
ghost use Rattle.tableaus.specs.Dictionaries.{HoldsProgram, KeepsProgram};

use crate::reading::Exchange;
use crate::telling::{Size, is_basic, is_nonbasic, put_dictionary, put_goal, put_number};
use decimal_text::write_ratio;
use dictionary::{Dict, Places, Steps};
use fraction::{Frac, Wide};
use instance::Instance;
use itoa::Buffer;
use os_io::{Memory, Text};
use std::alloc::Global;
use std::marker::Brand;
use std::sync::ledger::{Blank, Ledger};

/// What became of exchanges.
#[derive(Clone, Copy)]
enum Turned {
    All,
    /// The exchange of this number is none: its columns aren't a basic one and another, or the entry is 0.
    Never(usize),
    /// A number of this exchange doesn't fit.
    Wide(usize),
}

fn size_of(instance: &Instance) -> Size
    ensures width { result.width ≡ length instance.now.vars }
    ensures height { result.height ≡ length instance.now.rows }
{
    let width = instance.vars().len() as u32;
    let height = instance.rows().len() as u32;
    Size { width, height }
}

/// A dictionary with room for the program.
fn dict_for<L: Ledger>(alloc: Global, instance: &Instance) -> Result<Dict<L>, Memory>
    ensures width { IfOk result (λ dict. width_of dict ≡ length instance.now.vars) }
    ensures height { IfOk result (λ dict. height_of dict ≡ length instance.now.rows) }
{
    let size = size_of(instance);
    Dict::with_size(alloc, size.width, size.height)
}

fn load<L: Ledger>(dict: &mut Dict<L>, instance: &Instance, factor: i8, steps: &mut Steps<L>)
    requires width { width_of dict.old ≡ length instance.now.vars }
    requires height { height_of dict.old ≡ length instance.now.rows }
    ensures width { width_of dict.new ≡ width_of dict.old }
    ensures height { height_of dict.new ≡ height_of dict.old }
    ensures held { HoldsProgram dict.new }
{
    let entries = instance.entries();
    let goal = instance.first_goal();
    dict.load(entries, goal.costs.as_slice(), factor, steps);
}

/// One exchange: whether it is one.
fn turn<L: Ledger>(
    dict: &mut Dict<L>,
    size: Size,
    basic: u32,
    nonbasic: u32,
    steps: &mut Steps<L>,
) -> Result<bool, Wide>
    requires width { width_of dict.old ≡ size.width }
    requires height { height_of dict.old ≡ size.height }
    requires held { HoldsProgram dict.old }
    ensures width { width_of dict.new ≡ width_of dict.old }
    ensures height { height_of dict.new ≡ height_of dict.old }
    ensures held { IfOk result (λ _. HoldsProgram dict.new) }
{
    if !is_basic(dict, size, basic) || !is_nonbasic(dict, size, nonbasic) {
        return Ok(false);
    }
    if dict.entry(basic, nonbasic, steps).numer == 0 {
        return Ok(false);
    }
    dict.pivot(basic, nonbasic, steps)?;
    Ok(true)
}

fn turn_all<L: Ledger>(
    dict: &mut Dict<L>,
    size: Size,
    turns: &[Exchange],
    steps: &mut Steps<L>,
) -> Turned
    requires width { width_of dict.old ≡ size.width }
    requires height { height_of dict.old ≡ size.height }
    requires held { HoldsProgram dict.old }
    ensures width { width_of dict.new ≡ width_of dict.old }
    ensures height { height_of dict.new ≡ height_of dict.old }
    ensures held { KeepsProgram result dict.new }
{
    for k in 0..turns.len() {
        let it = turns[k];
        match turn(dict, size, it.basic, it.nonbasic, steps) {
            Ok(true) => {}
            Ok(false) => return Turned::Never(k),
            Err(_) => return Turned::Wide(k),
        }
    }
    Turned::All
}

/// A program loaded and its columns exchanged so often, each time from the beginning, and what became of it the last time.
fn turn_often<L: Ledger>(
    dict: &mut Dict<L>,
    instance: &Instance,
    factor: i8,
    turns: &[Exchange],
    rounds: u32,
    steps: &mut Steps<L>,
) -> Turned
    requires width { width_of dict.old ≡ length instance.now.vars }
    requires height { height_of dict.old ≡ length instance.now.rows }
    ensures width { width_of dict.new ≡ width_of dict.old }
    ensures height { height_of dict.new ≡ height_of dict.old }
    ensures held { KeepsProgram result dict.new }
{
    let size = size_of(instance);
    for _ in 1..rounds {
        load(dict, instance, factor, steps);
        turn_all(dict, size, turns, steps);
    }
    load(dict, instance, factor, steps);
    turn_all(dict, size, turns, steps)
}

fn put_turned(text: &mut Text, word: &[u8], count: usize) -> Result<(), Memory> {
    text.extend(word)?;
    text.extend(Buffer::new().format(count).as_bytes())?;
    text.extend(b" then ")
}

/// Puts what a dictionary with room for the program says after the exchanges.
fn put_exchanged<L: Ledger>(
    text: &mut Text,
    dict: &mut Dict<L>,
    instance: &Instance,
    factor: i8,
    turns: &[Exchange],
    steps: &mut Steps<L>,
) -> Result<(), Memory>
    requires width { width_of dict.old ≡ length instance.now.vars }
    requires height { height_of dict.old ≡ length instance.now.rows }
{
    match turn_often(dict, instance, factor, turns, 1, steps) {
        Turned::All => {}
        Turned::Never(count) => put_turned(text, b"none at ", count)?,
        Turned::Wide(count) => {
            put_turned(text, b"wide at ", count)?;
            load(dict, instance, factor, steps);
        }
    }
    put_dictionary(text, dict, size_of(instance), steps)
}

fn tell_turned_by<L: Ledger>(
    alloc: Global,
    instance: &Instance,
    factor: i8,
    turns: &[Exchange],
    blank: Blank,
) -> Result<Text, Memory>
    requires name { blank.name ≡ L.name }
    requires parts { blank.parts ≡ L.parts }
    requires some { 0 < blank.parts }
{
    let mut steps = Steps::<L>::new(blank);
    let mut dict = dict_for(alloc, instance)?;
    let mut text = Text::new(alloc);
    put_exchanged(&mut text, &mut dict, instance, factor, turns, &mut steps)?;
    Ok(text)
}

/// What the dictionary says after the exchanges. Where one can't be made, this says so; where a number doesn't fit, the
/// program is loaded anew.
pub fn tell_turned(
    alloc: Global,
    instance: &Instance,
    factor: i8,
    turns: &[Exchange],
) -> Result<Text, Memory> {
    tell_turned_by::<Brand>(alloc, instance, factor, turns, Blank::new(1))
}

/// Values for the first columns.
fn read_places(alloc: Global, values: &[Frac]) -> Result<Places, Memory>
    ensures { IfOk result (λ p. count_of p ≡ length values.now) }
{
    let mut places = Places::with_size(alloc, values.len())?;
    let mut column: u32 = 0;
    for value in values {
        if (column as usize) < places.count() {
            places.set(column, *value);
        }
        column = column.saturating_add(1);
    }
    Ok(places)
}

fn put_values<L: Ledger>(
    text: &mut Text,
    dict: &Dict<L>,
    size: Size,
    places: &Places,
    steps: &mut Steps<L>,
) -> Result<(), Memory>
    requires loaded { IsLoaded dict.now }
    requires width { width_of dict.now ≡ size.width }
    requires height { height_of dict.now ≡ size.height }
    requires places { size.width + size.height ≤ count_of places.now }
{
    for column in 0..size.width + size.height {
        if is_basic(dict, size, column) {
            put_number(text, column)?;
            text.push(b'=')?;
            match dict.value_of(column, places, steps) {
                Ok(value) => write_ratio(value, text)?,
                Err(_) => text.extend(b"wide")?,
            }
            text.push(b' ')?;
        }
    }
    Ok(())
}

/// Puts the values of the basic columns, where the first columns have these.
fn put_placed<L: Ledger>(
    alloc: Global,
    text: &mut Text,
    dict: &Dict<L>,
    size: Size,
    values: &[Frac],
    steps: &mut Steps<L>,
) -> Result<(), Memory>
    requires loaded { IsLoaded dict.now }
    requires width { width_of dict.now ≡ size.width }
    requires height { height_of dict.now ≡ size.height }
{
    if values.len() < (size.width + size.height) as usize {
        return text.extend(b"too few values");
    }
    let places = read_places(alloc, values)?;
    put_values(text, dict, size, &places, steps)
}

fn tell_values_by<L: Ledger>(
    alloc: Global,
    instance: &Instance,
    factor: i8,
    turns: &[Exchange],
    values: &[Frac],
    blank: Blank,
) -> Result<Text, Memory>
    requires name { blank.name ≡ L.name }
    requires parts { blank.parts ≡ L.parts }
    requires some { 0 < blank.parts }
{
    let mut steps = Steps::<L>::new(blank);
    let mut dict = dict_for(alloc, instance)?;
    let mut text = Text::new(alloc);
    match turn_often(&mut dict, instance, factor, turns, 1, &mut steps) {
        Turned::All => put_placed(
            alloc,
            &mut text,
            &dict,
            size_of(instance),
            values,
            &mut steps,
        )?,
        _ => text.extend(b"not turned")?,
    }
    Ok(text)
}

/// The values of the basic columns after the exchanges, where the others have these.
pub fn tell_values(
    alloc: Global,
    instance: &Instance,
    factor: i8,
    turns: &[Exchange],
    values: &[Frac],
) -> Result<Text, Memory> {
    tell_values_by::<Brand>(alloc, instance, factor, turns, values, Blank::new(1))
}

fn tell_goal_by<L: Ledger>(
    alloc: Global,
    instance: &Instance,
    factor: i8,
    turns: &[Exchange],
    rounds: u32,
    blank: Blank,
) -> Result<Text, Memory>
    requires name { blank.name ≡ L.name }
    requires parts { blank.parts ≡ L.parts }
    requires some { 0 < blank.parts }
{
    let mut steps = Steps::<L>::new(blank);
    let mut dict = dict_for(alloc, instance)?;
    let mut text = Text::new(alloc);
    match turn_often(&mut dict, instance, factor, turns, rounds, &mut steps) {
        Turned::All => put_goal(&mut text, &dict, size_of(instance), &mut steps)?,
        _ => text.extend(b"not turned")?,
    }
    Ok(text)
}

/// The goal's equation after the exchanges, which are made so often, each time from the beginning.
pub fn tell_goal(
    alloc: Global,
    instance: &Instance,
    factor: i8,
    turns: &[Exchange],
    rounds: u32,
) -> Result<Text, Memory> {
    tell_goal_by::<Brand>(alloc, instance, factor, turns, rounds, Blank::new(1))
}
