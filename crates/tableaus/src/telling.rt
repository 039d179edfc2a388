//! What a dictionary says, as a text.
ghost use Rattle.std.specs.Prelude.{◌≡◌, ◌≤◌, IsTrue};
ghost use Rattle.dictionary.specs.Dict.{width_of, height_of, IsLoaded, IsBasic, IsNonbasic};

use decimal_text::write_ratio;
use dictionary::{Dict, Steps};
use fraction::Frac;
use itoa::Buffer;
use os_io::{Memory, Text};
use std::sync::ledger::Ledger;

/// How many variables and rows a dictionary has.
#[derive(Clone, Copy)]
pub struct Size {
    pub width: u32,
    pub height: u32,
    ghost few: { width ≤ 1000 },
    ghost short: { height ≤ 1000 },
}

/// Puts a count.
pub fn put_count(text: &mut Text, count: u64) -> Result<(), Memory> {
    text.extend(Buffer::new().format(count).as_bytes())
}

pub fn put_number(text: &mut Text, number: u32) -> Result<(), Memory> {
    put_count(text, number as u64)
}

/// Whether the column is basic.
pub fn is_basic<L: Ledger>(dict: &Dict<L>, size: Size, column: u32) -> bool
    requires { height_of dict.now ≡ size.height }
    ensures { IsTrue result → IsBasic dict.now column }
{
    for i in 0..size.height {
        if dict.basic_at(i) == column {
            return true;
        }
    }
    false
}

/// Whether the column is one that isn't basic.
pub fn is_nonbasic<L: Ledger>(dict: &Dict<L>, size: Size, column: u32) -> bool
    requires { width_of dict.now ≡ size.width }
    ensures { IsTrue result → IsNonbasic dict.now column }
{
    for j in 0..size.width {
        let at = dict.nonbasic_at(j);
        if at == column {
            return true;
        }
    }
    false
}

/// Puts ` COLUMN*VALUE`, where the value isn't 0.
fn put_entry(text: &mut Text, column: u32, value: Frac) -> Result<(), Memory> {
    if value.numer == 0 {
        return Ok(());
    }
    text.push(b' ')?;
    put_number(text, column)?;
    text.push(b'*')?;
    write_ratio(value, text)
}

/// Puts the equation of a basic column, by ascending columns.
fn put_equation<L: Ledger>(
    text: &mut Text,
    dict: &Dict<L>,
    size: Size,
    basic: u32,
    steps: &mut Steps<L>,
) -> Result<(), Memory>
    requires loaded { IsLoaded dict.now }
    requires width { width_of dict.now ≡ size.width }
    requires basic { IsBasic dict.now basic }
{
    put_number(text, basic)?;
    text.push(b':')?;
    for column in 0..size.width + size.height {
        if is_nonbasic(dict, size, column) {
            put_entry(text, column, dict.entry(basic, column, steps))?;
        }
    }
    text.extend(b"; ")
}

/// Puts the goal's equation.
pub fn put_goal<L: Ledger>(
    text: &mut Text,
    dict: &Dict<L>,
    size: Size,
    steps: &mut Steps<L>,
) -> Result<(), Memory>
    requires loaded { IsLoaded dict.now }
    requires width { width_of dict.now ≡ size.width }
{
    text.extend(b"goal:")?;
    for column in 0..size.width + size.height {
        if is_nonbasic(dict, size, column) {
            put_entry(text, column, dict.cost(column, steps))?;
        }
    }
    Ok(())
}

/// All equations, by ascending basic columns, and last the goal's.
pub fn put_dictionary<L: Ledger>(
    text: &mut Text,
    dict: &Dict<L>,
    size: Size,
    steps: &mut Steps<L>,
) -> Result<(), Memory>
    requires loaded { IsLoaded dict.now }
    requires width { width_of dict.now ≡ size.width }
    requires height { height_of dict.now ≡ size.height }
{
    for column in 0..size.width + size.height {
        if is_basic(dict, size, column) {
            put_equation(text, dict, size, column, steps)?;
        }
    }
    put_goal(text, dict, size, steps)
}
