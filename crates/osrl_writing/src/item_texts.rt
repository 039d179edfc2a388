//! The texts of a certificate's items.

ghost use Rattle.std.specs.Prelude.{◌≡◌, ◌++◌, OnOk, IfOk, flat_map, decimal};
ghost use Rattle.decimal_text.specs.Exact.{ratio_text};
ghost use Rattle.fraction.specs.Frac.{ratio};
ghost use Rattle.certificate.specs.declared.causes.Cause.TheVariants as causes;
ghost use Rattle.osrl_writing.specs.Writing as writing;

use crate::words::Worded;
use certificate::{Cause, Mult, Node, Place, Round};
use decimal_text::write_ratio;
use fraction::Frac;
use itoa::Buffer;
use os_io::{Memory, Text};
use std::alloc::Global;

/// Appends a column and its multiplier behind a space.
fn push_mult(text: &mut Text, mult: Mult) -> Result<(), Memory>
    ensures { OnOk result (text.new ≡ text.old ++ writing.mult_text mult) }
{
    text.push(b' ')?;
    text.extend(Buffer::new().format(mult.col).as_bytes())?;
    text.push(b':')?;
    write_ratio(mult.value, text)
}

/// Appends multipliers.
fn push_mults(text: &mut Text, mults: &[Mult]) -> Result<(), Memory>
    ensures { OnOk result (text.new ≡ text.old ++ flat_map writing.mult_text mults.now) }
{
    for mult in mults {
        push_mult(text, *mult)?;
    }
    Ok(())
}

/// A word, and multipliers behind it.
fn mults_text(alloc: Global, word: &[u8], mults: &[Mult]) -> Result<Text, Memory>
    ensures { IfOk result (λ t. t ≡ word.now ++ flat_map writing.mult_text mults.now) }
{
    let mut text = Text::from_slice(alloc, word)?;
    push_mults(&mut text, mults)?;
    Ok(text)
}

/// The text of a leaf on the goal's grid, whose word has a space behind it.
fn grid_text(alloc: Global, word: &[u8], step: Frac, mults: &[Mult]) -> Result<Text, Memory>
    ensures { IfOk result (λ t. t ≡ word.now ++ (ratio_text (ratio step) ++ flat_map writing.mult_text mults.now)) }
{
    let mut text = Text::from_slice(alloc, word)?;
    write_ratio(step, &mut text)?;
    push_mults(&mut text, mults)?;
    Ok(text)
}

/// The text of a round.
pub(crate) fn round_text(alloc: Global, round: &Round) -> Result<Text, Memory>
    ensures { IfOk result (λ t. t ≡ writing.round_text round.now) }
{
    match round {
        Round::Whole(mults) => mults_text(alloc, b"round", mults.as_slice()),
        Round::OfRows(mults) => mults_text(alloc, b"roundRows", mults.as_slice()),
    }
}

/// The text of what begins a level.
pub(crate) fn level_text(alloc: Global, level: usize) -> Result<Text, Memory>
    ensures { IfOk result (λ t. t ≡ writing.level_text level) }
{
    let mut text = Text::from_slice(alloc, b"level ")?;
    text.extend(Buffer::new().format(level).as_bytes())?;
    Ok(text)
}

/// The text of a node.
pub(crate) fn node_text(alloc: Global, node: &Node) -> Result<Text, Memory>
    ensures { IfOk result (λ t. t ≡ writing.node_text node.now) }
{
    match node {
        Node::Split { col, k } => {
            let mut text = Text::from_slice(alloc, b"split ")?;
            text.extend(Buffer::new().format(*col).as_bytes())?;
            text.push(b' ')?;
            text.extend(Buffer::new().format(*k).as_bytes())?;
            Ok(text)
        }
        Node::Zero { col } => counted_text(alloc, b"zero ", *col),
        Node::Clash { col } => counted_text(alloc, b"clash ", *col),
        Node::Farkas(mults) => mults_text(alloc, b"farkas", mults.as_slice()),
        Node::Bound(mults) => mults_text(alloc, b"bound", mults.as_slice()),
        Node::Grid { step, mults } => grid_text(alloc, b"grid ", *step, mults.as_slice()),
        Node::FarkasRows(mults) => mults_text(alloc, b"farkasRows", mults.as_slice()),
        Node::BoundRows(mults) => mults_text(alloc, b"boundRows", mults.as_slice()),
        Node::GridRows { step, mults } => {
            grid_text(alloc, b"gridRows ", *step, mults.as_slice())
        }
    }
}

/// A word, and a number behind it.
fn counted_text(alloc: Global, word: &[u8], n: u32) -> Result<Text, Memory>
    ensures { IfOk result (λ t. t ≡ word.now ++ decimal n) }
{
    let mut text = Text::from_slice(alloc, word)?;
    text.extend(Buffer::new().format(n).as_bytes())?;
    Ok(text)
}

/// The text of a time that was over, in seconds.
fn time_text(alloc: Global, seconds: Frac) -> Result<Text, Memory>
    ensures { IfOk result (λ t. t ≡ writing.cause_text (causes.TimeLimit seconds)) }
{
    let mut text = Text::from_slice(alloc, b"timeLimit ")?;
    write_ratio(seconds, &mut text)?;
    Ok(text)
}

/// The text of the place where a number was too wide.
fn wide_text(alloc: Global, place: Place) -> Result<Text, Memory>
    ensures { IfOk result (λ t. t ≡ writing.cause_text (causes.Wide place)) }
{
    let mut text = counted_text(alloc, b"wide ", place.node)?;
    text.push(b' ')?;
    text.extend(Buffer::new().format(place.turn).as_bytes())?;
    text.push(b' ')?;
    text.extend(place.step.word())?;
    Ok(text)
}

/// The text of a cause.
pub(crate) fn cause_text(alloc: Global, cause: Cause) -> Result<Text, Memory>
    ensures { IfOk result (λ t. t ≡ writing.cause_text cause) }
{
    match cause {
        Cause::Killed => Text::from_slice(alloc, b"killed"),
        Cause::NodeLimit(n) => counted_text(alloc, b"nodeLimit ", n),
        Cause::TurnLimit(n) => counted_text(alloc, b"turnLimit ", n),
        Cause::Gap => Text::from_slice(alloc, b"gap"),
        Cause::TimeLimit(seconds) => time_text(alloc, seconds),
        Cause::Wide(place) => wide_text(alloc, place),
        Cause::Length => Text::from_slice(alloc, b"length"),
        Cause::Memory => Text::from_slice(alloc, b"memory"),
    }
}
