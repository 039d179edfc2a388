//! Tells the parts of a claim's certificate.

ghost use Rattle.std.specs.Prelude.{◌≡◌, ◌++◌, [], ◌∷◌, OnOk, map, codes};
ghost use Rattle.tree_grammar.specs.Elements.{none, nodes_events};
ghost use Rattle.document_tags.specs.Writing as nodes;
ghost use Rattle.osrl_writing.specs.Writing as writing;
ghost use Rattle.osrl_writing.specs.Words as named;
ghost use Rattle.document_tags.specs.Telling.{Told, opening};

use crate::item_texts::{cause_text, level_text, node_text, round_text};
use crate::parts::{Part, part_name};
use certificate::{Cause, Cert, Node, ProvedBound, Round};
use decimal_text::write_ratio;
use document_tags::{close, leaf, open_with};
use element_tree::TreeBuilder;
use fraction::Frac;
use os_io::{Memory, Text};
use std::alloc::Global;
use std::slice::from_ref;

/// Tells an item that holds a number.
fn tell_fraction(alloc: Global, b: &mut TreeBuilder, value: Frac) -> Result<(), Memory>
    requires { b.old.attributes ≡ [] }
    ensures { OnOk result (Told b.old b.new (nodes_events (writing.item_nodes (writing.fraction_texts (value ∷ []))))) }
{
    let mut text = Text::new(alloc);
    write_ratio(value, &mut text)?;
    leaf(b, b"item", text.as_slice())
}

/// Tells items that hold numbers.
fn tell_fractions(alloc: Global, b: &mut TreeBuilder, values: &[Frac]) -> Result<(), Memory>
    requires { b.old.attributes ≡ [] }
    ensures { OnOk result (Told b.old b.new (nodes_events (writing.item_nodes (writing.fraction_texts values.now)))) }
{
    for value in values {
        tell_fraction(alloc, b, *value)?;
    }
    Ok(())
}

/// Tells items that hold nodes.
fn tell_nodes(alloc: Global, b: &mut TreeBuilder, nodes: &[Node]) -> Result<(), Memory>
    requires { b.old.attributes ≡ [] }
    ensures { OnOk result (Told b.old b.new (nodes_events (writing.item_nodes (map writing.node_text nodes.now)))) }
{
    for node in nodes {
        let text = node_text(alloc, node)?;
        leaf(b, b"item", text.as_slice())?;
    }
    Ok(())
}

/// Begins a part.
fn open_part(b: &mut TreeBuilder, part: Part) -> Result<(), Memory>
    requires { b.old.attributes ≡ [] }
    ensures { OnOk result (Told b.old b.new (opening (codes "otherSolutionResult") (nodes.only (codes "name") (named.part_name part)))) }
{
    open_with(b, b"otherSolutionResult", b"name", part_name(part))
}

/// Tells a part that holds numbers.
pub(crate) fn tell_numbers(
    alloc: Global,
    b: &mut TreeBuilder,
    part: Part,
    values: &[Frac],
) -> Result<(), Memory>
    requires { b.old.attributes ≡ [] }
    ensures { OnOk result (Told b.old b.new (λ k. nodes_events (writing.certificate_part part (writing.fraction_texts values.now) none) k)) }
{
    open_part(b, part)?;
    tell_fractions(alloc, b, values)?;
    close(b, b"otherSolutionResult")
}

/// Tells items that hold rounds.
fn tell_round_items(alloc: Global, b: &mut TreeBuilder, rounds: &[Round]) -> Result<(), Memory>
    requires { b.old.attributes ≡ [] }
    ensures { OnOk result (Told b.old b.new (nodes_events (writing.item_nodes (map writing.round_text rounds.now)))) }
{
    for round in rounds {
        let text = round_text(alloc, round)?;
        leaf(b, b"item", text.as_slice())?;
    }
    Ok(())
}

/// Tells the rounds of a certificate, if it has some.
fn tell_rounds(alloc: Global, b: &mut TreeBuilder, rounds: &[Round]) -> Result<(), Memory>
    requires { b.old.attributes ≡ [] }
    ensures { OnOk result (Told b.old b.new (λ k. nodes_events (writing.rounds_part rounds.now none) k)) }
{
    if rounds.is_empty() {
        return Ok(());
    }
    open_part(b, Part::Rounds)?;
    tell_round_items(alloc, b, rounds)?;
    close(b, b"otherSolutionResult")
}

/// Tells a level and the nodes of its tree.
fn tell_level(
    alloc: Global,
    b: &mut TreeBuilder,
    level: usize,
    nodes: &[Node],
) -> Result<(), Memory>
    requires { b.old.attributes ≡ [] }
    ensures { OnOk result (Told b.old b.new (nodes_events (writing.item_nodes (writing.level_text level ∷ map writing.node_text nodes.now)))) }
{
    let text = level_text(alloc, level)?;
    leaf(b, b"item", text.as_slice())?;
    tell_nodes(alloc, b, nodes)
}

/// Tells the levels behind the first.
fn tell_levels(alloc: Global, b: &mut TreeBuilder, later: &[Cert]) -> Result<(), Memory>
    requires { b.old.attributes ≡ [] }
    ensures { OnOk result (Told b.old b.new (nodes_events (writing.item_nodes (writing.level_texts 2 later.now)))) }
{
    for i in 0..later.len() {
        tell_level(alloc, b, i + 2, later[i].nodes.as_slice())?;
    }
    Ok(())
}

/// Tells the first tree with its rounds, and those of the levels behind it.
pub(crate) fn tell_trees(
    alloc: Global,
    b: &mut TreeBuilder,
    first: &Cert,
    later: &[Cert],
) -> Result<(), Memory>
    requires { b.old.attributes ≡ [] }
    ensures { OnOk result (Told b.old b.new (λ k. nodes_events (writing.tree_parts first.now later.now) k)) }
{
    tell_rounds(alloc, b, first.rounds.as_slice())?;
    open_part(b, Part::Tree)?;
    tell_nodes(alloc, b, first.nodes.as_slice())?;
    tell_levels(alloc, b, later)?;
    close(b, b"otherSolutionResult")
}

/// Tells the trees of all levels, if there are some.
pub(crate) fn tell_certs(alloc: Global, b: &mut TreeBuilder, certs: &[Cert]) -> Result<(), Memory>
    requires { b.old.attributes ≡ [] }
    ensures { OnOk result (Told b.old b.new (λ k. nodes_events (writing.trees_parts certs.now) k)) }
{
    match certs.split_first() {
        Some((first, later)) => tell_trees(alloc, b, first, later),
        None => Ok(()),
    }
}

/// Tells why a search stopped.
pub(crate) fn tell_cause(alloc: Global, b: &mut TreeBuilder, cause: Cause) -> Result<(), Memory>
    requires { b.old.attributes ≡ [] }
    ensures { OnOk result (Told b.old b.new (λ k. nodes_events (writing.cause_part cause none) k)) }
{
    let text = cause_text(alloc, cause)?;
    open_part(b, Part::Cause)?;
    leaf(b, b"item", text.as_slice())?;
    close(b, b"otherSolutionResult")
}

/// Tells a bound, if there is one: its number, and the tree that shows it.
pub(crate) fn tell_bound(
    alloc: Global,
    b: &mut TreeBuilder,
    bound: &Option<ProvedBound>,
) -> Result<(), Memory>
    requires { b.old.attributes ≡ [] }
    ensures { OnOk result (Told b.old b.new (λ k. nodes_events (writing.bound_parts bound.now) k)) }
{
    let Some(bound) = bound else {
        return Ok(());
    };
    tell_numbers(alloc, b, Part::Bound, from_ref(&bound.number))?;
    tell_trees(alloc, b, &bound.cert, &[])
}

/// Tells a point and its values.
pub(crate) fn tell_point(
    alloc: Global,
    b: &mut TreeBuilder,
    point: &[Frac],
    values: &[Frac],
) -> Result<(), Memory>
    requires { b.old.attributes ≡ [] }
    ensures { OnOk result (Told b.old b.new (λ k. nodes_events (writing.point_parts point.now values.now none) k)) }
{
    tell_numbers(alloc, b, Part::Point, point)?;
    tell_numbers(alloc, b, Part::Value, values)
}
