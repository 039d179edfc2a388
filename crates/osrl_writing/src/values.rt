//! Tells the values that are for people: cut after twelve decimals.

ghost use Rattle.std.specs.Prelude.{◌≡◌, ◌↔◌, [], ◌∷◌, OnOk, IfOk, IsFalse, length, decimal};
ghost use Rattle.tree_grammar.specs.Elements.{none, nodes_events};
ghost use Rattle.fraction.specs.Frac.{ratio};
ghost use Rattle.osrl_writing.specs.Cuts as cuts;
ghost use Rattle.osrl_writing.specs.Labels.{Labels, name_at};
ghost use Rattle.osrl_writing.specs.Writing as writing;
ghost use Rattle.document_tags.specs.Telling.{Told, ToldAttributes};

use certificate::{Cert, Mult, Node};
use decimal_text::write_cut12;
use document_tags::{attribute, close, leaf_after, open};
use element_tree::TreeBuilder;
use fraction::Frac;
use itoa::Buffer;
use os_io::{Memory, Text};
use std::alloc::Global;

/// The text of a number, cut.
fn cut_text(alloc: Global, value: Frac) -> Result<Text, Memory>
    ensures { IfOk result (λ t. t ≡ cuts.cut_text (ratio value)) }
{
    let mut text = Text::new(alloc);
    write_cut12(value, &mut text)?;
    Ok(text)
}

/// Tells a name, as an attribute of the element that begins next, if there is one.
fn tell_name(b: &mut TreeBuilder, name: &Option<Text>) -> Result<(), Memory>
    ensures { OnOk result (ToldAttributes b.old b.new (writing.name_attribute name.now)) }
{
    match name {
        Some(name) => attribute(b, b"name", name.as_slice()),
        None => Ok(()),
    }
}

/// Tells the name at an index, if there is one.
fn tell_name_at(b: &mut TreeBuilder, names: &[Option<Text>], at: usize) -> Result<(), Memory>
    ensures { OnOk result (ToldAttributes b.old b.new (writing.name_attribute (name_at names.now at))) }
{
    if at >= names.len() {
        return Ok(());
    }
    tell_name(b, &names[at])
}

/// Tells an element with an index, and with the name at a place of these, that holds a cut number.
fn tell_indexed(
    alloc: Global,
    b: &mut TreeBuilder,
    element: &[u8],
    index: &[u8],
    names: &[Option<Text>],
    at: usize,
    value: Frac,
) -> Result<(), Memory>
    requires { b.old.attributes ≡ [] }
    ensures { OnOk result (Told b.old b.new (λ k. nodes_events (writing.indexed element.now index.now (name_at names.now at) value none) k)) }
{
    let text = cut_text(alloc, value)?;
    attribute(b, b"idx", index)?;
    tell_name_at(b, names, at)?;
    leaf_after(b, element, text.as_slice())
}

/// Tells the values of the variables.
fn tell_variables(
    alloc: Global,
    b: &mut TreeBuilder,
    names: &[Option<Text>],
    point: &[Frac],
) -> Result<(), Memory>
    requires { b.old.attributes ≡ [] }
    ensures { OnOk result (Told b.old b.new (nodes_events (writing.variable_values names.now 0 point.now))) }
{
    for j in 0..point.len() {
        let mut index = Buffer::new();
        let digits = index.format(j).as_bytes();
        tell_indexed(alloc, b, b"var", digits, names, j, point[j])?;
    }
    Ok(())
}

/// The index of the k-th objective: `-k`.
fn goal_index(alloc: Global, k: usize) -> Result<Text, Memory>
    ensures { IfOk result (λ t. t ≡ 45 ∷ decimal k) }
{
    let mut text = Text::from_slice(alloc, b"-")?;
    text.extend(Buffer::new().format(k).as_bytes())?;
    Ok(text)
}

/// Tells the values of the objectives.
fn tell_goals(alloc: Global, b: &mut TreeBuilder, values: &[Frac]) -> Result<(), Memory>
    requires { b.old.attributes ≡ [] }
    ensures { OnOk result (Told b.old b.new (nodes_events (writing.goal_values 1 values.now))) }
{
    for k in 0..values.len() {
        let index = goal_index(alloc, k + 1)?;
        tell_indexed(alloc, b, b"obj", index.as_slice(), &[], 0, values[k])?;
    }
    Ok(())
}

/// Tells the values of the variables and of the objectives.
pub(crate) fn tell_point_values(
    alloc: Global,
    b: &mut TreeBuilder,
    names: &[Option<Text>],
    point: &[Frac],
    values: &[Frac],
) -> Result<(), Memory>
    requires { b.old.attributes ≡ [] }
    ensures { OnOk result (Told b.old b.new (λ k. nodes_events (writing.point_values names.now point.now values.now none) k)) }
{
    open(b, b"variables")?;
    open(b, b"values")?;
    tell_variables(alloc, b, names, point)?;
    close(b, b"values")?;
    close(b, b"variables")?;
    open(b, b"objectives")?;
    open(b, b"values")?;
    tell_goals(alloc, b, values)?;
    close(b, b"values")?;
    close(b, b"objectives")
}

/// Tells a multiplier, where it is that of a row.
fn tell_row_value(
    alloc: Global,
    b: &mut TreeBuilder,
    names: &[Option<Text>],
    width: usize,
    mult: Mult,
) -> Result<(), Memory>
    requires { b.old.attributes ≡ [] }
    ensures { OnOk result (Told b.old b.new (nodes_events (writing.row_values names.now width (mult ∷ [])))) }
{
    let col = mult.col as usize;
    if col < width {
        return Ok(());
    }
    let row = col - width;
    let mut index = Buffer::new();
    let digits = index.format(row).as_bytes();
    tell_indexed(alloc, b, b"con", digits, names, row, mult.value)
}

/// Tells the multipliers of rows.
fn tell_row_values(
    alloc: Global,
    b: &mut TreeBuilder,
    names: &[Option<Text>],
    width: usize,
    mults: &[Mult],
) -> Result<(), Memory>
    requires { b.old.attributes ≡ [] }
    ensures { OnOk result (Told b.old b.new (nodes_events (writing.row_values names.now width mults.now))) }
{
    for mult in mults {
        tell_row_value(alloc, b, names, width, *mult)?;
    }
    Ok(())
}

/// Whether a row has a multiplier.
fn has_row(width: usize, mults: &[Mult]) -> bool
    ensures { (ls : Labels) → IsFalse result ↔ (writing.row_values ls width mults.now ≡ none) }
{
    for mult in mults {
        if mult.col as usize >= width {
            return true;
        }
    }
    false
}

/// Tells the multipliers of rows as a part of the solution, where there are any.
fn tell_rows_part(
    alloc: Global,
    b: &mut TreeBuilder,
    names: &[Option<Text>],
    width: usize,
    mults: &[Mult],
) -> Result<(), Memory>
    requires { b.old.attributes ≡ [] }
    ensures { OnOk result (Told b.old b.new (λ k. nodes_events (writing.rows_part names.now width mults.now none) k)) }
{
    if !has_row(width, mults) {
        return Ok(());
    }
    open(b, b"constraints")?;
    open(b, b"dualValues")?;
    tell_row_values(alloc, b, names, width, mults)?;
    close(b, b"dualValues")?;
    close(b, b"constraints")
}

/// Tells the dual values of a tree of this one node and without rounds, where it has some.
fn tell_node_values(
    alloc: Global,
    b: &mut TreeBuilder,
    names: &[Option<Text>],
    width: usize,
    node: &Node,
) -> Result<(), Memory>
    requires { b.old.attributes ≡ [] }
    ensures { OnOk result (Told b.old b.new (λ k. nodes_events (writing.tree_values names.now width [] (node.now ∷ []) none) k)) }
{
    match node {
        Node::Bound(mults) => tell_rows_part(alloc, b, names, width, mults.as_slice()),
        Node::BoundRows(mults) => tell_rows_part(alloc, b, names, width, mults.as_slice()),
        Node::Split { .. }
        | Node::Zero { .. }
        | Node::Clash { .. }
        | Node::Farkas(_)
        | Node::Grid { .. }
        | Node::FarkasRows(_)
        | Node::GridRows { .. } => Ok(()),
    }
}

/// Tells the dual values of a tree, where it has some.
fn tell_tree_values(
    alloc: Global,
    b: &mut TreeBuilder,
    names: &[Option<Text>],
    width: usize,
    cert: &Cert,
) -> Result<(), Memory>
    requires { b.old.attributes ≡ [] }
    ensures { OnOk result (Told b.old b.new (λ k. nodes_events (writing.tree_values names.now width cert.now.rounds cert.now.nodes none) k)) }
{
    if cert.rounds.len() > 0 || cert.nodes.len() != 1 {
        return Ok(());
    }
    tell_node_values(alloc, b, names, width, &cert.nodes.as_slice()[0])
}

/// Tells the dual values, where there is one objective, and its tree has some.
pub(crate) fn tell_dual_values(
    alloc: Global,
    b: &mut TreeBuilder,
    names: &[Option<Text>],
    width: usize,
    values: &[Frac],
    certs: &[Cert],
) -> Result<(), Memory>
    requires { b.old.attributes ≡ [] }
    ensures { OnOk result (Told b.old b.new (λ k. nodes_events (writing.dual_values names.now width values.now certs.now none) k)) }
{
    if values.len() != 1 || certs.len() != 1 {
        return Ok(());
    }
    tell_tree_values(alloc, b, names, width, &certs[0])
}
