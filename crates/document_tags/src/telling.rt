//! Tells a builder whole elements.

ghost use Rattle.std.specs.Prelude.{◌≡◌, ◌++◌, [], OnOk, IfOk};
ghost use Rattle.tree_grammar.specs.Elements.{Element, events};
ghost use Rattle.tree_grammar.specs.WrittenText.{written};
ghost use Rattle.element_tree.specs.Building.{said};
ghost use Rattle.element_tree.specs.Nesting.{IsOneElement};
ghost use Rattle.document_tags.specs.Writing.{with_attribute, only};
ghost use Rattle.document_tags.specs.Telling.{Told, ToldAttributes, opening, closing, marked};

use element_tree::{Tree, TreeBuilder};
use os_io::{Memory, Text};
use std::alloc::Global;
use tree_writing::write;

/// Tells an attribute of the element that begins next.
pub fn attribute(b: &mut TreeBuilder, key: &[u8], value: &[u8]) -> Result<(), Memory>
    ensures { OnOk result (ToldAttributes b.old b.new (with_attribute key.now value.now [])) }
{
    b.attribute(key, value)
}

/// Begins an element without attributes.
pub fn open(b: &mut TreeBuilder, name: &[u8]) -> Result<(), Memory>
    requires { b.old.attributes ≡ [] }
    ensures { OnOk result (Told b.old b.new (opening name.now [])) }
{
    b.begin(name)
}

/// Begins an element with one attribute.
pub fn open_with(b: &mut TreeBuilder, name: &[u8], key: &[u8], value: &[u8]) -> Result<(), Memory>
    requires { b.old.attributes ≡ [] }
    ensures { OnOk result (Told b.old b.new (opening name.now (only key.now value.now))) }
{
    b.attribute(key, value)?;
    b.begin(name)
}

/// Begins an element with the attributes that wait and one more.
pub fn open_after(b: &mut TreeBuilder, name: &[u8], key: &[u8], value: &[u8]) -> Result<(), Memory>
    ensures { OnOk result (Told b.old b.new (opening name.now (b.old.attributes ++ with_attribute key.now value.now []))) }
{
    b.attribute(key, value)?;
    b.begin(name)
}

/// Ends the innermost element, which has this name.
pub fn close(b: &mut TreeBuilder, name: &[u8]) -> Result<(), Memory>
    requires { b.old.attributes ≡ [] }
    ensures { OnOk result (Told b.old b.new (closing name.now)) }
{
    b.end(name)
}

/// Tells an element without attributes that holds this text.
pub fn leaf(b: &mut TreeBuilder, name: &[u8], text: &[u8]) -> Result<(), Memory>
    requires { b.old.attributes ≡ [] }
    ensures { OnOk result (Told b.old b.new (marked name.now [] text.now)) }
{
    b.begin(name)?;
    b.chars(text)?;
    b.end(name)
}

/// Tells an element that has one attribute and holds this text.
pub fn leaf_with(
    b: &mut TreeBuilder,
    name: &[u8],
    key: &[u8],
    value: &[u8],
    text: &[u8],
) -> Result<(), Memory>
    requires { b.old.attributes ≡ [] }
    ensures { OnOk result (Told b.old b.new (marked name.now (only key.now value.now) text.now)) }
{
    b.attribute(key, value)?;
    b.begin(name)?;
    b.chars(text)?;
    b.end(name)
}

/// Tells an element with the attributes that wait, which holds this text.
pub fn leaf_after(b: &mut TreeBuilder, name: &[u8], text: &[u8]) -> Result<(), Memory>
    ensures { OnOk result (Told b.old b.new (marked name.now b.old.attributes text.now)) }
{
    b.begin(name)?;
    b.chars(text)?;
    b.end(name)
}

/// Tells an element with the attributes that wait, and without content.
pub fn empty_after(b: &mut TreeBuilder, name: &[u8]) -> Result<(), Memory>
    ensures { OnOk result (Told b.old b.new (marked name.now b.old.attributes [])) }
{
    b.begin(name)?;
    b.end(name)
}

/// The tree of one element that was told.
fn finished(b: TreeBuilder) -> Tree
    requires { IsOneElement (said b) }
    ensures { result ≡ said b }
{
    b.finish().unwrap()
}

/// The text of one element that was told.
pub fn told_text(alloc: Global, b: TreeBuilder) -> Result<Text, Memory>
    requires { IsOneElement (said b) }
    ensures { IfOk result (λ t. (e : Element) → said b ≡ events e → t ≡ written e) }
{
    let tree = finished(b);
    write(alloc, &tree)
}
