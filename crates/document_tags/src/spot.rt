//! Elements of a tree: where they are, their own text, and their child elements.

ghost use Rattle.std.specs.Prelude.{◌<◌, ◌+◌, ◌^◌, length};

use crate::passing::{behind, next_child};
use element_tree::{Item, Tree};
use os_io::{Memory, Text};
use std::alloc::Global;

/// An element of a tree, which begins at this event.
#[derive(Clone, Copy)]
pub struct Spot<'t> {
    pub tree: &'t Tree,
    pub at: usize,
    pub ghost inside: { at < length tree.now },
    pub ghost fits: { at + 1 < 2 ^ 64 },
}

impl<'t> Spot<'t> {
    ghost use Rattle.std.specs.Prelude.{◌≡◌, ◌++◌, [], ◌∷◌, List, IfOk, OnOk, IfSome, IsSome};
    ghost use Rattle.tree_grammar.specs.Elements.{Element, events};
    ghost use Rattle.document_tags.specs.Elements as elements;
    ghost use Rattle.document_tags.specs.Spots.{StandsAt, AreSpots};

    /// A tree's root; none where there are no events, as there are in each tree.
    pub fn root(tree: &'t Tree) -> Option<Spot<'t>>
        ensures stands { (e : Element) → tree.now ≡ events e → IfSome result (λ s. StandsAt s e) }
        ensures some { (e : Element) → tree.now ≡ events e → IsSome result }
    {
        if tree.len() > 0 {
            Some(Spot { tree, at: 0 })
        } else {
            None
        }
    }

    /// The element's name.
    pub fn name(&self) -> &'t [u8]
        ensures { (e : Element) → StandsAt self.now e → result.now ≡ e.name }
    {
        match self.tree.event(self.at) {
            Item::Open { name } => name,
            Item::Chars { .. } | Item::Close { .. } => b"",
        }
    }

    /// The characters that stand in the element, and not in an element in it.
    pub fn own_text(&self, alloc: Global) -> Result<Text, Memory>
        ensures { (e : Element) → StandsAt self.now e → IfOk result (λ t. t ≡ elements.own_text e) }
    {
        let mut out = Text::new(alloc);
        let mut at = self.at + 1;
        while at < self.tree.len() {
            match self.tree.event(at) {
                Item::Open { .. } => at = behind(self.tree, at + 1),
                Item::Chars { text } => {
                    out.extend(text)?;
                    at += 1;
                }
                Item::Close { .. } => return Ok(out),
            }
        }
        Ok(out)
    }

    /// Adds this element, if it has this name.
    fn push_named(&self, name: &[u8], out: &mut Vec<Spot<'t>>) -> Result<(), Memory>
        ensures { (e : Element) (es : List Element) → StandsAt self.now e → AreSpots out.old.items es → OnOk result (AreSpots out.new.items (es ++ elements.named name.now (e ∷ []))) }
    {
        if self.name() == name {
            out.push(*self)?;
        }
        Ok(())
    }

    /// Adds the child elements of this name.
    pub fn push_children(&self, name: &[u8], out: &mut Vec<Spot<'t>>) -> Result<(), Memory>
        ensures { (e : Element) (es : List Element) → StandsAt self.now e → AreSpots out.old.items es → OnOk result (AreSpots out.new.items (es ++ elements.children_named name.now e)) }
    {
        let tree = self.tree;
        let mut start = self.at + 1;
        while let Some(at) = next_child(tree, start) {
            Spot { tree, at }.push_named(name, out)?;
            start = behind(tree, at + 1);
        }
        Ok(())
    }
}
