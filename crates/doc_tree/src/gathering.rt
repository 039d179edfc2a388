//! Builds the tree of what is told.

ghost use Rattle.std.specs.Prelude.{◌≡◌, [], ◌∷◌, ◌++◌, OnOk, IfOk, MatchOption};
ghost use Rattle.tree_grammar.specs.Elements.{Open};
ghost use Rattle.element_tree.specs.Building.{said};
ghost use Rattle.element_tree.specs.Nesting.{IsOneElement};
ghost use Rattle.doc_tree.specs.Building.{IsApart};

use crate::visitor::Visitor;
use element_tree::{Attributes, Tree, TreeBuilder};
use os_io::Memory;
use std::alloc::{AllocError, Global};
use std::marker::Model;

/// A tree that is being told. No two runs of characters touch in it, unless memory was wanted.
#[derive(Drop)]
pub(crate) struct Gathering {
    builder: TreeBuilder,
    /// Whether there was no memory once.
    wanted: bool,
}

impl Model for Gathering {
    ghost use Rattle.std.specs.Prelude.{◌⊎◌, IsTrue};
    ghost use Rattle.element_tree.specs.Building.{Building};
    ghost use Rattle.doc_tree.specs.Building.{IsBuildingReady};

    ghost Value = { Building };

    ghost view = { λ t. t.builder };

    ghost invariant = { λ t. IsTrue t.wanted ⊎ IsBuildingReady t.builder };
}

/// Begins an element with these attributes, where none waits.
fn begin(builder: &mut TreeBuilder, name: &[u8], attributes: &Attributes<'_>) -> Result<(), Memory>
    requires { builder.old.attributes ≡ [] }
    ensures { OnOk result (builder.new ≡ record { events = said builder.old ++ Open name.now attributes.now ∷ []; attributes = []; text = [] }) }
{
    for k in 0..attributes.len() {
        let (key, value) = attributes.pair(k);
        builder.attribute(key, value)?;
    }
    builder.begin(name)
}

impl Gathering {
    /// Nothing told yet.
    pub(crate) fn new(alloc: Global) -> Gathering
        ensures { result ≡ record { events = []; attributes = []; text = [] } }
    {
        Gathering {
            builder: TreeBuilder::new(alloc),
            wanted: false,
        }
    }

    /// The tree of what was told, if that is one element; want of memory, if there was none before.
    pub(crate) fn finish(self) -> Result<Option<Tree>, Memory>
        ensures apart { IfOk result (λ r. IsApart (said self)) }
        ensures tree { IfOk result (λ r. MatchOption r (IsOneElement (said self) → ⊥) (λ t. t ≡ said self)) }
    {
        let Gathering { builder, wanted } = self;
        if wanted {
            return Err(AllocError);
        }
        Ok(builder.finish())
    }
}

impl Visitor for Gathering {
    ghost use Rattle.doc_tree.specs.Gathered.{Gathers, gathers_none, gathers_both};

    ghost had = { Gathers };

    ghost stays = { gathers_none };

    ghost joined = { gathers_both };

    fn enter(&mut self, name: &[u8], attributes: &Attributes<'_>) -> Result<(), Memory> {
        if self.wanted {
            return Err(AllocError);
        }
        match begin(&mut self.builder, name, attributes) {
            Ok(()) => Ok(()),
            Err(e) => {
                self.wanted = true;
                Err(e)
            }
        }
    }

    fn chars(&mut self, text: &[u8]) -> Result<(), Memory> {
        if self.wanted {
            return Err(AllocError);
        }
        match self.builder.chars(text) {
            Ok(()) => Ok(()),
            Err(e) => {
                self.wanted = true;
                Err(e)
            }
        }
    }

    fn close(&mut self, name: &[u8]) -> Result<(), Memory> {
        if self.wanted {
            return Err(AllocError);
        }
        match self.builder.end(name) {
            Ok(()) => Ok(()),
            Err(e) => {
                self.wanted = true;
                Err(e)
            }
        }
    }
}
