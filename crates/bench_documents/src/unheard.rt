//! A visitor that keeps nothing of what it is told.

use doc_tree::Visitor;
use element_tree::Attributes;
use os_io::Memory;

/// Is told of a document, and forgets it.
#[derive(Clone, Copy, Drop)]
pub struct Unheard;

impl Visitor for Unheard {
    ghost had = { λ _ _ _. Unit {0} };

    ghost stays = { λ _. tt };

    ghost joined = { λ _ _ _ _ _ _ _. tt };

    fn enter(&mut self, _name: &[u8], _attributes: &Attributes<'_>) -> Result<(), Memory> {
        Ok(())
    }

    fn chars(&mut self, _text: &[u8]) -> Result<(), Memory> {
        Ok(())
    }

    fn close(&mut self, _name: &[u8]) -> Result<(), Memory> {
        Ok(())
    }
}
