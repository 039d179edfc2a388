//! Envelopes.

ghost use Rattle.std.specs.Prelude.{◌≡◌, IfOk, bytes_eq, codes};
ghost use Rattle.tree_grammar.specs.Elements.{Element};
ghost use Rattle.document_tags.specs.Spots.{StandsAt, IsSpot};
ghost use Rattle.document_tags.specs.OneChild.{only_element};
ghost use Rattle.soap_calls.specs.Envelope as envelopes;

use document_tags::{Spot, child_elements, only_child, only_one};
use os_io::Memory;
use std::alloc::Global;

/// Whether an element is an envelope.
fn is_envelope(root: Spot<'_>) -> bool
    ensures { (e : Element) → StandsAt root.entry e → result ≡ bytes_eq e.name (codes "Envelope") }
{
    root.name() == b"Envelope".as_slice()
}

/// The one element in another, if there is exactly one.
pub(crate) fn sole<'t>(alloc: Global, spot: Spot<'t>) -> Result<Option<Spot<'t>>, Memory>
    ensures { (e : Element) → StandsAt spot.entry e → IfOk result (λ r. IsSpot r (only_element e)) }
{
    let inside = child_elements(alloc, spot)?;
    Ok(only_one(inside.as_slice()))
}

/// The one element in the one body of an envelope, if there is one.
pub(crate) fn held<'t>(alloc: Global, root: Spot<'t>) -> Result<Option<Spot<'t>>, Memory>
    ensures { (e : Element) → StandsAt root.entry e → IfOk result (λ r. IsSpot r (envelopes.held e)) }
{
    if !is_envelope(root) {
        return Ok(None);
    }
    let Some(body) = only_child(alloc, root, b"Body")? else {
        return Ok(None);
    };
    sole(alloc, body)
}
