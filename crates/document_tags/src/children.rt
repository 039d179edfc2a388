//! Finds elements that are the only ones of their kind.

ghost use Rattle.std.specs.Prelude.{◌≡◌, List, Some, None, IfOk};
ghost use Rattle.tree_grammar.specs.Elements.{Element};
ghost use Rattle.document_tags.specs.Spots.{StandsAt, AreSpots, IsSpot};
ghost use Rattle.document_tags.specs.OneChild as elements;

use crate::spot::Spot;
use os_io::Memory;
use std::alloc::Global;

/// The one of these elements, if it is one.
pub fn only_one<'t>(spots: &[Spot<'t>]) -> Option<Spot<'t>>
    ensures { (es : List Element) → AreSpots spots.now es → IsSpot result (elements.only_one es) }
{
    if spots.len() == 1 {
        Some(spots[0])
    } else {
        None
    }
}

/// The one child element of this name, if there is exactly one.
pub fn only_child<'t>(
    alloc: Global,
    spot: Spot<'t>,
    name: &[u8],
) -> Result<Option<Spot<'t>>, Memory>
    ensures { (e : Element) → StandsAt spot.entry e → IfOk result (λ r. IsSpot r (elements.only_child e name.now)) }
{
    let mut found = Vec::new(alloc);
    spot.push_children(name, &mut found)?;
    Ok(only_one(found.as_slice()))
}
