//! Child elements of any name.

ghost use Rattle.std.specs.Prelude.{◌≡◌, ◌+◌, ◌^◌, ◌<◌, ◌≤◌, IfOk, IfSome, MatchOption, length, drop};
ghost use Rattle.tree_grammar.specs.Elements.{Element};
ghost use Rattle.document_tags.specs.Rests.{child_elements};
ghost use Rattle.document_tags.specs.Spots.{StandsAt, AreSpots};
ghost use Rattle.document_tags.specs.OneChild as said;
ghost use Rattle.document_tags.specs.ChildElements.{GathersChildren, AreGathered};

use crate::spot::Spot;
use element_tree::{Item, Tree};
use os_io::{Memory, Text};
use std::alloc::Global;

/// Passes the event at this place, where so many elements that were begun in the element are still to be ended, and adds
/// a child element that begins there. It answers how many are still to be ended then, or none at the element's own end.
fn pass<'t>(
    tree: &'t Tree,
    at: usize,
    depth: usize,
    out: &mut Vec<Spot<'t>>,
) -> Result<Option<usize>, Memory>
    requires inside { at < length tree.now }
    requires near { depth ≤ at }
    requires fits { at + 1 < 2 ^ 64 }
    ensures near { IfOk result (λ r. IfSome r (λ d. d ≤ at + 1)) }
    ensures passes { (e : Element) → GathersChildren e depth (drop at tree.now) out.old.items → IfOk result (AreGathered e (drop (at + 1) tree.now) out.new.items) }
{
    match tree.event(at) {
        Item::Open { .. } => {
            if depth > 0 {
                return Ok(Some(depth + 1));
            }
            out.push(Spot { tree, at })?;
            Ok(Some(1))
        }
        Item::Chars { .. } => Ok(Some(depth)),
        Item::Close { .. } => {
            if depth > 0 {
                return Ok(Some(depth - 1));
            }
            Ok(None)
        }
    }
}

/// The child elements, whatever their names.
pub fn child_elements<'t>(alloc: Global, spot: Spot<'t>) -> Result<Vec<Spot<'t>>, Memory>
    ensures { (e : Element) → StandsAt spot.entry e → IfOk result (λ r. AreSpots r.items (child_elements e.children)) }
{
    let tree = spot.tree;
    let mut out = Vec::new(alloc);
    let mut depth = 0;
    let mut at = spot.at + 1;
    while at < tree.len() {
        let Some(still) = pass(tree, at, depth, &mut out)? else {
            return Ok(out);
        };
        depth = still;
        at += 1;
    }
    Ok(out)
}

/// The characters that stand in an element, if no element does.
pub fn plain_text(alloc: Global, spot: Spot<'_>) -> Result<Option<Text>, Memory>
    ensures { (e : Element) → StandsAt spot.entry e → IfOk result (λ r. r ≡ said.plain_text e) }
{
    let inside = child_elements(alloc, spot)?;
    if inside.len() > 0 {
        return Ok(None);
    }
    Ok(Some(spot.own_text(alloc)?))
}
