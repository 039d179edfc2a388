//! Goes past elements of a tree.

ghost use Rattle.std.specs.Prelude.{◌≡◌, ◌+◌, ◌^◌, ◌<◌, ◌≤◌, ℕ, List, ◌∷◌, [], MatchOption, IfSome, length, drop};
ghost use Rattle.tree_grammar.specs.Elements.{Element, Event, Nodes, Open, Close, nodes_events};
ghost use Rattle.document_tags.specs.Rests.{child_elements};
ghost use Rattle.document_tags.specs.Passages.{Pending, IsChild};

use element_tree::{Item, Tree};

/// How many elements are still to be ended behind the event at this place, where it is so many before it.
fn depth_behind(tree: &Tree, at: usize, depth: usize) -> usize
    requires inside { at < length tree.now }
    requires open { 0 < depth }
    requires near { depth ≤ at }
    requires fits { at + 1 < 2 ^ 64 }
    ensures near { result ≤ at + 1 }
    ensures pending { (rest : List Event) → Pending depth (drop at tree.now) rest → Pending result (drop (at + 1) tree.now) rest }
{
    match tree.event(at) {
        Item::Open { .. } => depth + 1,
        Item::Chars { .. } => depth,
        Item::Close { .. } => depth - 1,
    }
}

/// The place behind an element whose content and end tag come from `start` on.
pub(crate) fn behind(tree: &Tree, start: usize) -> usize
    requires above { 0 < start }
    requires inside { start ≤ length tree.now }
    ensures within { result ≤ length tree.now }
    ensures later { start ≤ result }
    ensures behind { (name : List ℕ) (content : Nodes) (rest : List Event) → drop start tree.now ≡ nodes_events content (Close name ∷ rest) → drop result tree.now ≡ rest }
{
    let mut at = start;
    let mut depth = 1;
    while depth > 0 && at < tree.len() {
        depth = depth_behind(tree, at, depth);
        at += 1;
    }
    at
}

/// The place of the next child element, if one comes before the end tag; characters before it are passed over.
pub(crate) fn next_child(tree: &Tree, start: usize) -> Option<usize>
    requires { start ≤ length tree.now }
    ensures within { IfSome result (λ i. i < length tree.now) }
    ensures later { IfSome result (λ i. start ≤ i) }
    ensures fits { IfSome result (λ i. i + 1 < 2 ^ 64) }
    ensures next { (name : List ℕ) (content : Nodes) (rest : List Event) → drop start tree.now ≡ nodes_events content (Close name ∷ rest)
        → MatchOption result (child_elements content ≡ []) (λ i. IsChild content name rest (drop i tree.now)) }
{
    let mut at = start;
    while at < tree.len() {
        match tree.event(at) {
            Item::Open { .. } => return Some(at),
            Item::Chars { .. } => at += 1,
            Item::Close { .. } => return None,
        }
    }
    None
}
