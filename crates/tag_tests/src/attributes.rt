//! Attributes of a start tag.

ghost use Rattle.std.specs.Prelude.{◌≡◌, None, Some, MatchOption};
ghost use Rattle.document_tags.specs.Elements.{value_of};

use element_tree::Attributes;

/// The value of the first attribute of this name, if there is one.
pub fn value<'a>(attributes: &'a Attributes<'_>, name: &[u8]) -> Option<&'a [u8]>
    ensures { MatchOption result (value_of name.now attributes.now ≡ None) (λ v. value_of name.now attributes.now ≡ Some v.now) }
{
    for k in 0..attributes.len() {
        let (found, value) = attributes.pair(k);
        if found == name {
            return Some(value);
        }
    }
    None
}
