//! Where the start tag of an element of some name leads.

ghost use Rattle.std.specs.Prelude.{◌≡◌, cond, bytes_eq};
ghost use Rattle.tag_tests.specs.Places as table;

/// Where a start tag leads, where elements of other names are passed over.
#[derive(Clone, Copy, Drop)]
pub enum Led<P> {
    /// Into an element that is read.
    To(P),
    /// Nowhere: it is a root of another name.
    OtherRoot,
    /// Into an element that is passed over.
    Over,
}

/// The one, if the name is the wanted one, else the other.
pub fn named<L: Drop>(name: &[u8], wanted: &[u8], to: L, other: L) -> L
    ensures { result ≡ cond (bytes_eq name.now wanted.now) to other }
{
    if name == wanted { to } else { other }
}

/// Where a start tag leads where so many elements are open that are passed over: over one more, if there is one.
pub fn led_from<P: Drop>(depth: u64, led: Led<P>) -> Led<P>
    ensures { result ≡ table.led_from depth led }
{
    if depth > 0 { Led::Over } else { led }
}
