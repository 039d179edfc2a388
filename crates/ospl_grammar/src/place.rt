//! Where a mark may stand.

ghost use Rattle.std.specs.Prelude.{◌≡◌};
ghost use Rattle.ospl_grammar.specs.declared.place.Place.TheVariants as places;
ghost use Rattle.tag_tests.specs.Contents.{leads_by};
ghost use Rattle.ospl_grammar.specs.Table as table;

use tag_tests::{Led, named};

/// The innermost element that is read of those that the marks to come stand in.
#[derive(Clone, Copy, PartialEq, Eq, Drop)]
pub(crate) enum Place {
    /// None: before the root, and behind it.
    Outside,
    Ospl,
    Header,
    Request,
    Data,
    Statistics,
    CurrentState,
    CurrentCount,
    Total,
    Jobs,
    Job,
    State,
}

/// Where the start tag of a part of statistics leads.
fn part_led(name: &[u8]) -> Led<Place>
    ensures { result ≡ leads_by table.content places.Statistics name.now }
{
    if name == b"currentState".as_slice() {
        Led::To(Place::CurrentState)
    } else if name == b"currentJobCount".as_slice() {
        Led::To(Place::CurrentCount)
    } else if name == b"totalJobsSoFar".as_slice() {
        Led::To(Place::Total)
    } else {
        named(name, b"jobs", Led::To(Place::Jobs), Led::Over)
    }
}

/// Where the start tag of a child element of the root leads.
fn root_led(name: &[u8]) -> Led<Place>
    ensures { result ≡ leads_by table.content places.Ospl name.now }
{
    if name == b"processHeader".as_slice() {
        Led::To(Place::Header)
    } else {
        named(name, b"processData", Led::To(Place::Data), Led::Over)
    }
}

/// Where the start tag of an element of this name leads.
pub(crate) fn leads(place: Place, name: &[u8]) -> Led<Place>
    ensures { result ≡ leads_by table.content place name.now }
{
    match place {
        Place::Outside => named(name, b"ospl", Led::To(Place::Ospl), Led::OtherRoot),
        Place::Ospl => root_led(name),
        Place::Header => named(name, b"request", Led::To(Place::Request), Led::Over),
        Place::Data => named(name, b"statistics", Led::To(Place::Statistics), Led::Over),
        Place::Statistics => part_led(name),
        Place::Jobs => named(name, b"job", Led::To(Place::Job), Led::Over),
        Place::Job => named(name, b"state", Led::To(Place::State), Led::Over),
        Place::Request | Place::CurrentState | Place::CurrentCount | Place::Total | Place::State =>
            Led::Over,
    }
}

/// Where an end tag leads.
pub(crate) fn around(place: Place) -> Place
    ensures { result ≡ table.around place }
{
    match place {
        Place::Outside | Place::Ospl => Place::Outside,
        Place::Header | Place::Data => Place::Ospl,
        Place::Request => Place::Header,
        Place::Statistics => Place::Data,
        Place::CurrentState | Place::CurrentCount | Place::Total | Place::Jobs => Place::Statistics,
        Place::Job => Place::Jobs,
        Place::State => Place::Job,
    }
}
