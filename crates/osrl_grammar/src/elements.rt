//! Where a mark may stand.

ghost use Rattle.std.specs.Prelude.{◌≡◌};
ghost use Rattle.osrl_grammar.specs.declared.elements.Place.TheVariants as places;
ghost use Rattle.osrl_grammar.specs.Table as table;

use element_tree::Attributes;
use osrl_writing::{Part, part_name};
use tag_tests::{Led, named, value};

/// The innermost element that is read and that the marks to come stand in.
#[derive(Clone, Copy, PartialEq, Eq, Drop)]
pub(crate) enum Place {
    /// None: before the root, and behind it.
    Outside,
    Osrl,
    General,
    GeneralStatus,
    JobId,
    Message,
    Job,
    JobStatus,
    Optimization,
    Solution,
    SolutionStatus,
    Results,
    /// A result that is a part of a certificate.
    Result(Part),
    Item(Part),
}

/// Where the start tag of an element in the root leads.
fn root_led(name: &[u8]) -> Led<Place>
    ensures { result ≡ table.named_led places.Osrl name.now }
{
    if name == b"general".as_slice() {
        Led::To(Place::General)
    } else if name == b"job".as_slice() {
        Led::To(Place::Job)
    } else {
        named(
            name,
            b"optimization",
            Led::To(Place::Optimization),
            Led::Over,
        )
    }
}

/// Where the start tag of an element of the general part leads.
fn general_led(name: &[u8]) -> Led<Place>
    ensures { result ≡ table.named_led places.General name.now }
{
    if name == b"generalStatus".as_slice() {
        Led::To(Place::GeneralStatus)
    } else if name == b"jobID".as_slice() {
        Led::To(Place::JobId)
    } else {
        named(name, b"message", Led::To(Place::Message), Led::Over)
    }
}

/// Where the start tag of an element of a solution leads.
fn solution_led(name: &[u8]) -> Led<Place>
    ensures { result ≡ table.named_led places.Solution name.now }
{
    if name == b"status".as_slice() {
        Led::To(Place::SolutionStatus)
    } else {
        named(
            name,
            b"otherSolutionResults",
            Led::To(Place::Results),
            Led::Over,
        )
    }
}

/// Where the start tag of a result of this name leads.
fn part_led(name: &[u8]) -> Led<Place>
    ensures { result ≡ table.part_led name.now }
{
    if name == part_name(Part::Point) {
        Led::To(Place::Result(Part::Point))
    } else if name == part_name(Part::Value) {
        Led::To(Place::Result(Part::Value))
    } else if name == part_name(Part::Ray) {
        Led::To(Place::Result(Part::Ray))
    } else if name == part_name(Part::Cause) {
        Led::To(Place::Result(Part::Cause))
    } else if name == part_name(Part::Bound) {
        Led::To(Place::Result(Part::Bound))
    } else if name == part_name(Part::Rounds) {
        Led::To(Place::Result(Part::Rounds))
    } else {
        named(
            name,
            part_name(Part::Tree),
            Led::To(Place::Result(Part::Tree)),
            Led::Over,
        )
    }
}

/// Where the start tag of an element among the results of a solution leads.
fn result_led(name: &[u8], attributes: &Attributes<'_>) -> Led<Place>
    ensures { result ≡ table.result_led name.now attributes.now }
{
    if name != b"otherSolutionResult".as_slice() {
        return Led::Over;
    }
    match value(attributes, b"name") {
        Some(part) => part_led(part),
        None => Led::Over,
    }
}

/// Where the start tag of an element of this name and with these attributes leads.
pub(crate) fn leads(place: Place, name: &[u8], attributes: &Attributes<'_>) -> Led<Place>
    ensures { result ≡ table.leads place name.now attributes.now }
{
    match place {
        Place::Outside => named(name, b"osrl", Led::To(Place::Osrl), Led::OtherRoot),
        Place::Osrl => root_led(name),
        Place::General => general_led(name),
        Place::Job => named(name, b"status", Led::To(Place::JobStatus), Led::Over),
        Place::Optimization => named(name, b"solution", Led::To(Place::Solution), Led::Over),
        Place::Solution => solution_led(name),
        Place::Results => result_led(name, attributes),
        Place::Result(part) => named(name, b"item", Led::To(Place::Item(part)), Led::Over),
        Place::GeneralStatus
        | Place::JobId
        | Place::Message
        | Place::JobStatus
        | Place::SolutionStatus
        | Place::Item(_) => Led::Over,
    }
}

/// Where an end tag leads.
pub(crate) fn outer(place: Place) -> Place
    ensures { result ≡ table.around place }
{
    match place {
        Place::Outside | Place::Osrl => Place::Outside,
        Place::General | Place::Job | Place::Optimization => Place::Osrl,
        Place::GeneralStatus | Place::JobId | Place::Message => Place::General,
        Place::JobStatus => Place::Job,
        Place::Solution => Place::Optimization,
        Place::SolutionStatus | Place::Results => Place::Solution,
        Place::Result(_) => Place::Results,
        Place::Item(part) => Place::Result(part),
    }
}
