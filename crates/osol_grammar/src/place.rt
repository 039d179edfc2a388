//! Where a mark may stand.

ghost use Rattle.std.specs.Prelude.{◌≡◌};
ghost use Rattle.tag_tests.specs.Contents.{leads_by};
ghost use Rattle.osol_grammar.specs.Table as table;

use tag_tests::{Led, named};

/// The innermost element that is read of those that the marks to come stand in.
#[derive(Clone, Copy, PartialEq, Eq, Drop)]
pub(crate) enum Place {
    /// None: before the root, and behind it.
    Outside,
    Osol,
    General,
    JobId,
    Job,
    MaxTime,
    Optimization,
    Variables,
    InitialValues,
    Var,
    SolverOptions,
    SolverOption,
}

/// Where the start tag of an element of this name leads.
pub(crate) fn leads(place: Place, name: &[u8]) -> Led<Place>
    ensures { result ≡ leads_by table.content place name.now }
{
    match place {
        Place::Outside => named(name, b"osol", Led::To(Place::Osol), Led::OtherRoot),
        Place::Osol => {
            if name == b"general".as_slice() {
                Led::To(Place::General)
            } else if name == b"job".as_slice() {
                Led::To(Place::Job)
            } else {
                named(
                    name,
                    b"optimization",
                    Led::To(Place::Optimization),
                    Led::Over,
                )
            }
        }
        Place::General => named(name, b"jobID", Led::To(Place::JobId), Led::Over),
        Place::Job => named(name, b"maxTime", Led::To(Place::MaxTime), Led::Over),
        Place::Optimization => {
            if name == b"variables".as_slice() {
                Led::To(Place::Variables)
            } else {
                named(
                    name,
                    b"solverOptions",
                    Led::To(Place::SolverOptions),
                    Led::Over,
                )
            }
        }
        Place::Variables => named(
            name,
            b"initialVariableValues",
            Led::To(Place::InitialValues),
            Led::Over,
        ),
        Place::InitialValues => named(name, b"var", Led::To(Place::Var), Led::Over),
        Place::SolverOptions => named(
            name,
            b"solverOption",
            Led::To(Place::SolverOption),
            Led::Over,
        ),
        Place::JobId | Place::MaxTime | Place::Var | Place::SolverOption => Led::Over,
    }
}

/// Where an end tag leads.
pub(crate) fn around(place: Place) -> Place
    ensures { result ≡ table.around place }
{
    match place {
        Place::Outside | Place::Osol => Place::Outside,
        Place::General | Place::Job | Place::Optimization => Place::Osol,
        Place::JobId => Place::General,
        Place::MaxTime => Place::Job,
        Place::Variables | Place::SolverOptions => Place::Optimization,
        Place::InitialValues => Place::Variables,
        Place::Var => Place::InitialValues,
        Place::SolverOption => Place::SolverOptions,
    }
}
