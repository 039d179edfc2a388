//! The calls.

ghost use Rattle.std.specs.Prelude.{◌≡◌};
ghost use Rattle.six_calls.specs.Names as names;

use crate::part::Part;

/// The six calls.
#[derive(Clone, Copy, PartialEq, Eq, Drop)]
pub enum CallKind {
    /// Runs a job and gives its result.
    Solve,
    /// Gives a number for a job.
    GetJobId,
    /// Hands in a job, and says whether it was taken.
    Send,
    /// Gives the result of a job that was sent.
    Retrieve,
    /// Asks for the states of all jobs.
    Knock,
    /// Asks a job to stop, or gives up one that is over.
    Kill,
}

/// What is known of a call: its name, and which of the parts it has that not every call has.
#[derive(Clone, Copy)]
struct Row {
    name: &'static [u8],
    osil: bool,
    ospl: bool,
}

impl CallKind {
    /// What is known of it.
    fn row(self) -> Row
        ensures name { result.name.now ≡ (names.row self).name }
        ensures osil { result.osil ≡ (names.row self).osil }
        ensures ospl { result.ospl ≡ (names.row self).ospl }
    {
        match self {
            CallKind::Solve => Row {
                name: b"solve",
                osil: true,
                ospl: false,
            },
            CallKind::GetJobId => Row {
                name: b"getJobID",
                osil: false,
                ospl: false,
            },
            CallKind::Send => Row {
                name: b"send",
                osil: true,
                ospl: false,
            },
            CallKind::Retrieve => Row {
                name: b"retrieve",
                osil: false,
                ospl: false,
            },
            CallKind::Knock => Row {
                name: b"knock",
                osil: false,
                ospl: true,
            },
            CallKind::Kill => Row {
                name: b"kill",
                osil: false,
                ospl: false,
            },
        }
    }

    /// Its name.
    pub fn name(self) -> &'static [u8]
        ensures { result.now ≡ names.kind_text self }
    {
        self.row().name
    }

    /// The call of this name, if there is one.
    pub fn named(name: &[u8]) -> Option<CallKind>
        ensures { result ≡ names.kind_named name.now }
    {
        if name == CallKind::Solve.name() {
            Some(CallKind::Solve)
        } else if name == CallKind::GetJobId.name() {
            Some(CallKind::GetJobId)
        } else if name == CallKind::Send.name() {
            Some(CallKind::Send)
        } else if name == CallKind::Retrieve.name() {
            Some(CallKind::Retrieve)
        } else if name == CallKind::Knock.name() {
            Some(CallKind::Knock)
        } else if name == CallKind::Kill.name() {
            Some(CallKind::Kill)
        } else {
            None
        }
    }

    /// Whether it has this part.
    pub fn has(self, part: Part) -> bool
        ensures { result ≡ names.has self part }
    {
        match part {
            Part::Osil => self.row().osil,
            Part::Osol => true,
            Part::Ospl => self.row().ospl,
        }
    }
}
