//! How serving ends.

/// How serving ended.
#[derive(Clone, Copy, PartialEq, Eq, Drop)]
pub enum Ending {
    /// All links were served, and both lines were written.
    Done,
    /// So were they, and some link ended for want of memory.
    LinkMemory,
    /// The listener doesn't listen. Nothing was written.
    ListenFault,
    /// The line that says that links can come wasn't written whole. None was taken.
    AnnounceFault,
    /// There was no memory to begin. No link was taken.
    NoMemory,
    /// The listener took no further link. Those that had come were served, and how many numbers were given isn't said.
    AcceptFault,
    /// All links were served, and the line that says how many numbers were given wasn't written whole.
    ReportFault,
}
