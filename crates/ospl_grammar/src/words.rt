//! The words of states.

ghost use Rattle.std.specs.Prelude.{◌≡◌};
ghost use Rattle.ospl_grammar.specs.Words as words;
ghost use Rattle.document_tags.specs.OneChild.{IsOnly};

use crate::process::JobState;

/// The word of the state of all jobs together.
pub(crate) fn busy_word(busy: bool) -> &'static [u8]
    ensures { result.now ≡ words.busy_text busy }
{
    if busy { b"busy" } else { b"idle" }
}

/// Whether a job runs, if this is one of the two words.
pub(crate) fn busy_of(word: &[u8]) -> Option<bool>
    ensures { IsOnly (λ busy. word.now ≡ words.busy_text busy) result }
{
    if word == busy_word(true) {
        Some(true)
    } else if word == busy_word(false) {
        Some(false)
    } else {
        None
    }
}

/// The word of a job's state.
pub(crate) fn state_word(state: JobState) -> &'static [u8]
    ensures { result.now ≡ words.state_text state }
{
    match state {
        JobState::Issued => b"issued",
        JobState::Waiting => b"waiting",
        JobState::Running => b"running",
        JobState::Finished => b"finished",
        JobState::Killed => b"killed",
    }
}

/// The job's state of this word, if there is one.
pub(crate) fn state_of(word: &[u8]) -> Option<JobState>
    ensures { IsOnly (λ state. word.now ≡ words.state_text state) result }
{
    if word == state_word(JobState::Issued) {
        Some(JobState::Issued)
    } else if word == state_word(JobState::Waiting) {
        Some(JobState::Waiting)
    } else if word == state_word(JobState::Running) {
        Some(JobState::Running)
    } else if word == state_word(JobState::Finished) {
        Some(JobState::Finished)
    } else if word == state_word(JobState::Killed) {
        Some(JobState::Killed)
    } else {
        None
    }
}
