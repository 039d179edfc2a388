//! What holds of every history of a desk over a journal.
ghost use Rattle.sessions.specs.SoundJournals.{JournalsStaySound};

use job_solver::puts_stay_sound;

/// Law: what a journal keeps of the moves of solved jobs that were made at a desk (`desk`, `StoresSo`), behind the effects from which its
/// table went on, is sound, where no text that was sent is too long, and so is it with the effect of the next move. So a file that
/// stands for it isn't damaged ([`puts_stay_sound`]).
pub fn journals_stay_sound()
    ensures { JournalsStaySound }
{
    puts_stay_sound();
}
