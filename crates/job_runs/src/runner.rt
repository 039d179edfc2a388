//! What runs a job.
ghost use Rattle.std.specs.Prelude.{◌≡◌, ◌<◌, ◌-◌, ◌^◌, Bool, false, List};
ghost use Rattle.job_runs.specs.Runs.{AreLooks};

use job_table::{SharedText, Verdicts};
use os_io::Watch;
use std::alloc::Global;

/// What makes a document of a job's texts.
pub trait Runner<V: Verdicts> {
    ghost use Rattle.std.specs.Prelude.{List, ℕ, Bool, Option};

    /// Which looks a run of these texts makes, with their answers, and the document that comes of it, which is missing for want of
    /// memory. A run that was asked to stop was so by its last look.
    ghost ran: { List ℕ → List ℕ → List Bool → Option (List ℕ) → Type 0 };

    /// The document of an instance's text and that of its options, or none for want of memory. It looks at the watch now and
    /// then, and no more after a look that said to stop.
    fn run<W: Watch>(
        &self,
        alloc: Global,
        osil: &[u8],
        osol: &[u8],
        watch: &mut W,
    ) -> Option<SharedText>
        requires { W.stops watch.old < 2 ^ 64 - 1 }
        ensures ran { (asked : Bool) × (answers : List Bool) × AreLooks asked answers × W.came watch.old watch.new answers × ran osil.now osol.now answers result }
        ensures right { (asked : Bool) → (asked ≡ false → W.stops watch.new ≡ W.stops watch.old) → V.right osil.now osol.now asked result };
}
