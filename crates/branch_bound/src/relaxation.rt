//! The linear program of the case at hand.
ghost use Rattle.std.specs.Prelude.{◌≡◌, ℕ, ◌+◌, ◌-◌, ◌^◌, ◌<◌, ◌≤◌, ◌++◌, ◌∷◌, [], true, length, map, IfOk};
ghost use Rattle.evidence.specs.Instance as Of;
ghost use Rattle.case_tree.specs.Cuts.{cut};
ghost use Rattle.simplex.specs.Answers.{was_stopped, was_best};
ghost use Rattle.simplex.specs.Cuts.{IsAdded};
ghost use Rattle.simplex.specs.Memory.{width_in, height_in, statuses_in, entries_in, ended_with, IsAtBasis};
ghost use Rattle.simplex_rules.specs.Ends.{Terms};
ghost use Rattle.simplex_rules.specs.Statuses.{HasDictionary};
ghost use Rattle.simplex_rules.specs.Runs.{Run, EndsAtBasis};
ghost use Rattle.simplex_rules.specs.Looks.{answers, AgreesWith, looks_after};
ghost use Rattle.branch_bound.specs.Levels.{ends_in, IsGiven};
ghost use Rattle.branch_bound.specs.Cases.{HasSize, clock_at};

use case_tree::Cut;
use cert_checker::Added as Checked;
use dictionary::Steps;
use fraction::Frac;
use instance::Instance;
use os_io::Watch;
use simplex::{Added, Cuts, Ends, LpEnd, Turns, Work};
use std::alloc::{AllocError, Global};
use std::sync::ledger::Ledger;

/// Memory for the runs of a search, what a run is given beside the instance, the turns of all runs, and the rows of the cuts so far
/// with a sum for each variable, by which cuts are derived; `steps` counts each entry of a dictionary that is read or written.
pub struct Relaxation<L: Ledger> {
    pub work: Work<L>,
    pub ends: Cuts,
    pub turns: Turns,
    pub rows: Vec<Checked>,
    pub slots: Vec<Option<Frac>>,
    pub steps: Steps<L>,
}

impl<L: Ledger> Drop for Relaxation<L> {
    // By hand, so that letting one go is a call. What is derived would be taken apart wherever one is let go.
    fn drop(self) {
        let Relaxation {
            work: _,
            ends: _,
            turns: _,
            rows: _,
            slots: _,
            steps: _,
        } = self;
    }
}

/// Takes over the ends of the columns of these variables.
fn set_ends(ends: &mut Cuts, cuts: &[Cut])
    requires long { length ends.old.ends ≡ length cuts.now }
    requires few { length cuts.now ≤ 1000 }
    ensures { ends.new ≡ record ends.old { ends = map ends_in cuts.now } }
{
    for j in 0..cuts.len() {
        let cut = cuts[j];
        ends.set(
            j as u32,
            Ends {
                lb: cut.lb,
                ub: cut.ub,
            },
        );
    }
}

/// Runs the case at hand without the wholeness of its variables; with `zero_goal` any point of it will do.
pub fn run_case<W: Watch, L: Ledger>(
    instance: &Instance,
    relaxation: &mut Relaxation<L>,
    cuts: &[Cut],
    zero_goal: bool,
    watch: &mut W,
) -> LpEnd
    requires size { HasSize instance.now relaxation.old }
    requires width { length cuts.now ≡ length instance.now.vars }
    requires stops { W.stops watch.old < 2 ^ 64 - 1 }
    ensures size { HasSize instance.now relaxation.new }
    ensures given { relaxation.new.ends ≡ record relaxation.old.ends { ends = map ends_in cuts.now } }
    ensures rows { relaxation.new.rows.items ≡ relaxation.old.rows.items }
    ensures most { relaxation.new.turns.most ≡ relaxation.old.turns.most }
    ensures run { (n : ℕ) × W.came watch.old watch.new (answers n (was_stopped result)) × ((D : Of.Instance) (t : Terms) (looks : ℕ) → IsGiven instance.now relaxation.old.ends D → t.turns ≡ relaxation.old.turns.most → AgreesWith t.stop looks n (was_stopped result) → Run (cut D cuts.now) zero_goal t (clock_at relaxation.old looks) (ended_with result relaxation.new.work) (clock_at relaxation.new (looks_after looks n (was_stopped result))) × (was_best result ≡ true → EndsAtBasis (cut D cuts.now) zero_goal t (clock_at relaxation.old looks) (ended_with result relaxation.new.work) (clock_at relaxation.new (looks_after looks n (was_stopped result))) (statuses_in relaxation.new.work))) }
    ensures basis { was_best result ≡ true → IsAtBasis relaxation.new.work × ((D : Of.Instance) → IsGiven instance.now relaxation.old.ends D → HasDictionary (cut D cuts.now) zero_goal (statuses_in relaxation.new.work) (entries_in relaxation.new.work)) }
{
    let _few = instance.vars();
    set_ends(&mut relaxation.ends, cuts);
    relaxation.work.run(
        instance,
        &relaxation.ends,
        zero_goal,
        &mut relaxation.turns,
        watch,
        &mut relaxation.steps,
    )
}

/// How many columns the runs have: those of the variables, and then those of the rows.
pub fn columns_of<L: Ledger>(instance: &Instance, relaxation: &Relaxation<L>) -> u32
    requires { length instance.now.vars + (length instance.now.rows + length relaxation.now.ends.rows) < 2 ^ 32 }
    ensures { result ≡ length instance.now.vars + (length instance.now.rows + length relaxation.now.ends.rows) }
{
    let rows = instance.rows().len() + relaxation.ends.rows().len();
    (instance.vars().len() + rows) as u32
}

/// Memory for runs of an instance with so many rows beside its own.
pub fn make_work<L: Ledger>(
    alloc: Global,
    instance: &Instance,
    added: usize,
) -> Result<Work<L>, AllocError>
    requires { added < 2 ^ 63 }
    ensures width { IfOk result (λ w. width_in w ≡ length instance.now.vars) }
    ensures height { IfOk result (λ w. height_in w ≡ length instance.now.rows + added) }
    ensures few { IfOk result (λ _. length instance.now.vars + (length instance.now.rows + added) < 2 ^ 32) }
{
    match u32::try_from(instance.rows().len() + added) {
        Ok(height) => Work::for_size(alloc, instance.vars().len() as u32, height),
        Err(_) => Err(AllocError),
    }
}

/// Adds a row beside the instance's, and makes the memory for runs that have it.
pub fn add_row<L: Ledger>(
    alloc: Global,
    instance: &Instance,
    relaxation: &mut Relaxation<L>,
    row: Added,
) -> Result<(), AllocError>
    requires size { HasSize instance.now relaxation.old }
    requires row { IsAdded (length instance.now.vars) (length instance.now.rows + length relaxation.old.ends.rows) row }
    ensures size { IfOk result (λ _. HasSize instance.now relaxation.new) }
    ensures given { IfOk result (λ _. relaxation.new.ends ≡ record relaxation.old.ends { rows = relaxation.old.ends.rows ++ row ∷ [] }) }
    ensures turns { relaxation.new.turns ≡ relaxation.old.turns }
    ensures rows { relaxation.new.rows ≡ relaxation.old.rows }
    ensures slots { relaxation.new.slots ≡ relaxation.old.slots }
{
    let added = relaxation.ends.rows().len() + 1;
    relaxation.work = make_work(alloc, instance, added)?;
    relaxation.ends.add(row)
}
