//! The dictionary of a run's program.
ghost use Rattle.std.specs.Prelude.{◌≡◌, ℕ, ◌+◌, ◌<◌, ◌≤◌, get_or, length};
ghost use Rattle.evidence.specs.Instance as Of;
ghost use Rattle.evidence.specs.Instance.{no_goal};
ghost use Rattle.bases.specs.Dictionary.{Entries};
ghost use Rattle.bases.specs.Program.{is_fresh, rows_with_goal};
ghost use Rattle.instance.specs.Program.{goal as meaning, goals};
ghost use Rattle.dictionary.specs.Dict.{width_of, height_of, columns_of, basic_of, IsJustLoaded, HaveOneSize, Holds};
ghost use Rattle.simplex.specs.Cuts.{Suits, IsAdded, IsCutBy, AreRowsBeside, added_at, columns_by};

use crate::beginning::factor;
use crate::cuts::{Added, Cuts};
use dictionary::{Dict, Steps, dictionaries_of_equal_rows, first_dictionaries_are_loaded};
use instance::{Goal, Instance};
use std::sync::ledger::Ledger;

/// The goal of this number.
pub fn goal_at(instance: &Instance, k: u32) -> &Goal
    requires { k < length instance.now.goals }
    ensures goal { meaning result.now ≡ get_or (goals instance.now.goals) k no_goal }
    ensures costs { length result.now.costs ≡ length instance.now.vars }
{
    let goals = instance.goals();
    &goals[k as usize]
}

/// Gives the rows from the first of these on the entries of the added ones.
fn set_rows<L: Ledger>(
    dict: &mut Dict<L>,
    first: u32,
    height: u32,
    added: &[Added],
    steps: &mut Steps<L>,
)
    requires first { (A : Entries) × IsJustLoaded A dict.old }
    requires height { height_of dict.old ≡ height }
    requires rows { first + length added.now ≡ height }
    requires added { (i : ℕ) → i < length added.now → IsAdded (width_of dict.old) (first + i) (added_at added.now i) }
    ensures size { HaveOneSize dict.old dict.new }
    ensures rows { (A : Entries) → IsJustLoaded A dict.old → (B : Entries) × IsJustLoaded B dict.new × AreRowsBeside A first added.now (length added.now) B }
{
    for row in first..height {
        let k = row - first;
        let entries = added[k as usize].entries.as_slice();
        dict.set_row(row, entries, steps);
    }
}

/// Makes the dictionary of an instance's rows, those beside them, and the goal that is asked.
pub fn load<L: Ledger>(
    dict: &mut Dict<L>,
    instance: &Instance,
    cuts: &Cuts,
    zero_goal: bool,
    goal: u32,
    steps: &mut Steps<L>,
)
    requires vars { width_of dict.old ≡ length instance.now.vars }
    requires rows { height_of dict.old ≡ length instance.now.rows + length cuts.now.rows }
    requires cuts { Suits instance.now cuts.now }
    requires goal { goal ≡ columns_by instance.now cuts.now }
    ensures size { HaveOneSize dict.old dict.new }
    ensures basis { (c : ℕ) → c < columns_of dict.new → basic_of dict.new c ≡ is_fresh (width_of dict.new) c }
    ensures held { (B : Entries) × Holds B dict.new }
    ensures holds { (I : Of.Instance) → IsCutBy instance.now cuts.now I → Holds (rows_with_goal zero_goal I) dict.new }
{
    let asked = goal_at(instance, cuts.goal());
    let vars = instance.vars().len() as u32;
    let height = goal - vars;
    let sign = factor(zero_goal, asked.sense);
    let costs = asked.costs.as_slice();
    dict.load(instance.entries(), costs, sign, steps);
    let first = instance.rows().len() as u32;
    set_rows(dict, first, height, cuts.rows(), steps);
    first_dictionaries_are_loaded::<L>();
    dictionaries_of_equal_rows();
}
