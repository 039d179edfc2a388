//! The goals in their order, each asked of the points that reach the values before it.
ghost use Rattle.std.specs.Prelude.{◌≡◌, ◌+◌, ◌-◌, ◌<◌, ◌≤◌, ◌^◌, [], ℕ, length, take, drop, IfOk, OnOk, OnErr, IfErr};
ghost use Rattle.std.specs.List.{All};
ghost use Rattle.fraction.specs.Frac.{ratio, ratios};
ghost use Rattle.evidence.specs.Instance.{minimising, cost_at};
ghost use Rattle.evidence.specs.Width.{ProvesWithin};
ghost use Rattle.evidence.specs.Rounds as With;
ghost use Rattle.evidence.specs.Levels.{IsReachedEnd};
ghost use Rattle.instance.specs.Program.{program, problem, goals};
ghost use Rattle.certificate.specs.Meanings as Means;
ghost use Rattle.certificate.specs.Nodes.{IsInRange};
ghost use Rattle.certificate.specs.declared.nodes.Cert as Has;
ghost use Rattle.cert_checker.specs.Cuts as Of;
ghost use Rattle.cert_checker.specs.LevelRefusals.{Ending, EndIsWide, LevelsRefuse, LeadsUp};
ghost use Rattle.cert_checker.specs.Programs.{bound, AreWide, HoldsRow};
ghost use Rattle.cert_checker.specs.Reached.{at_level, TreeIsRefused};

use crate::added::put;
use crate::at_hand::{Added, Program};
use crate::refused::{Refused, Unshown};
use crate::walk::check_tree;
use case_tree::{Branch, Cut};
use certificate::{Cert, Node};
use fraction::{End, Frac, Wide};
use instance::{Instance, Row};

/// The value, turned so that less is better.
fn aim_of(program: &Program, value: Option<Frac>) -> Option<Frac>
    ensures { Of.aim result ≡ bound program.now value }
{
    match value {
        Some(value) => Some(program.turned(value)),
        None => None,
    }
}

/// Whether a tree shows of a level's program that no point is better than the value; without one, that none is feasible.
pub(crate) fn check_at(
    instance: &Instance,
    added: &[Added],
    level: usize,
    nodes: &[Node],
    value: Option<Frac>,
    cuts: &mut [Cut],
    slots: &mut [Option<Frac>],
    branches: &mut [Branch],
) -> Result<(), Refused>
    requires level { level < length instance.now.goals }
    requires columns { length instance.now.vars + (length instance.now.rows + length added.now) ≤ length cuts.old }
    requires slots { length slots.old ≡ length instance.now.vars }
    requires room { length nodes.now ≤ length branches.old }
    requires few { length branches.old < 2 ^ 32 - 1 }
    requires range { All IsInRange nodes.now }
    ensures ok { OnOk result (ProvesWithin (at_level instance.now added.now level) (Means.nodes nodes.now) (bound (at_level instance.now added.now level) value)) }
    ensures err { IfErr result (TreeIsRefused (at_level instance.now added.now level) (Means.nodes nodes.now) (bound (at_level instance.now added.now level) value) (level + 1)) }
{
    let goals = instance.goals();
    let program = Program::of(instance, added, &goals[level]);
    let aim = aim_of(&program, value);
    let columns = slots.len() + program.height();
    let cuts = &mut cuts[..columns];
    match check_tree(&program, nodes, aim, cuts, slots, branches) {
        Ok(()) => Ok(()),
        Err(why) => Err(Refused::Level {
            level: level as u32 + 1,
            why,
        }),
    }
}

/// Makes the sums the goal's costs.
fn fill_costs(program: &Program, slots: &mut [Option<Frac>])
    ensures { HoldsRow (length slots.old) (λ j. minimising program.now (cost_at program.now j)) slots.new }
{
    for j in 0..slots.len() {
        slots[j] = Some(program.cost_at(j));
    }
}

/// The end of the next level's row, whose coefficients the slots have afterwards: the value without the goal's constant.
fn reached(
    instance: &Instance,
    added: &[Added],
    level: usize,
    value: Frac,
    slots: &mut [Option<Frac>],
) -> Result<Frac, Wide>
    requires level { level < length instance.now.goals }
    ensures ok { IfOk result (λ e. IsReachedEnd (at_level instance.now added.now level) (ratio value) (ratio e)) }
    ensures wide { OnErr result (EndIsWide (at_level instance.now added.now level) (ratio value)) }
    ensures row { HoldsRow (length slots.old) (λ j. minimising (at_level instance.now added.now level) (cost_at (at_level instance.now added.now level) j)) slots.new }
{
    let goals = instance.goals();
    let program = Program::of(instance, added, &goals[level]);
    fill_costs(&program, slots);
    program.turned(value).sub(program.constant())
}

/// Whether the first certificates show, each at its level, that no point is better than its value. The first rows are those of
/// these levels' goals afterwards.
pub(crate) fn climb(
    instance: &Instance,
    values: &[Frac],
    certs: &[Cert],
    count: usize,
    cuts: &mut [Cut],
    slots: &mut [Option<Frac>],
    branches: &mut [Branch],
    added: &mut [Added],
) -> Result<(), Refused>
    requires count { count < length instance.now.goals }
    requires few_levels { count ≤ 8 }
    requires certs { count ≤ length certs.now }
    requires values { length values.now ≡ length instance.now.goals }
    requires columns { length instance.now.vars + (length instance.now.rows + length added.old) ≤ length cuts.old }
    requires slots { length slots.old ≡ length instance.now.vars }
    requires rows { count ≤ length added.old }
    requires few { length branches.old < 2 ^ 32 - 1 }
    requires nodes { All (λ (c : Has.Cert). length c.nodes ≤ length branches.old) certs.now }
    requires range { All (λ (c : Has.Cert). All IsInRange c.nodes) certs.now }
    requires alone { All (λ (c : Has.Cert). c.rounds ≡ []) certs.now }
    requires wide { AreWide (length slots.old) added.old }
    ensures wide { (n : ℕ) → AreWide n added.old → AreWide n added.new }
    ensures ok { (end : Ending) → OnOk result (LeadsUp end (program instance.now) (drop 1 (goals instance.now.goals)) (ratios values.now) (Means.certificates certs.now) 1 (at_level instance.now (take count added.new) count) (drop (count + 1) (goals instance.now.goals)) (drop count (ratios values.now)) (drop count (Means.certificates certs.now)) (count + 1)) }
    ensures err { (end : Ending) → IfErr result (LevelsRefuse end (program instance.now) (drop 1 (goals instance.now.goals)) (ratios values.now) (Means.certificates certs.now) 1) }
{
    for level in 0..count {
        let nodes = certs[level].nodes.as_slice();
        let value = values[level];
        let rows = &added[..level];
        check_at(
            instance,
            rows,
            level,
            nodes,
            Some(value),
            cuts,
            slots,
            branches,
        )?;
        match reached(instance, rows, level, value, slots) {
            Err(_) => {
                return Err(Refused::Level {
                    level: level as u32 + 2,
                    why: Unshown::Wide { node: 0 },
                });
            }
            Ok(end) => {
                let ends = Row {
                    lb: End::At(end),
                    ub: End::At(end),
                };
                put(&mut added[level], ends, slots);
            }
        }
    }
    Ok(())
}
