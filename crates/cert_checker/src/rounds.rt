//! Rounding cuts, each of which is one more row.
ghost use Rattle.std.specs.Prelude.{◌≡◌, ◌<◌, ◌≤◌, ◌^◌, ◌-◌, ◌↔◌, ℕ, pos, neg_ℤ, ◌≤ℤ◌, List, length, take, IsTrue, IfOk, OnOk, IfErr, OnErr, MatchOption, MatchResult};
ghost use Rattle.rational.specs.Ratio.{IsSame};
ghost use Rattle.rational.specs.Width.{most};
ghost use Rattle.fraction.specs.Frac.{ratio};
ghost use Rattle.evidence.specs.Sums.{none, IsWhole};
ghost use Rattle.evidence.specs.Instance as Of;
ghost use Rattle.evidence.specs.Instance.{IsInstance, width};
ghost use Rattle.evidence.specs.Cases.{Multiplier, AreLegal};
ghost use Rattle.evidence.specs.Rounds.{IsCeiling};
ghost use Rattle.instance.specs.Program.{program};
ghost use Rattle.certificate.specs.Meanings.{multipliers};
ghost use Rattle.certificate.specs.Meanings as Means;
ghost use Rattle.case_tree.specs.Cuts.{cut};
ghost use Rattle.cert_checker.specs.Programs.{with_rows, AreUncut, AreWide, GivesRow, MakesRound, MayRound};
ghost use Rattle.cert_checker.specs.RoundRefusals.{WholeFormsBelow, IsFirstPart, IsFirstUnfitPart, PartRefuses, IsWideRound, RoundRefuses, AnyRoundRefuses, RoundsRefuse, IsAfterRounds};
ghost use Rattle.cert_checker.specs.Columns.{MayStand};
ghost use Rattle.cert_checker.specs.Slots.{slot_at, HoldsSum};

use crate::added::put;
use crate::at_hand::{Added, Program};
use crate::forms::add_columns;
use crate::pairs::first_illegal;
use crate::refused::Refused;
use crate::row_rounds::check_row_round;
use crate::sums::low_sum;
use case_tree::{Cut, whole};
use certificate::{Mult, Round};
use fraction::{End, Frac, Wide};
use instance::{Instance, Row, zero};

/// The least whole number that isn't below the fraction.
pub fn ceiling(x: Frac) -> i128
    ensures value { IsCeiling (ratio x) result }
    ensures low { neg_ℤ (pos most) ≤ℤ result }
{
    -x.neg().floor()
}

/// Whether a sum is as a round's must be at a variable: a whole number, and 0 where the variable isn't whole.
pub(crate) fn may_round(cut: &Cut, sum: Frac) -> bool
    ensures { IsTrue result ↔ MayStand cut.now (ratio sum) }
{
    sum.is_whole() && (cut.var.whole || sum.numer == 0)
}

/// Whether each of the sums is as a round's must be.
fn check_parts(
    program: &Program,
    cuts: &[Cut],
    slots: &[Option<Frac>],
    mults: &[Mult],
    round: u32,
) -> Result<(), Refused>
    requires count { length cuts.now ≡ width program.now }
    requires numbers { IsInstance program.now }
    requires room { length slots.now ≡ length cuts.now }
    requires sums { (j : ℕ) → j < length cuts.now → HoldsSum (cut program.now cuts.now) (multipliers mults.now) j (length mults.now) (slot_at slots.now j) }
    ensures ok { OnOk result (WholeFormsBelow (cut program.now cuts.now) (multipliers mults.now) (length cuts.now)) }
    ensures err { IfErr result (PartRefuses (cut program.now cuts.now) (multipliers mults.now) round) }
{
    let count = program.vars().len();
    for j in 0..count {
        match slots[j] {
            None => return Err(Refused::WideRound { round }),
            Some(sum) => {
                if !may_round(&cuts[j], sum) {
                    return Err(Refused::Round {
                        round,
                        col: j as u32,
                    });
                }
            }
        }
    }
    Ok(())
}

/// The lower end of the row of a round that is written whole, whose coefficients the slots have afterwards.
fn check_whole_round(
    program: &Program,
    cuts: &[Cut],
    slots: &mut [Option<Frac>],
    mults: &[Mult],
    round: u32,
) -> Result<i128, Refused>
    requires count { length cuts.now ≡ width program.now }
    requires numbers { IsInstance program.now }
    requires room { length slots.old ≡ length cuts.now }
    ensures ok { IfOk result (MakesRound (cut program.now cuts.now) (multipliers mults.now) slots.new) }
    ensures err { IfErr result (RoundRefuses (cut program.now cuts.now) (multipliers mults.now) round) }
{
    if let Some(col) = first_illegal(program, cuts, mults) {
        return Err(Refused::Round { round, col });
    }
    add_columns(program, cuts, slots, mults);
    check_parts(program, cuts, slots, mults, round)?;
    match low_sum(program, cuts, mults, zero()) {
        Err(_) => Err(Refused::WideRound { round }),
        Ok(sum) => Ok(ceiling(sum)),
    }
}

/// What a refusal at a variable tells of the sums: none of the ends, or that one doesn't fit.
fn told_by(refused: Refused) -> Result<Option<Frac>, Wide>
    ensures { (I : Of.Instance) (ms : List Multiplier) (round : ℕ) → PartRefuses I ms round refused → MatchResult result (λ told. MatchOption told ((j : ℕ) × IsFirstPart I ms j) (λ _. ⊥)) (λ _. (j : ℕ) × IsFirstUnfitPart I ms j) }
{
    match refused {
        Refused::WideRound { .. } => Err(Wide),
        _ => Ok(None),
    }
}

/// The sum of the ends of multipliers; the slots have the sums at the variables afterwards.
fn sum_ends(
    program: &Program,
    cuts: &[Cut],
    slots: &mut [Option<Frac>],
    mults: &[Mult],
) -> Result<Option<Frac>, Wide>
    requires count { length cuts.now ≡ width program.now }
    requires numbers { IsInstance program.now }
    requires room { length slots.old ≡ length cuts.now }
    requires legal { AreLegal (cut program.now cuts.now) (multipliers mults.now) }
    ensures ok { IfOk result (λ told. MatchOption told ((j : ℕ) × IsFirstPart (cut program.now cuts.now) (multipliers mults.now) j) (MayRound (cut program.now cuts.now) (multipliers mults.now) slots.new)) }
    ensures wide { OnErr result (IsWideRound (cut program.now cuts.now) (multipliers mults.now)) }
{
    add_columns(program, cuts, slots, mults);
    match check_parts(program, cuts, slots, mults, 0) {
        Err(refused) => told_by(refused),
        Ok(()) => {
            let sum = low_sum(program, cuts, mults, zero())?;
            Ok(Some(sum))
        }
    }
}

/// The sum of the ends of a round's multipliers, over an instance with the rows of the rounds before; the slots have the sums at the
/// variables afterwards. None where one of these isn't whole, or isn't 0 at a variable that isn't; [`Wide`] where one before such,
/// or that of the ends, doesn't fit.
pub fn round_sum(
    instance: &Instance,
    added: &[Added],
    cuts: &[Cut],
    slots: &mut [Option<Frac>],
    mults: &[Mult],
) -> Result<Option<Frac>, Wide>
    requires uncut { AreUncut (program instance.now) cuts.now }
    requires room { length slots.old ≡ length cuts.now }
    requires legal { AreLegal (with_rows (program instance.now) added.now) (multipliers mults.now) }
    ensures ok { IfOk result (λ told. MatchOption told ((j : ℕ) × IsFirstPart (with_rows (program instance.now) added.now) (multipliers mults.now) j) (MayRound (with_rows (program instance.now) added.now) (multipliers mults.now) slots.new)) }
    ensures wide { OnErr result (IsWideRound (with_rows (program instance.now) added.now) (multipliers mults.now)) }
{
    let goals = instance.goals();
    let program = Program::of(instance, added, &goals[0]);
    sum_ends(&program, cuts, slots, mults)
}

/// The lower end of a round's row, whose coefficients the slots have afterwards.
fn check_round(
    program: &Program,
    cuts: &[Cut],
    slots: &mut [Option<Frac>],
    cutting: &Round,
    round: u32,
) -> Result<i128, Refused>
    requires count { length cuts.now ≡ width program.now }
    requires numbers { IsInstance program.now }
    requires room { length slots.old ≡ length cuts.now }
    ensures ok { IfOk result (GivesRow (cut program.now cuts.now) (Means.round cutting.now) slots.new) }
    ensures err { IfErr result (AnyRoundRefuses (cut program.now cuts.now) (Means.round cutting.now) round) }
{
    match cutting {
        Round::Whole(mults) => check_whole_round(program, cuts, slots, mults.as_slice(), round),
        Round::OfRows(mults) => check_row_round(program, cuts, slots, mults.as_slice(), round),
    }
}

/// The lower end of a round's row, over an instance with the rows of the rounds before.
fn check_next(
    instance: &Instance,
    added: &[Added],
    cuts: &[Cut],
    slots: &mut [Option<Frac>],
    cutting: &Round,
    round: u32,
) -> Result<i128, Refused>
    requires uncut { AreUncut (program instance.now) cuts.now }
    requires room { length slots.old ≡ length cuts.now }
    ensures ok { IfOk result (GivesRow (with_rows (program instance.now) added.now) (Means.round cutting.now) slots.new) }
    ensures err { IfErr result (AnyRoundRefuses (with_rows (program instance.now) added.now) (Means.round cutting.now) round) }
{
    let goals = instance.goals();
    let program = Program::of(instance, added, &goals[0]);
    check_round(&program, cuts, slots, cutting, round)
}

/// Whether these are rounds, each over the rows of those before it. The first rows are theirs afterwards.
pub(crate) fn check_rounds(
    instance: &Instance,
    rounds: &[Round],
    cuts: &[Cut],
    slots: &mut [Option<Frac>],
    added: &mut [Added],
) -> Result<(), Refused>
    requires uncut { AreUncut (program instance.now) cuts.now }
    requires slots { length slots.old ≡ length cuts.now }
    requires room { length rounds.now ≤ length added.old }
    requires few { length rounds.now < 2 ^ 32 - 1 }
    requires wide { AreWide (length cuts.now) added.old }
    ensures wide { (n : ℕ) → AreWide n added.old → AreWide n added.new }
    ensures ok { OnOk result (IsAfterRounds (program instance.now) (Means.rounds rounds.now) (with_rows (program instance.now) (take (length rounds.now) added.new))) }
    ensures err { IfErr result (RoundsRefuse (program instance.now) (Means.rounds rounds.now) 1) }
{
    for i in 0..rounds.len() {
        let cutting = &rounds[i];
        let low = check_next(instance, &added[..i], cuts, slots, cutting, i as u32 + 1)?;
        let ends = Row {
            lb: End::At(whole(low)),
            ub: End::Inf,
        };
        put(&mut added[i], ends, slots);
    }
    Ok(())
}
