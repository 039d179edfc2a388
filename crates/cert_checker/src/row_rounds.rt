//! Rounds of rows alone. Each form of the rows is rounded to a whole number, and what is left to that number is the variable's
//! own multiplier: it is asked for its end and added in the same pass, and none is kept.
ghost use Rattle.std.specs.Prelude.{◌≡◌, ◌<◌, ℕ, pos, cond, neg_ℤ, ◌≤ℤ◌, length, IfOk, IfErr};
ghost use Rattle.rational.specs.Ratio.{IsFloor};
ghost use Rattle.rational.specs.Ratio as numbers;
ghost use Rattle.rational.specs.Width.{most};
ghost use Rattle.fraction.specs.Frac.{ratio};
ghost use Rattle.evidence.specs.Sums.{none};
ghost use Rattle.evidence.specs.Instance.{IsInstance, width};
ghost use Rattle.evidence.specs.Cases.{end_of, left_at, or_none};
ghost use Rattle.evidence.specs.Rounds.{RoundByRows};
ghost use Rattle.certificate.specs.Meanings.{multipliers};
ghost use Rattle.case_tree.specs.Cuts.{cut, cut_variable};
ghost use Rattle.cert_checker.specs.Programs.{HoldsRow, GivesRow};
ghost use Rattle.cert_checker.specs.RowRounds.{toward, aimed, LeftRefuses, RowRoundRefuses};
ghost use Rattle.cert_checker.specs.Lefts.{own, LeftsBelow};
ghost use Rattle.cert_checker.specs.Slots.{slot_at, HoldsSum, HoldsTotal};

use crate::at_hand::Program;
use crate::columns::{end_by, ends_of};
use crate::forms::add_columns;
use crate::pairs::first_illegal;
use crate::refused::Refused;
use crate::rounds::ceiling;
use crate::row_leaves::{add_rows, are_rows, has_end};
use crate::slots::plus;
use crate::sums::or_zero;
use case_tree::{Cut, whole};
use certificate::Mult;
use fraction::{End, Frac};
use instance::zero;

/// The greatest whole number that isn't above the fraction.
fn floor(x: Frac) -> i128
    ensures value { IsFloor (ratio x) result }
    ensures low { neg_ℤ (pos most) ≤ℤ result }
{
    x.floor()
}

/// What a form is rounded to at a variable: up where it has a lower end, and down where it has none; 0 where it isn't whole.
fn rounded(cut: &Cut, form: Frac) -> Frac
    ensures { ratio result ≡ numbers.whole (cond cut.now.var.whole (toward (cut_variable cut.now).range.lb (ratio form)) (pos 0)) }
{
    if !cut.var.whole {
        return zero();
    }
    match cut.lb {
        End::At(_) => whole(ceiling(form)),
        _ => whole(floor(form)),
    }
}

/// The ends of variables, each times what is left there to the number that the form is rounded to; none where that doesn't fit. The
/// slots, which have the forms, have these numbers afterwards.
fn round_forms(
    program: &Program,
    cuts: &[Cut],
    slots: &mut [Option<Frac>],
    mults: &[Mult],
    round: u32,
) -> Result<Option<Frac>, Refused>
    requires count { length cuts.now ≡ width program.now }
    requires numbers { IsInstance program.now }
    requires room { length slots.old ≡ length cuts.now }
    requires sums { (j : ℕ) → j < length cuts.now → HoldsSum (cut program.now cuts.now) (multipliers mults.now) j (length mults.now) (slot_at slots.old j) }
    ensures lefts { IfOk result (λ low. LeftsBelow (cut program.now cuts.now) (aimed (cut program.now cuts.now) (multipliers mults.now)) (multipliers mults.now) (length cuts.now)) }
    ensures low { IfOk result (HoldsTotal none (length cuts.now) (λ j. left_at (cut program.now cuts.now) (aimed (cut program.now cuts.now) (multipliers mults.now)) (multipliers mults.now) j) (λ j. or_none (end_of (cut program.now cuts.now) (own (cut program.now cuts.now) (aimed (cut program.now cuts.now) (multipliers mults.now)) (multipliers mults.now) j)))) }
    ensures row { IfOk result (λ low. HoldsRow (length cuts.now) (aimed (cut program.now cuts.now) (multipliers mults.now)) slots.new) }
    ensures err { IfErr result (LeftRefuses (cut program.now cuts.now) (multipliers mults.now) round) }
{
    let count = program.vars().len();
    let mut low = Some(zero());
    for j in 0..count {
        match slots[j] {
            None => return Err(Refused::WideRound { round }),
            Some(form) => {
                let number = rounded(&cuts[j], form);
                match number.sub(form) {
                    Err(_) => return Err(Refused::WideRound { round }),
                    Ok(left) => {
                        let end = end_by(ends_of(program, cuts, j), left);
                        if !has_end(end, left) {
                            return Err(Refused::Round {
                                round,
                                col: j as u32,
                            });
                        }
                        low = plus(low, left, or_zero(end));
                        slots[j] = Some(number);
                    }
                }
            }
        }
    }
    Ok(low)
}

/// The lower end of the row of a round of rows alone, whose coefficients the slots have afterwards.
pub(crate) fn check_row_round(
    program: &Program,
    cuts: &[Cut],
    slots: &mut [Option<Frac>],
    mults: &[Mult],
    round: u32,
) -> Result<i128, Refused>
    requires count { length cuts.now ≡ width program.now }
    requires numbers { IsInstance program.now }
    requires room { length slots.old ≡ length cuts.now }
    ensures ok { IfOk result (GivesRow (cut program.now cuts.now) (RoundByRows (multipliers mults.now)) slots.new) }
    ensures err { IfErr result (RowRoundRefuses (cut program.now cuts.now) (multipliers mults.now) round) }
{
    if let Some(col) = first_illegal(program, cuts, mults) {
        return Err(Refused::Round { round, col });
    }
    if !are_rows(program, cuts, mults) {
        return Err(Refused::Round {
            round,
            col: mults[0].col,
        });
    }
    add_columns(program, cuts, slots, mults);
    let low = round_forms(program, cuts, slots, mults, round)?;
    match add_rows(program, cuts, mults, low) {
        None => Err(Refused::WideRound { round }),
        Some(sum) => Ok(ceiling(sum)),
    }
}
