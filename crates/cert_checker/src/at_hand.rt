//! The program at hand: an instance's, with rows added, asked for one of its goals.
ghost use Rattle.std.specs.Prelude.{◌≡◌, ◌↔◌, ◌<◌, ◌≤◌, ◌^◌, ℕ, length, map, slice_index_or, IsTrue, IfOk, OnErr};
ghost use Rattle.rational.specs.Ratio.{IsSame};
ghost use Rattle.fraction.specs.Frac.{ratio, ratios};
ghost use Rattle.evidence.specs.Instance as Of;
ghost use Rattle.evidence.specs.Point.{value_at, activity};
ghost use Rattle.evidence.specs.Cases.{IsWholeRow};
ghost use Rattle.evidence.specs.Width.{RowFits};
ghost use Rattle.instance.specs.Program.{row, variable};
ghost use Rattle.cert_checker.specs.declared.at_hand.Added as rows;
ghost use Rattle.case_tree.specs.Cuts.{cut};
ghost use Rattle.cert_checker.specs.Programs.{at_hand};
ghost use Rattle.cert_checker.specs.Columns.{ends};
ghost use Rattle.cert_checker.specs.Slots.{slot_at, IsStep};

use crate::slots::{add_entries, add_numbers, number_at, sum_numbers};
use crate::whole_rows::{are_whole_entries, are_whole_numbers};
use case_tree::{Cut, turned};
use fraction::{Frac, Wide};
use instance::{Goal, Instance, Row, Var};
use std::marker::Model;

/// A row that a certificate adds: its ends, and a coefficient for each variable.
#[derive(Drop)]
pub struct Added {
    pub ends: Row,
    pub coefficients: Vec<Frac>,
}

/// An instance's program with rows added, the first rows with the ends that a case gives them, asked for one goal. Contracts see it
/// as the program that it is.
#[derive(Drop)]
pub(crate) struct Program<'p, 'c> {
    instance: &'p Instance,
    added: &'p [Added],
    goal: &'p Goal,
    cut: &'c [Cut],
}

/// The ends that a column has at hand.
fn ends_of(cut: &Cut) -> Row
    ensures { row result ≡ ends cut.now }
{
    Row {
        lb: cut.lb,
        ub: cut.ub,
    }
}

/// The added row at a place.
fn added_at(added: &[Added], k: usize) -> &Added
    requires { k < length added.now }
    ensures { (d : rows.Added) → result.now ≡ slice_index_or added.now k d }
{
    &added[k]
}

impl<'p, 'c> Model for Program<'p, 'c> {
    ghost use Rattle.evidence.specs.Instance as Of;
    ghost use Rattle.cert_checker.specs.Programs.{at_hand};
    ghost use Rattle.cert_checker.specs.Columns.{with_ends};

    ghost Value = { Of.Instance };

    ghost view = { λ p. with_ends (at_hand p.instance.now p.added.now p.goal.now) p.cut.now };
}

impl<'p, 'c> Program<'p, 'c> {
    /// The instance's program with these rows, asked for this goal.
    pub(crate) fn of(instance: &'p Instance, added: &'p [Added], goal: &'p Goal) -> Program<'p, 'c>
        ensures { result ≡ at_hand instance.now added.now goal.now }
    {
        Program {
            instance,
            added,
            goal,
            cut: &[],
        }
    }

    /// The same program, whose rows have these ends.
    pub(crate) fn over<'q>(&self, cut: &'q [Cut]) -> Program<'p, 'q>
        requires { length cut.now ≡ Of.height self.now }
        ensures value { result ≡ record self.now { rows = map ends cut.now } }
        ensures numbers { Of.IsInstance result }
    {
        Program {
            instance: self.instance,
            added: self.added,
            goal: self.goal,
            cut,
        }
    }

    /// The variables.
    pub(crate) fn vars(&self) -> &'p [Var]
        ensures value { map variable result.now ≡ self.now.variables }
        ensures few { length result.now ≤ 1000 }
        ensures numbers { Of.IsInstance self.now }
    {
        self.instance.vars()
    }

    /// How many rows there are, with those that are added.
    pub(crate) fn height(&self) -> usize
        ensures value { result ≡ Of.height self.now }
        ensures few { Of.height self.now < 2 ^ 63 }
    {
        self.instance.rows().len() + self.added.len()
    }

    /// A row's ends.
    pub(crate) fn ends(&self, i: usize) -> Row
        requires { i < Of.height self.now }
        ensures { row result ≡ Of.row_at self.now i }
    {
        if i < self.cut.len() {
            return ends_of(&self.cut[i]);
        }
        let rows = self.instance.rows();
        if i < rows.len() {
            rows[i]
        } else {
            added_at(self.added, i - rows.len()).ends
        }
    }

    /// Adds a row's coefficients, each times a factor, to the sums of their variables.
    pub(crate) fn add_row(&self, slots: &mut [Option<Frac>], i: usize, by: Frac)
        requires room { length slots.old ≡ Of.width self.now }
        requires inside { i < Of.height self.now }
        ensures { (j : ℕ) → j < length slots.old → IsStep (slot_at slots.old j) (ratio by) (Of.entry_at self.now.entries i j) (slot_at slots.new j) }
    {
        let rows = self.instance.rows().len();
        if i < rows {
            let row = i as u32;
            add_entries(slots, self.instance.row_entries(row), by, row);
        } else {
            let added = added_at(self.added, i - rows);
            add_numbers(slots, added.coefficients.as_slice(), by);
        }
    }

    /// Whether a row's sum is whole where the whole variables are: its coefficients are whole at these, and 0 at the others.
    pub(crate) fn is_whole_row(&self, cuts: &[Cut], i: usize) -> bool
        requires count { length cuts.now ≡ Of.width self.now }
        requires inside { i < Of.height self.now }
        ensures { IsTrue result ↔ IsWholeRow (cut self.now cuts.now) i }
    {
        let rows = self.instance.rows().len();
        if i < rows {
            let row = i as u32;
            are_whole_entries(cuts, self.instance.row_entries(row), row)
        } else {
            let added = added_at(self.added, i - rows);
            are_whole_numbers(cuts, added.coefficients.as_slice())
        }
    }

    /// A row's activity at a point.
    pub(crate) fn activity_at(&self, i: usize, point: &[Frac]) -> Result<Frac, Wide>
        requires count { length point.now ≡ Of.width self.now }
        requires inside { i < Of.height self.now }
        ensures ok { IfOk result (λ r. IsSame (ratio r) (activity self.now (ratios point.now) i)) }
        ensures fits { IfOk result (λ _. RowFits self.now (ratios point.now) i) }
        ensures wide { OnErr result (RowFits self.now (ratios point.now) i → ⊥) }
    {
        let rows = self.instance.rows().len();
        if i < rows {
            self.instance.activity_at(i as u32, point)
        } else {
            let added = added_at(self.added, i - rows);
            sum_numbers(added.coefficients.as_slice(), point)
        }
    }

    /// A variable's cost, turned so that less is better.
    pub(crate) fn cost_at(&self, j: usize) -> Frac
        ensures { ratio result ≡ Of.minimising self.now (Of.cost_at self.now j) }
    {
        turned(self.goal.sense, number_at(self.goal.costs.as_slice(), j))
    }

    /// The goal's constant, turned so that less is better.
    pub(crate) fn constant(&self) -> Frac
        ensures { ratio result ≡ Of.minimising self.now self.now.goal.constant }
    {
        turned(self.goal.sense, self.goal.constant)
    }

    /// A value of the goal, turned so that less is better.
    pub(crate) fn turned(&self, value: Frac) -> Frac
        ensures { ratio result ≡ Of.minimising self.now (ratio value) }
    {
        turned(self.goal.sense, value)
    }
}
