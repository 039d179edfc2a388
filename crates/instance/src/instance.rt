//! Instances, with their limits.
ghost use Rattle.std.specs.Prelude.{◌≡◌, ◌↔◌, ◌<◌, ℕ, length, nat_eq, IsSome, IfSome, MatchOption, IfOk, OnErr};
ghost use Rattle.std.specs.List.{filter};
ghost use Rattle.rational.specs.Ratio.{IsSame};
ghost use Rattle.fraction.specs.Frac.{ratio, ratios};
ghost use Rattle.evidence.specs.Point.{activity, objective};
ghost use Rattle.evidence.specs.Width.{RowFits, GoalFits};
ghost use Rattle.evidence.specs.Instance.{height, asking};
ghost use Rattle.evidence.specs.Columns.{IsFirstWide};

use crate::checks::{are_ascending, are_inside, goals_have_costs, rows_have_ends, vars_have_ends};
use crate::ends::{first_out, is_between};
use crate::feasible::Feas;
use crate::parts::{Goal, Row, Var};
use crate::rows::entries_of;
use crate::sums::{sum_entries, sum_products};
use fraction::{Entry, Frac, Wide};
use std::marker::Model;

/// The most variables of an instance.
pub const MAX_VARS: usize = 1_000;

/// The most rows of an instance.
pub const MAX_ROWS: usize = 1_000;

/// The most goals of an instance.
pub const MAX_GOALS: usize = 8;

/// The most entries of an instance's matrix.
pub const MAX_ENTRIES: usize = 100_000;

/// A linear or integer program, which contracts see as its parts.
#[derive(Debug, Drop)]
pub struct Instance {
    vars: Vec<Var>,
    rows: Vec<Row>,
    entries: Vec<Entry>,
    goals: Vec<Goal>,
}

impl Model for Instance {
    ghost use Rattle.instance.specs.Parts.{Parts, IsValid};

    ghost Value = { Parts };

    ghost view = { λ i. record { vars = i.vars.items; rows = i.rows.items; entries = i.entries.items; goals = i.goals.items } };

    ghost invariant = { λ i. IsValid (record { vars = i.vars.items; rows = i.rows.items; entries = i.entries.items; goals = i.goals.items }) };
}

impl Instance {
    ghost use Rattle.instance.specs.Parts.{IsValid, IsAscending};
    ghost use Rattle.instance.specs.Program.{goal as meaning, program, problem};
    ghost use Rattle.instance.specs.Feasibility.{RowsKeptBelow, IsFirstRowOut, IsFirstRowWide, TellsFeasible};

    /// The instance of these parts.
    ///
    /// None exactly where they aren't valid: more than [`MAX_VARS`] variables, [`MAX_ROWS`] rows or [`MAX_ENTRIES`]
    /// entries; no goal or more than [`MAX_GOALS`]; a goal whose number of costs isn't that of the variables; entries that
    /// aren't strictly ascending by row and column, past the rows or columns, or 0; a lower end of infinity or an upper one
    /// of minus infinity.
    pub fn of(
        vars: Vec<Var>,
        rows: Vec<Row>,
        entries: Vec<Entry>,
        goals: Vec<Goal>,
    ) -> Option<Instance>
        ensures valid { IsSome result ↔ IsValid (record { vars = vars.items; rows = rows.items; entries = entries.items; goals = goals.items }) }
        ensures parts { IfSome result (λ i. i ≡ record { vars = vars.items; rows = rows.items; entries = entries.items; goals = goals.items }) }
    {
        let fits = vars.len() <= MAX_VARS
            && rows.len() <= MAX_ROWS
            && entries.len() <= MAX_ENTRIES
            && !goals.is_empty()
            && goals.len() <= MAX_GOALS
            && goals_have_costs(goals.as_slice(), vars.len());
        let ends = vars_have_ends(&vars) && rows_have_ends(&rows);
        if fits && ends && are_ascending(&entries) && are_inside(&entries, rows.len(), vars.len()) {
            Some(Instance {
                vars,
                rows,
                entries,
                goals,
            })
        } else {
            None
        }
    }

    /// The variables.
    pub fn vars(&self) -> &[Var]
        ensures value { result.now ≡ self.now.vars }
        ensures valid { IsValid self.now }
    {
        &self.vars
    }

    /// The rows.
    pub fn rows(&self) -> &[Row]
        ensures value { result.now ≡ self.now.rows }
        ensures valid { IsValid self.now }
    {
        &self.rows
    }

    /// The entries of the matrix, ascending by row and column.
    pub fn entries(&self) -> &[Entry]
        ensures value { result.now ≡ self.now.entries }
        ensures valid { IsValid self.now }
    {
        &self.entries
    }

    /// The goals, in order.
    pub fn goals(&self) -> &[Goal]
        ensures value { result.now ≡ self.now.goals }
        ensures valid { IsValid self.now }
    {
        &self.goals
    }

    /// The first goal, which is that of the instance's program.
    pub fn first_goal(&self) -> &Goal
        ensures goal { meaning result.now ≡ (program self.now).goal }
        ensures costs { length result.now.costs ≡ length self.now.vars }
        ensures valid { IsValid self.now }
    {
        let goals = self.goals();
        &goals[0]
    }

    /// The entries of one row, ascending by column.
    pub fn row_entries(&self, row: u32) -> &[Entry]
        ensures entries { result.now ≡ filter (λ e. nat_eq e.row row) self.now.entries }
        ensures ascending { IsAscending result.now }
        ensures valid { IsValid self.now }
    {
        entries_of(self.entries(), row)
    }

    /// A row's activity at a point: the sum, from 0, of its coefficients, each times its variable, in ascending order.
    ///
    /// [`Wide`] exactly where one of these products or sums doesn't fit; terms with a factor 0 are left out.
    pub fn activity_at(&self, row: u32, point: &[Frac]) -> Result<Frac, Wide>
        requires { length point.now ≡ length self.now.vars }
        ensures ok { IfOk result (λ r. IsSame (ratio r) (activity (program self.now) (ratios point.now) row)) }
        ensures fits { IfOk result (λ _. RowFits (program self.now) (ratios point.now) row) }
        ensures wide { OnErr result (RowFits (program self.now) (ratios point.now) row → ⊥) }
    {
        let row = self.row_entries(row);
        sum_entries(row, point)
    }

    /// The value of a goal at a point: the sum, from the constant, of the costs, each times its variable.
    ///
    /// [`Wide`] exactly where one of these products or sums doesn't fit; terms with a factor 0 are left out.
    pub fn objective_at(&self, goal: u32, point: &[Frac]) -> Result<Frac, Wide>
        requires inside { goal < length self.now.goals }
        requires count { length point.now ≡ length self.now.vars }
        ensures ok { IfOk result (λ r. IsSame (ratio r) (objective (asking (problem self.now) goal) (ratios point.now))) }
        ensures fits { IfOk result (λ _. GoalFits (asking (problem self.now) goal) (ratios point.now)) }
        ensures wide { OnErr result (GoalFits (asking (problem self.now) goal) (ratios point.now) → ⊥) }
    {
        let goals = self.goals();
        let goal = &goals[goal as usize];
        sum_products(goal.constant, goal.costs.as_slice(), point)
    }

    /// The first row that the point doesn't keep.
    fn first_row_out(&self, point: &[Frac]) -> Result<Option<usize>, Wide>
        requires { length point.now ≡ length self.now.vars }
        ensures found { IfOk result (λ o. MatchOption o (RowsKeptBelow (program self.now) (ratios point.now) (height (program self.now))) (IsFirstRowOut (program self.now) (ratios point.now))) }
        ensures wide { OnErr result ((i : ℕ) × IsFirstRowWide (program self.now) (ratios point.now) i) }
    {
        let rows = self.rows();
        for i in 0..rows.len() {
            let row = rows[i];
            let activity = self.activity_at(i as u32, point)?;
            if !is_between(row.lb, row.ub, activity) {
                return Ok(Some(i));
            }
        }
        Ok(None)
    }

    /// Whether a point is feasible: each variable, then each row is between its ends, and whole variables are whole.
    ///
    /// [`Wide`] exactly where the first check that fails is a row's whose sum doesn't fit.
    pub fn feasible(&self, point: &[Frac]) -> Result<Feas, Wide>
        requires { length point.now ≡ length self.now.vars }
        ensures found { IfOk result (TellsFeasible (program self.now) (ratios point.now)) }
        ensures wide { OnErr result (IsFirstWide (program self.now) (ratios point.now)) }
    {
        let vars = self.vars();
        if let Some(j) = first_out(vars, point) {
            return Ok(Feas::No { col: j as u32 });
        }
        match self.first_row_out(point)? {
            Some(i) => Ok(Feas::No {
                col: (vars.len() + i) as u32,
            }),
            None => Ok(Feas::Yes),
        }
    }
}
