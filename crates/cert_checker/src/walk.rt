//! The walk through a tree of cases.
ghost use Rattle.std.specs.Prelude.{◌≡◌, ◌↔◌, ◌+◌, ◌-◌, ◌<◌, ◌≤◌, ◌^◌, ◌∷◌, [], neg_ℤ, ◌≤ℤ◌, pos, List, length, map, take, drop, Some, IsTrue, IfSome, IfOk, OnOk, IfErr};
ghost use Rattle.std.specs.List.{All};
ghost use Rattle.rational.specs.Width.{most};
ghost use Rattle.evidence.specs.Instance.{width, height};
ghost use Rattle.evidence.specs.Cases as Cases;
ghost use Rattle.evidence.specs.Width.{ProvesWithin};
ghost use Rattle.instance.specs.Program.{row, variable};
ghost use Rattle.certificate.specs.Meanings as Means;
ghost use Rattle.certificate.specs.Nodes.{IsInRange};
ghost use Rattle.case_tree.specs.Cuts.{cut, cut_variable, AreBranches};
ghost use Rattle.cert_checker.specs.Cuts as Of;
ghost use Rattle.cert_checker.specs.Columns.{ends, open_cases};
ghost use Rattle.cert_checker.specs.Trees.{TreeRefuses, LeadsThrough};

use crate::at_hand::Program;
use crate::clash::check_clash;
use crate::grids::check_grid_leaf;
use crate::leaf::check_leaf;
use crate::refused::Unshown;
use crate::row_leaves::{check_bound_rows, check_grid_row_leaf, check_row_leaf};
use case_tree::{Branch, Cut, Division, back, enter, is_branch, is_zero_branch, uncut};
use certificate::Node;
use fraction::{End, Frac, MAX};
use instance::{Row, Var};

/// Whether the column is a whole variable, or a row whose sum is whole, and the number has a next one that fits.
fn is_split(program: &Program, cuts: &[Cut], col: u32, k: i128) -> bool
    requires count { length cuts.now ≡ width program.now }
    requires low { neg_ℤ (pos most) ≤ℤ k }
    ensures { IsTrue result ↔ Cases.IsSplit (cut program.now cuts.now) col k }
{
    let c = col as usize;
    let n = cuts.len();
    if c < n {
        is_branch(cuts, col, k)
    } else {
        c - n < program.height() && k < MAX && program.is_whole_row(cuts, c - n)
    }
}

/// Whether a node has its place and shows its case. A split opens two more cases, any other node ends one; the answer is how
/// many branches are then above the case at hand, or none where all cases are shown.
fn step(
    program: &Program,
    cuts: &mut [Cut],
    slots: &mut [Option<Frac>],
    branches: &mut [Branch],
    depth: usize,
    node: &Node,
    aim: Option<Frac>,
    number: u32,
) -> Result<Option<usize>, Unshown>
    requires count { length cuts.old ≡ width program.now + height program.now }
    requires slots { length slots.old ≡ width program.now }
    requires room { depth < length branches.old }
    requires above { AreBranches (length cuts.old) branches.old depth }
    requires range { IsInRange node.now }
    ensures depth { IfOk result (λ next. IfSome next (λ d. d ≤ depth + 1)) }
    ensures above { IfOk result (λ next. IfSome next (λ d. AreBranches (length cuts.old) branches.new d)) }
    ensures ok { IfOk result (λ next. (rest : List Cases.Node) → LeadsThrough (open_cases (width program.now) program.now cuts.old branches.old (Some depth)) (Means.node node.now ∷ rest) number (open_cases (width program.now) program.now cuts.new branches.new next) rest (number + 1) (Of.aim aim)) }
    ensures err { IfErr result (λ r. (rest : List Cases.Node) → TreeRefuses (open_cases (width program.now) program.now cuts.old branches.old (Some depth)) (Means.node node.now ∷ rest) (Of.aim aim) number r) }
{
    let n = slots.len();
    let columns: &[Cut] = cuts;
    let case = program.over(&columns[n..]);
    let vars = &columns[..n];
    match node {
        Node::Split { col, k } => {
            if !is_split(&case, vars, *col, *k) {
                return Err(Unshown::Tree { node: number });
            }
            enter(cuts, branches, depth, *col, Division::Split(*k));
            return Ok(Some(depth + 1));
        }
        Node::Zero { col } => {
            if !is_zero_branch(vars, *col) {
                return Err(Unshown::Tree { node: number });
            }
            enter(cuts, branches, depth, *col, Division::Zero);
            return Ok(Some(depth + 1));
        }
        Node::Clash { col } => check_clash(&case, vars, *col, number)?,
        Node::Farkas(mults) => { check_leaf(&case, vars, slots, mults.as_slice(), None, number)? }
        Node::Bound(mults) => {
            if aim.is_none() {
                return Err(Unshown::Tree { node: number });
            }
            check_leaf(&case, vars, slots, mults.as_slice(), aim, number)?
        }
        Node::Grid { step, mults } => {
            check_grid_leaf(&case, vars, slots, mults.as_slice(), *step, aim, number)?
        }
        Node::FarkasRows(mults) => {
            check_row_leaf(&case, vars, slots, mults.as_slice(), None, number)?
        }
        Node::BoundRows(mults) => {
            check_bound_rows(&case, vars, slots, mults.as_slice(), aim, number)?
        }
        Node::GridRows { step, mults } => {
            check_grid_row_leaf(&case, vars, slots, mults.as_slice(), *step, aim, number)?
        }
    }
    Ok(back(cuts, branches, depth))
}

/// Makes the variables as they are before any branch.
pub(crate) fn uncut_all(vars: &[Var], cuts: &mut [Cut])
    requires { length vars.now ≤ length cuts.old }
    ensures { take (length vars.now) (map cut_variable cuts.new) ≡ map variable vars.now }
{
    for j in 0..vars.len() {
        cuts[j] = uncut(vars[j]);
    }
}

/// A column with these ends, as rows have it.
fn row_column(range: Row) -> Cut
    ensures { ends result ≡ row range }
{
    Cut {
        lb: range.lb,
        ub: range.ub,
        var: Var {
            lb: End::NegInf,
            ub: End::Inf,
            whole: false,
            zero: false,
        },
    }
}

/// Makes the columns behind the variables as the rows are before any branch.
fn uncut_rows(program: &Program, cuts: &mut [Cut], n: usize)
    requires count { length cuts.old ≡ n + height program.now }
    ensures variables { take n cuts.new ≡ take n cuts.old }
    ensures rows { map ends (drop n cuts.new) ≡ program.now.rows }
{
    for i in 0..program.height() {
        cuts[n + i] = row_column(program.ends(i));
    }
}

/// Whether the nodes are those of a tree that shows that no point is better than the value that is aimed at; without one, that
/// none is feasible.
pub(crate) fn check_tree(
    program: &Program,
    nodes: &[Node],
    aim: Option<Frac>,
    cuts: &mut [Cut],
    slots: &mut [Option<Frac>],
    branches: &mut [Branch],
) -> Result<(), Unshown>
    requires count { length cuts.old ≡ width program.now + height program.now }
    requires slots { length slots.old ≡ width program.now }
    requires room { length nodes.now ≤ length branches.old }
    requires few { length nodes.now < 2 ^ 32 - 1 }
    requires range { All IsInRange nodes.now }
    ensures ok { OnOk result (ProvesWithin program.now (Means.nodes nodes.now) (Of.aim aim)) }
    ensures err { IfErr result (TreeRefuses (program.now ∷ []) (Means.nodes nodes.now) (Of.aim aim) 1) }
{
    uncut_all(program.vars(), cuts);
    uncut_rows(program, cuts, slots.len());
    let mut next = Some(0);
    for i in 0..nodes.len() {
        let number = i as u32 + 1;
        match next {
            Some(depth) => {
                next = step(
                    program, cuts, slots, branches, depth, &nodes[i], aim, number,
                )?;
            }
            None => return Err(Unshown::Tree { node: number }),
        }
    }
    match next {
        Some(_) => Err(Unshown::Tree {
            node: nodes.len() as u32 + 1,
        }),
        None => Ok(()),
    }
}
