//! Claims with multipliers of rows alone.
ghost use Rattle.std.specs.Prelude.{◌≡◌, map, IfOk};
ghost use Rattle.solve_run.specs.RowForms as specs;

use certificate::{Cert, Certs, Claim, Mult, Mults, Node, Nodes, Round, Rounds};
use items::{Items, TryCopy};
use os_io::Memory;
use std::alloc::Global;

/// Whether its column isn't one of so many variables.
fn is_of_row(vars: u32, mult: Mult) -> bool
    ensures { result ≡ specs.is_of_row vars mult }
{
    vars <= mult.col
}

/// The multipliers of rows.
fn rows_of(alloc: Global, vars: u32, mults: &Mults) -> Result<Mults, Memory>
    ensures { IfOk result (λ rows. rows ≡ specs.rows_of vars mults.now) }
{
    let mut rows = Items::new(alloc);
    let whole = mults.as_slice();
    for i in 0..whole.len() {
        if is_of_row(vars, whole[i]) {
            rows.push(whole[i])?;
        }
    }
    Ok(rows)
}

/// A node whose multipliers are of rows alone.
fn node_of_rows(alloc: Global, vars: u32, node: &Node) -> Result<Node, Memory>
    ensures { IfOk result (λ rows. rows ≡ specs.node_of_rows vars node.now) }
{
    match node {
        Node::Farkas(mults) => Ok(Node::FarkasRows(rows_of(alloc, vars, mults)?)),
        Node::Bound(mults) => Ok(Node::BoundRows(rows_of(alloc, vars, mults)?)),
        Node::Grid { step, mults } => Ok(Node::GridRows {
            step: *step,
            mults: rows_of(alloc, vars, mults)?,
        }),
        Node::Split { .. }
        | Node::Zero { .. }
        | Node::Clash { .. }
        | Node::FarkasRows(_)
        | Node::BoundRows(_)
        | Node::GridRows { .. } => node.try_copy(alloc),
    }
}

/// The nodes of a tree, with multipliers of rows alone.
fn nodes_of_rows(alloc: Global, vars: u32, nodes: &Nodes) -> Result<Nodes, Memory>
    ensures { IfOk result (λ rows. rows ≡ map (specs.node_of_rows vars) nodes.now) }
{
    let mut rows = Items::new(alloc);
    let whole = nodes.as_slice();
    for i in 0..whole.len() {
        rows.push(node_of_rows(alloc, vars, &whole[i])?)?;
    }
    Ok(rows)
}

/// A round whose multipliers are of rows alone.
fn round_of_rows(alloc: Global, vars: u32, round: &Round) -> Result<Round, Memory>
    ensures { IfOk result (λ rows. rows ≡ specs.round_of_rows vars round.now) }
{
    match round {
        Round::Whole(mults) => Ok(Round::OfRows(rows_of(alloc, vars, mults)?)),
        Round::OfRows(_) => round.try_copy(alloc),
    }
}

/// The rounds of a certificate, with multipliers of rows alone.
fn rounds_of_rows(alloc: Global, vars: u32, rounds: &Rounds) -> Result<Rounds, Memory>
    ensures { IfOk result (λ rows. rows ≡ map (specs.round_of_rows vars) rounds.now) }
{
    let mut rows = Items::new(alloc);
    let whole = rounds.as_slice();
    for i in 0..whole.len() {
        rows.push(round_of_rows(alloc, vars, &whole[i])?)?;
    }
    Ok(rows)
}

/// A certificate with multipliers of rows alone.
fn cert_of_rows(alloc: Global, vars: u32, cert: &Cert) -> Result<Cert, Memory>
    ensures { IfOk result (λ rows. rows ≡ specs.cert_of_rows vars cert.now) }
{
    let rounds = rounds_of_rows(alloc, vars, &cert.rounds)?;
    let nodes = nodes_of_rows(alloc, vars, &cert.nodes)?;
    Ok(Cert { rounds, nodes })
}

/// The certificates of levels, with multipliers of rows alone.
fn certs_of_rows(alloc: Global, vars: u32, certs: &Certs) -> Result<Certs, Memory>
    ensures { IfOk result (λ rows. rows ≡ map (specs.cert_of_rows vars) certs.now) }
{
    let mut rows = Items::new(alloc);
    let whole = certs.as_slice();
    for i in 0..whole.len() {
        rows.push(cert_of_rows(alloc, vars, &whole[i])?)?;
    }
    Ok(rows)
}

/// The same claim, with multipliers of rows alone, where it is final.
pub fn claim_of_rows(alloc: Global, vars: u32, claim: &Claim) -> Result<Claim, Memory>
    ensures { IfOk result (λ rows. rows ≡ specs.claim_of_rows vars claim.now) }
{
    match claim {
        Claim::Optimal {
            point,
            values,
            certs,
        } => Ok(Claim::Optimal {
            point: point.try_copy(alloc)?,
            values: values.try_copy(alloc)?,
            certs: certs_of_rows(alloc, vars, certs)?,
        }),
        Claim::Infeasible { cert } => Ok(Claim::Infeasible {
            cert: cert_of_rows(alloc, vars, cert)?,
        }),
        Claim::Unbounded {
            point,
            values,
            certs,
            ray,
        } => Ok(Claim::Unbounded {
            point: point.try_copy(alloc)?,
            values: values.try_copy(alloc)?,
            certs: certs_of_rows(alloc, vars, certs)?,
            ray: ray.try_copy(alloc)?,
        }),
        Claim::BestSoFar { .. } | Claim::Unsure { .. } => claim.try_copy(alloc),
    }
}
