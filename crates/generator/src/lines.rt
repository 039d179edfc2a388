//! Says in a line how a generated instance was solved.

ghost use Rattle.std.specs.Prelude.{◌≡◌, ◌++◌, IfOk, OnOk};
ghost use Rattle.certificate.specs.Nodes.{cert_of, certs_of};
ghost use Rattle.generator.specs.Lines.{status_word, first_value, value_word, first_count, check_word, summary};

use certificate::{Cert, Claim, ProvedBound};
use decimal_text::write_ratio;
use fraction::Frac;
use itoa::Buffer;
use os_io::{Memory, Text};
use std::alloc::Global;

/// The type of the status of a solution that has the claim.
fn status_word(claim: &Claim) -> &'static [u8]
    ensures { result.now ≡ status_word claim.now }
{
    match claim {
        Claim::Optimal { .. } => b"optimal",
        Claim::Infeasible { .. } => b"infeasible",
        Claim::Unbounded { .. } => b"unbounded",
        Claim::BestSoFar { .. } => b"bestSoFar",
        Claim::Unsure { .. } => b"unsure",
    }
}

/// Writes the first value as a ratio, or `none`.
fn put_first(line: &mut Text, values: &[Frac]) -> Result<(), Memory>
    ensures { OnOk result (line.new ≡ line.old ++ first_value values.now) }
{
    if values.is_empty() {
        return line.extend(b"none");
    }
    write_ratio(values[0], line)
}

/// Writes the value of the claimed point as a ratio, or `none`.
fn put_value(line: &mut Text, claim: &Claim) -> Result<(), Memory>
    ensures { OnOk result (line.new ≡ line.old ++ value_word claim.now) }
{
    match claim {
        Claim::Optimal { values, .. } => put_first(line, values.as_slice()),
        Claim::Unbounded { values, .. } => put_first(line, values.as_slice()),
        Claim::BestSoFar { values, .. } => put_first(line, values.as_slice()),
        _ => line.extend(b"none"),
    }
}

/// How many nodes the first certificate has.
fn count_first(certs: &[Cert]) -> usize
    ensures { result ≡ first_count certs.now }
{
    if certs.is_empty() {
        return 0;
    }
    certs[0].nodes.len()
}

/// How many nodes a bound's certificate has.
fn count_bound(bound: &Option<ProvedBound>) -> usize
    ensures { result ≡ first_count (cert_of bound.now) }
{
    match bound {
        Some(bound) => bound.cert.nodes.len(),
        None => 0,
    }
}

/// How many nodes the claim's first certificate has.
fn count_nodes(claim: &Claim) -> usize
    ensures { result ≡ first_count (certs_of claim.now) }
{
    match claim {
        Claim::Optimal { certs, .. } => count_first(certs.as_slice()),
        Claim::Infeasible { cert } => cert.nodes.len(),
        Claim::Unbounded { certs, .. } => count_first(certs.as_slice()),
        Claim::BestSoFar { bound, .. } | Claim::Unsure { bound, .. } => count_bound(bound),
    }
}

/// What the checker says of the claim.
fn check_word(is_accepted: bool) -> &'static [u8]
    ensures { result.now ≡ check_word is_accepted }
{
    if is_accepted {
        b"accepted"
    } else {
        b"unchecked"
    }
}

/// The line that says what is claimed of the generated instance of `n` variables: the status and the value of the
/// solution, the number of nodes of its certificate, and whether the checker accepts it.
pub fn line_of(alloc: Global, n: u32, claim: &Claim, is_accepted: bool) -> Result<Text, Memory>
    ensures { IfOk result (λ line. line ≡ summary n claim.now is_accepted) }
{
    let mut line = Text::from_slice(alloc, b"generate ")?;
    line.extend(Buffer::new().format(n).as_bytes())?;
    line.push(b' ')?;
    line.extend(status_word(claim))?;
    line.push(b' ')?;
    put_value(&mut line, claim)?;
    line.extend(b" nodes ")?;
    line.extend(Buffer::new().format(count_nodes(claim)).as_bytes())?;
    line.push(b' ')?;
    line.extend(check_word(is_accepted))?;
    line.push(b'\n')?;
    Ok(line)
}
