//! Claims as texts.
use certificate::{Cause, Cert, Certs, Claim, Mults, Node, Round, Values};
use decimal_text::write_ratio;
use fraction::Frac;
use itoa::Buffer;
use os_io::{Memory, Text};
use tableaus::put_count;

fn put_numbers(text: &mut Text, word: &[u8], numbers: &[Frac]) -> Result<(), Memory> {
    text.extend(word)?;
    for number in numbers {
        text.push(b' ')?;
        write_ratio(*number, text)?;
    }
    Ok(())
}

fn put_mults(text: &mut Text, word: &[u8], mults: &Mults) -> Result<(), Memory> {
    text.extend(word)?;
    for mult in mults.as_slice() {
        text.push(b' ')?;
        put_count(text, mult.col as u64)?;
        text.push(b':')?;
        write_ratio(mult.value, text)?;
    }
    Ok(())
}

fn put_grid(text: &mut Text, word: &[u8], step: Frac, mults: &Mults) -> Result<(), Memory> {
    text.extend(word)?;
    write_ratio(step, text)?;
    put_mults(text, b"", mults)
}

fn put_node(text: &mut Text, node: &Node) -> Result<(), Memory> {
    match node {
        Node::Split { col, k } => {
            text.extend(b"split ")?;
            put_count(text, *col as u64)?;
            text.push(b' ')?;
            text.extend(Buffer::new().format(*k).as_bytes())
        }
        Node::Zero { col } => {
            text.extend(b"zero ")?;
            put_count(text, *col as u64)
        }
        Node::Clash { col } => {
            text.extend(b"clash ")?;
            put_count(text, *col as u64)
        }
        Node::Farkas(mults) => put_mults(text, b"farkas", mults),
        Node::Bound(mults) => put_mults(text, b"bound", mults),
        Node::Grid { step, mults } => put_grid(text, b"grid ", *step, mults),
        Node::FarkasRows(mults) => put_mults(text, b"farkasRows", mults),
        Node::BoundRows(mults) => put_mults(text, b"boundRows", mults),
        Node::GridRows { step, mults } => put_grid(text, b"gridRows ", *step, mults),
    }
}

fn put_round(text: &mut Text, round: &Round) -> Result<(), Memory> {
    match round {
        Round::Whole(mults) => put_mults(text, b"round", mults),
        Round::OfRows(mults) => put_mults(text, b"roundRows", mults),
    }
}

fn put_cert(text: &mut Text, cert: &Cert) -> Result<(), Memory> {
    for round in cert.rounds.as_slice() {
        text.extend(b" (")?;
        put_round(text, round)?;
        text.push(b')')?;
    }
    for node in cert.nodes.as_slice() {
        text.extend(b" (")?;
        put_node(text, node)?;
        text.push(b')')?;
    }
    Ok(())
}

/// Puts the certificates of levels, with the number of each but the first.
fn put_certs(text: &mut Text, certs: &Certs) -> Result<(), Memory> {
    let certs = certs.as_slice();
    for k in 0..certs.len() {
        if k == 0 {
            text.extend(b" by")?;
        } else {
            text.extend(b" level ")?;
            put_count(text, k as u64 + 1)?;
        }
        put_cert(text, &certs[k])?;
    }
    Ok(())
}

fn put_cause(text: &mut Text, cause: Cause) -> Result<(), Memory> {
    match cause {
        Cause::Killed => text.extend(b" killed"),
        Cause::NodeLimit(count) => {
            text.extend(b" nodeLimit ")?;
            put_count(text, count as u64)
        }
        Cause::TurnLimit(count) => {
            text.extend(b" turnLimit ")?;
            put_count(text, count as u64)
        }
        Cause::Gap => text.extend(b" gap"),
        Cause::TimeLimit(seconds) => {
            text.extend(b" timeLimit ")?;
            write_ratio(seconds, text)
        }
        Cause::Wide(place) => {
            text.extend(b" wide ")?;
            put_count(text, place.node as u64)?;
            text.push(b' ')?;
            put_count(text, place.turn)?;
            text.push(b' ')?;
            text.extend(place.step.name())
        }
        Cause::Length => text.extend(b" length"),
        Cause::Memory => text.extend(b" memory"),
    }
}

fn put_point(text: &mut Text, point: &[Frac], values: &Values) -> Result<(), Memory> {
    put_numbers(text, b" at", point)?;
    put_numbers(text, b" value", values.as_slice())
}

/// Puts a claim, with what it carries.
pub fn put_claim(text: &mut Text, claim: &Claim) -> Result<(), Memory> {
    match claim {
        Claim::Optimal {
            point,
            values,
            certs,
        } => {
            text.extend(b"optimal")?;
            put_point(text, point.as_slice(), values)?;
            put_certs(text, certs)
        }
        Claim::Infeasible { cert } => {
            text.extend(b"infeasible by")?;
            put_cert(text, cert)
        }
        Claim::Unbounded {
            point,
            values,
            certs,
            ray,
        } => {
            text.extend(b"unbounded")?;
            put_point(text, point.as_slice(), values)?;
            put_certs(text, certs)?;
            put_numbers(text, b" along", ray.as_slice())
        }
        Claim::BestSoFar {
            point,
            values,
            cause,
            ..
        } => {
            text.extend(b"bestSoFar")?;
            put_point(text, point.as_slice(), values)?;
            put_cause(text, *cause)
        }
        Claim::Unsure { cause, .. } => {
            text.extend(b"unsure")?;
            put_cause(text, *cause)
        }
    }
}
