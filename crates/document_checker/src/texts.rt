//! Answers of checks in words.

ghost use Rattle.std.specs.Prelude.{◌≡◌, ◌++◌, IfOk, OnOk, codes};
ghost use Rattle.document_checker.specs.Texts as spoken;

use crate::documents::Kind;
use crate::fault::CheckFault;
use cert_checker::Refused;
use decimal_text::write_ratio;
use fraction::Frac;
use os_io::{Memory, Text};
use std::alloc::{AllocError, Global};

/// Appends how good a point can be at most, where that is known.
fn put_within(text: &mut Text, bound: Option<Frac>) -> Result<(), Memory>
    ensures { OnOk result (text.new ≡ text.old ++ spoken.within_words bound) }
{
    match bound {
        Some(number) => {
            text.extend(b" within ")?;
            write_ratio(number, text)
        }
        None => Ok(()),
    }
}

/// Appends a kind by its word, as a solution's status has it, with its bound where it has one.
fn put_kind(text: &mut Text, kind: Kind) -> Result<(), Memory>
    ensures { OnOk result (text.new ≡ text.old ++ spoken.kind_words kind) }
{
    match kind {
        Kind::Optimal => text.extend(b"optimal"),
        Kind::Infeasible => text.extend(b"infeasible"),
        Kind::Unbounded => text.extend(b"unbounded"),
        Kind::BestSoFar { bound } => {
            text.extend(b"bestSoFar")?;
            put_within(text, bound)
        }
        Kind::Unsure { bound } => {
            text.extend(b"unsure")?;
            put_within(text, Some(bound))
        }
    }
}

/// `refused`, and why a claim is.
fn refused_text(alloc: Global, reason: Refused) -> Result<Text, Memory>
    ensures { IfOk result (λ t. t ≡ spoken.refused_text reason) }
{
    Ok(Text::from_vec(format!(in alloc; "refused {reason}")?.into_bytes()))
}

/// `refused`, a name, a space, and what a document's own text says.
fn quoted(alloc: Global, name: &[u8], told: &Text) -> Result<Text, Memory>
    ensures { IfOk result (λ t. t ≡ spoken.quoted name.now told.now) }
{
    let mut text = Text::from_slice(alloc, b"refused ")?;
    text.extend(name)?;
    text.push(b' ')?;
    text.extend(told.as_slice())?;
    Ok(text)
}

/// Why documents aren't accepted.
fn fault_text(alloc: Global, fault: &CheckFault) -> Result<Text, Memory>
    ensures { IfOk result (λ t. spoken.IsCheckFaultText fault.now t) }
{
    match fault {
        CheckFault::Instance(fault) => {
            let told = osil_grammar::refusal_text(alloc, fault)?;
            quoted(alloc, b"Instance", &told)
        }
        CheckFault::Result(fault) => {
            let told = osrl_grammar::refusal_text(alloc, *fault)?;
            quoted(alloc, b"Result", &told)
        }
        CheckFault::Claim(reason) => refused_text(alloc, *reason),
        CheckFault::Memory => Err(AllocError),
    }
}

/// The text of an answer: `accepted` and what is accepted, with `within` and the number where there is a bound, or `refused`, the reason's name and its numbers, or the
/// document of the two that is refused and that document's own text; one space between. A fault for want of memory has no
/// text.
pub fn answer_text(alloc: Global, answer: &Result<Kind, CheckFault>) -> Result<Text, Memory>
    ensures { IfOk result (λ t. spoken.IsAnswerText answer.now t) }
{
    match answer {
        Ok(kind) => {
            let mut text = Text::from_slice(alloc, b"accepted ")?;
            put_kind(&mut text, *kind)?;
            Ok(text)
        }
        Err(fault) => fault_text(alloc, fault),
    }
}
