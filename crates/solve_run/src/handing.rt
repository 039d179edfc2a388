//! What becomes of a result that the options hand in.
ghost use Rattle.std.specs.Prelude.{◌≡◌, None, IfOk};
ghost use Rattle.solve_run.specs.Handing as specs;
ghost use Rattle.solve_run.specs.Runs.{IsHandingOf, IsTextHanding, beside_text};

use certificate::Claim;
use document_checker::{answer_text, shown_claim};
use handed_results::{Handed, read_handed};
use instance::Instance;
use os_io::{Memory, Text};
use std::alloc::Global;

/// What becomes of a result that the options hand in.
pub enum Handing {
    /// Its claim is the job's answer.
    Taken(Claim),
    /// There is none, or it isn't taken: the job's message about it.
    Passed(Option<Text>),
}

/// The message about a result that isn't taken.
fn message(alloc: Global, words: &[u8]) -> Result<Text, Memory>
    ensures { IfOk result (λ t. t ≡ specs.about_handed words.now) }
{
    let mut text = Text::from_slice(alloc, b"os_cert.result ")?;
    text.extend(words)?;
    Ok(text)
}

/// What becomes of a result of this text: its claim is taken where what it carries shows it of the instance.
fn judge_text(alloc: Global, instance: &Instance, osrl: &[u8]) -> Result<Handing, Memory>
    ensures { IfOk result (IsTextHanding instance.now osrl.now) }
{
    match shown_claim(alloc, instance, osrl) {
        Ok(claim) => Ok(Handing::Taken(claim)),
        Err(fault) => {
            let words = answer_text(alloc, &Err(fault))?;
            Ok(Handing::Passed(Some(message(alloc, words.as_slice())?)))
        }
    }
}

/// What becomes of the result that the text of options hands in, for a job with this instance.
fn judge_options(alloc: Global, instance: &Instance, osol: &[u8]) -> Result<Handing, Memory>
    ensures { IfOk result (IsHandingOf None osol.now instance.now) }
{
    match read_handed(alloc, osol)? {
        Handed::Nothing => Ok(Handing::Passed(None)),
        Handed::Once(text) => judge_text(alloc, instance, text.as_slice()),
        Handed::Twice => Ok(Handing::Passed(Some(message(alloc, b"refused Twice")?))),
    }
}

/// What becomes of what is handed in, for a job with this instance: of the text beside the options, where there is one, in place of
/// what they hand in.
pub fn judge_handed(
    alloc: Global,
    instance: &Instance,
    osol: &[u8],
    beside: Option<&[u8]>,
) -> Result<Handing, Memory>
    ensures { IfOk result (IsHandingOf (beside_text beside.entry) osol.now instance.now) }
{
    match beside {
        Some(osrl) => judge_text(alloc, instance, osrl),
        None => judge_options(alloc, instance, osol),
    }
}
