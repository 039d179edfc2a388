//! Reads process documents.

ghost use Rattle.std.specs.Prelude.{◌≡◌, IfOk, IfErr, MatchOption, Ok, Err};
ghost use Rattle.ospl_grammar.specs.declared.fault.OsplFault.TheVariants.{Missing};
ghost use Rattle.ospl_grammar.specs.Meaning.{asked_or_told, IsProcessText};
ghost use Rattle.ospl_grammar.specs.Refusals.{DecodeFails};

use crate::fault::OsplFault;
use crate::parse_state::ParseState;
use crate::process::Process;
use doc_tree::TreeFault;
use std::alloc::Global;
use tag_tests::read_marks;

/// What marks say that were all taken.
fn said(mut parse_state: ParseState) -> Result<Process, OsplFault>
    ensures { MatchOption (asked_or_told parse_state.asked parse_state.told) (result ≡ Err Missing) (λ p. result ≡ Ok p) }
{
    match (parse_state.asked.take(), parse_state.told.take()) {
        (Some(action), _) => Ok(Process::Ask { action }),
        (None, Some(process)) => Ok(process),
        (None, None) => Err(OsplFault::Missing),
    }
}

/// The process that bytes say.
///
/// [`OsplFault::Tree`] exactly where they are no document within the limits, with the refusal of the first byte that decides
/// one and its place. The other faults exactly where they are a document that is refused so.
pub fn decode(alloc: Global, bytes: &[u8]) -> Result<Process, OsplFault>
    ensures ok { IfOk result (IsProcessText bytes.now) }
    ensures err { IfErr result (DecodeFails bytes.now) }
{
    match read_marks(alloc, bytes, ParseState::new(alloc)) {
        Ok(Ok(parse_state)) => said(parse_state),
        Ok(Err(())) => Err(OsplFault::Root),
        Err(TreeFault::Memory) => Err(OsplFault::Memory),
        Err(fault) => Err(OsplFault::Tree(fault)),
    }
}
