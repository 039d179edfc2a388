//! Reads reports.

ghost use Rattle.std.specs.Prelude.{IfOk, IfErr};
ghost use Rattle.osrl_grammar.specs.Reading.{IsReportText, DecodeFails};

use crate::fault::OsrlFault;
use crate::parse_state::ParseState;
use doc_tree::TreeFault;
use osrl_writing::Report;
use std::alloc::Global;
use tag_tests::read_marks;

/// The report that a result document is.
///
/// [`OsrlFault::Tree`] exactly where the bytes are no document within the limits, with the refusal of the first byte
/// that decides one and its place. The other faults, but for want of memory, exactly where they are a document that is
/// refused so.
pub fn decode(alloc: Global, bytes: &[u8]) -> Result<Report, OsrlFault>
    ensures ok { IfOk result (IsReportText bytes.now) }
    ensures err { IfErr result (DecodeFails bytes.now) }
{
    match read_marks(alloc, bytes, ParseState::new(alloc)) {
        Ok(Ok(parse_state)) => Ok(parse_state.report()),
        Ok(Err(fault)) => Err(fault),
        Err(TreeFault::Memory) => Err(OsrlFault::Memory),
        Err(fault) => Err(OsrlFault::Tree(fault)),
    }
}
