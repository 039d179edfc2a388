//! Reads options.

ghost use Rattle.std.specs.Prelude.{IfOk, IfErr};
ghost use Rattle.osol_grammar.specs.Meaning.{IsOptionsText};
ghost use Rattle.osol_grammar.specs.Reading.{DecodeFails};

use crate::fault::OsolFault;
use crate::options::Options;
use crate::parse_state::{ParseState, Refused};
use decimal_text::trim;
use doc_tree::TreeFault;
use std::alloc::Global;
use tag_tests::read_marks;

/// The options that bytes say: none where they are white space alone, or nothing.
///
/// [`OsolFault::Tree`] exactly where they are something else, and no document within the limits, with the refusal of the
/// first byte that decides one and its place. [`OsolFault::Refused`] exactly where they are a document that is refused: the
/// first tag that isn't taken is refused so.
pub fn decode(alloc: Global, bytes: &[u8]) -> Result<Options, OsolFault>
    ensures ok { IfOk result (IsOptionsText bytes.now) }
    ensures err { IfErr result (DecodeFails bytes.now) }
{
    if trim(bytes).is_empty() {
        return Ok(Options::none());
    }
    match read_marks(alloc, bytes, ParseState::new(alloc)) {
        Ok(Ok(parse_state)) => Ok(parse_state.options),
        Ok(Err(Refused { refusal, at })) => Err(OsolFault::Refused { refusal, at }),
        Err(TreeFault::Memory) => Err(OsolFault::Memory),
        Err(fault) => Err(OsolFault::Tree(fault)),
    }
}
