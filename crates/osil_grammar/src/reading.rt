//! Reads documents.

ghost use Rattle.std.specs.Prelude.{IfOk, IfErr};
ghost use Rattle.osil_grammar.specs.Reading.{IsInstanceText};
ghost use Rattle.osil_grammar.specs.Reading.{DecodeFails};

use crate::decoder::Decoder;
use crate::fault::OsilFault;
use instance::Instance;
use std::alloc::Global;

/// The instance that an OSiL document stands for.
///
/// [`OsilFault::Tree`] exactly where the bytes are no document within the limits, with the refusal of the first byte
/// that decides one and its place. [`OsilFault::Refused`] exactly where they are a document that is refused: of the
/// first tag at which something is decided the least refusal.
pub fn decode(alloc: Global, bytes: &[u8]) -> Result<Instance, OsilFault>
    ensures ok { IfOk result (λ p. IsInstanceText bytes.now p) }
    ensures err { IfErr result (DecodeFails bytes.now) }
{
    let mut decoder = Decoder::new(alloc);
    // what is refused here is told again in the end
    let _ = decoder.feed(bytes);
    decoder.finish()
}
