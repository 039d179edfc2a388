//! Why what two documents say together isn't accepted.

use cert_checker::Refused;
use osil_grammar::OsilFault;
use osrl_grammar::OsrlFault;
use std::alloc::AllocError;
use thiserror::Error;

/// Why two documents aren't accepted.
#[derive(Debug, Drop, Error)]
pub enum CheckFault {
    /// The instance's document is refused.
    #[error("refused Instance {0}")]
    Instance(OsilFault),
    /// The result document is refused.
    #[error("refused Result {0}")]
    Result(OsrlFault),
    /// What the result document claims is refused of the instance, or it claims nothing.
    #[error("refused {0}")]
    Claim(Refused),
    /// There was no memory.
    #[error("there was no memory")]
    Memory,
}

impl From<AllocError> for CheckFault {
    ghost from_gives = { λ _ f. f ≡ Memory };

    ghost use Rattle.std.specs.Prelude.{◌≡◌};
    ghost use Rattle.document_checker.specs.declared.fault.CheckFault.TheVariants.{Memory};

    fn from(_e: AllocError) -> CheckFault {
        CheckFault::Memory
    }
}
