//! A count of calls that failed.
ghost use Rattle.std.specs.Prelude.{◌≡◌, Ok, IfOk};
ghost use Rattle.os_io.specs.Streams.{Counts};

use os_io::Failed;
use std::io;

/// What std answered, where an error is a call that failed.
pub(crate) fn counted<T>(faults: &mut u64, answer: io::Result<T>) -> Result<T, Failed>
    ensures ok { IfOk result (λ value. answer ≡ Ok value) }
    ensures counted { Counts result faults.old faults.new }
{
    match answer {
        Ok(value) => Ok(value),
        Err(_) => {
            *faults = faults.saturating_add(1);
            Err(Failed)
        }
    }
}
