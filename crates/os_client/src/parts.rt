//! The call that files hold.

ghost use Rattle.std.specs.Prelude.{◌≡◌, IfOk, IsOk};
ghost use Rattle.os_io.specs.Files.{CountsFiles};
ghost use Rattle.os_client.specs.Runs.{named_by, IsCallInFiles, NamesNone};

use command_answers::read_named;
use command_line::CallWords;
use os_io::{FileFault, Files};
use soap_calls::{Parts, SoapCall, call_of};
use std::alloc::Global;

/// Reads all files that are named, in the order instance, options, process, and makes the call with their texts.
pub(crate) fn read_call<F: Files>(
    alloc: Global,
    files: &mut F,
    words: CallWords<'_>,
) -> Result<SoapCall, FileFault>
    ensures held { F.held files.new ≡ F.held files.old }
    ensures counted { CountsFiles result (F.faults files.old) (F.faults files.new) }
    ensures ok { IfOk result (IsCallInFiles words.entry.kind (F.held files.old) (named_by words.entry)) }
    ensures unnamed { NamesNone (named_by words.entry) → IsOk result }
    ensures unread { NamesNone (named_by words.entry) → files.new ≡ files.old }
{
    let osil = read_named(alloc, files, words.osil)?;
    let osol = read_named(alloc, files, words.osol)?;
    let ospl = read_named(alloc, files, words.ospl)?;
    Ok(call_of(words.kind, Parts { osil, osol, ospl }))
}
