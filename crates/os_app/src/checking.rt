//! Checks what two files say together.
ghost use Rattle.std.specs.Prelude.{◌≡◌, IfOk};
ghost use Rattle.os_io.specs.Files.{CountsFiles};
ghost use Rattle.os_app.specs.Checks.{IsAnswerAbout, IsAnswerLine, IsAnswerTo};
ghost use Rattle.os_app.specs.Statuses.{check_status};

use command_answers::status::{DONE, NEGATIVE};
use command_answers::{MOST_READ, StatusText};
use document_checker::{CheckFault, Kind, answer_text, check_docs};
use os_io::{FileFault, Files, Memory, Text};
use std::alloc::Global;

/// The status of a check's answer.
pub(crate) fn check_status(is_accepted: bool) -> u8
    ensures { result ≡ check_status is_accepted }
{
    if is_accepted { DONE } else { NEGATIVE }
}

/// An answer in words, and a line feed.
fn line_of(alloc: Global, answer: &Result<Kind, CheckFault>) -> Result<Text, Memory>
    ensures { IfOk result (λ line. IsAnswerLine answer.now line) }
{
    let mut line = answer_text(alloc, answer)?;
    line.push(b'\n')?;
    Ok(line)
}

/// What these bytes of two files say together.
fn answer_to(alloc: Global, osil: &[u8], osrl: &[u8]) -> Result<StatusText, Memory>
    ensures { IfOk result (λ a. IsAnswerTo osil.now osrl.now a.status a.text) }
{
    let answer = check_docs(alloc, osil, osrl);
    let line = line_of(alloc, &answer)?;
    Ok(StatusText {
        status: check_status(answer.is_ok()),
        text: line,
    })
}

/// What the files of these names say together.
pub(crate) fn answer_about<F: Files>(
    alloc: Global,
    files: &mut F,
    osil: &str,
    osrl: &str,
) -> Result<StatusText, FileFault>
    ensures held { F.held files.new ≡ F.held files.old }
    ensures counted { CountsFiles result (F.faults files.old) (F.faults files.new) }
    ensures ok { IfOk result (λ a. IsAnswerAbout (F.held files.old osil.now) (F.held files.old osrl.now) a.status a.text) }
{
    let instance = files.read_all(alloc, osil, MOST_READ)?;
    let result = files.read_all(alloc, osrl, MOST_READ)?;
    match answer_to(alloc, instance.as_slice(), result.as_slice()) {
        Ok(answer) => Ok(answer),
        Err(_) => Err(FileFault::Memory),
    }
}
