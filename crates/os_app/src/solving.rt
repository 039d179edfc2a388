//! Solves jobs that nobody stops, or a file does.
ghost use Rattle.std.specs.Prelude.{◌≡◌, false, Some, option_map, IfOk};
ghost use Rattle.os_io.specs.Files.{CountsFiles};
ghost use Rattle.solve_run.specs.Runs.{RightBeside, beside_text};
ghost use Rattle.os_app.specs.Besides.{HandInOne, TakesResult};
ghost use Rattle.os_app.specs.Halts.{IsRightHalted};
ghost use Rattle.os_app.specs.Solves.{IsDocumentAbout, IsRightWith, IsRightWithin};
ghost use Rattle.os_app.specs.Statuses.{solve_status};

use crate::paced::Paced;
use crate::safe::safe_options;
use crate::timed::timed_options;
use command_answers::status::{DONE, NEGATIVE};
use command_answers::{MOST_READ, StatusText, read_named};
use handed_results::{Handed, read_handed};
use os_io::{FileFault, Files, Halt, Memory, Never, Sink, Text};
use osol_grammar::whole_seconds;
use solve_run::{Document, answer_job};
use std::alloc::Global;
use std::time::Clock;
use stop_reasons::{Deadline, Told};

/// The bytes of a text, if there is one.
fn bytes_of(text: &Option<Text>) -> Option<&[u8]>
    ensures { beside_text result ≡ text.now }
{
    match text {
        Some(text) => Some(text.as_slice()),
        None => None,
    }
}

/// The result document of a job that nobody stops, from the texts of its instance and of its options, and of a result beside
/// these, if there is one.
pub(crate) fn solve<T: Clock>(
    clock: &T,
    alloc: Global,
    osil: &[u8],
    osol: &[u8],
    beside: &Option<Text>,
) -> Result<Document, Memory>
    ensures { IfOk result (RightBeside beside.now osil.now osol.now false) }
{
    let mut watch = Never;
    answer_job(alloc, osil, osol, bytes_of(beside), clock, &mut watch)
}

/// The result document of such a job, whose search ends once there is a file of this name, if one is named, and tells meanwhile how it
/// stands.
fn solve_halted<F: Files, T: Clock, E: Sink>(
    clock: &T,
    alloc: Global,
    files: &F,
    halt: Option<&str>,
    told: &mut E,
    osil: &[u8],
    osol: &[u8],
    beside: &Option<Text>,
) -> Result<Document, Memory>
    ensures { IfOk result (IsRightHalted beside.now (option_map (λ n. F.held files.now n.now) halt.entry) osil.now osol.now) }
{
    match halt {
        None => solve(clock, alloc, osil, osol, beside),
        Some(name) => {
            let mut watch = Paced {
                told: Told {
                    watch: Halt {
                        files,
                        name,
                        stops: 0,
                    },
                    deadline: Deadline::new(clock, Some(whole_seconds(1))),
                    to: told,
                },
                clock,
                passed: None,
                looked: false,
            };
            let document = answer_job(alloc, osil, osol, bytes_of(beside), clock, &mut watch);
            let Paced {
                told,
                clock: _,
                passed: _,
                looked: _,
            } = watch;
            let Told {
                watch: halt,
                deadline: _,
                to: _to,
            } = told;
            let Halt {
                files: _,
                name: _,
                stops: _,
            } = halt;
            document
        }
    }
}

/// The result document of such a job, with the safe limit of turns, if that is asked for.
fn solve_with<F: Files, T: Clock, E: Sink>(
    clock: &T,
    alloc: Global,
    files: &F,
    halt: Option<&str>,
    told: &mut E,
    osil: &[u8],
    osol: &[u8],
    beside: &Option<Text>,
    safe: bool,
) -> Result<Document, Memory>
    ensures { IfOk result (IsRightWith beside.now (option_map (λ n. F.held files.now n.now) halt.entry) safe osil.now osol.now) }
{
    if !safe {
        return solve_halted(clock, alloc, files, halt, told, osil, osol, beside);
    }
    match safe_options(alloc, osil, osol)? {
        Some(text) => solve_halted(
            clock,
            alloc,
            files,
            halt,
            told,
            osil,
            text.as_slice(),
            beside,
        ),
        None => solve_halted(clock, alloc, files, halt, told, osil, osol, beside),
    }
}

/// The result document of such a job, within so many seconds.
fn solve_timed<F: Files, T: Clock, E: Sink>(
    clock: &T,
    alloc: Global,
    files: &F,
    halt: Option<&str>,
    told: &mut E,
    osil: &[u8],
    osol: &[u8],
    beside: &Option<Text>,
    seconds: u64,
    safe: bool,
) -> Result<Document, Memory>
    ensures { IfOk result (IsRightWithin beside.now (option_map (λ n. F.held files.now n.now) halt.entry) (Some seconds) safe osil.now osol.now) }
{
    match timed_options(alloc, osol, seconds)? {
        Some(text) => {
            let timed = text.as_slice();
            solve_with(clock, alloc, files, halt, told, osil, timed, beside, safe)
        }
        None => solve_with(clock, alloc, files, halt, told, osil, osol, beside, safe),
    }
}

/// The result document of such a job, within so many seconds, if they are asked for.
fn solve_within<F: Files, T: Clock, E: Sink>(
    clock: &T,
    alloc: Global,
    files: &F,
    halt: Option<&str>,
    told: &mut E,
    osil: &[u8],
    osol: &[u8],
    beside: &Option<Text>,
    seconds: Option<u64>,
    safe: bool,
) -> Result<Document, Memory>
    ensures { IfOk result (IsRightWithin beside.now (option_map (λ n. F.held files.now n.now) halt.entry) seconds safe osil.now osol.now) }
{
    match seconds {
        None => solve_with(clock, alloc, files, halt, told, osil, osol, beside, safe),
        Some(seconds) => solve_timed(
            clock, alloc, files, halt, told, osil, osol, beside, seconds, safe,
        ),
    }
}

/// The status of a result document.
fn solve_status(is_error: bool) -> u8
    ensures { result ≡ solve_status is_error }
{
    if is_error { NEGATIVE } else { DONE }
}

/// The one result that options hand in, if they do.
fn own_result(alloc: Global, osol: &[u8]) -> Result<Option<Text>, Memory>
    ensures { IfOk result (HandInOne osol.now) }
{
    match read_handed(alloc, osol)? {
        Handed::Once(text) => Ok(Some(text)),
        Handed::Nothing => Ok(None),
        Handed::Twice => Ok(None),
    }
}

/// The result beside the options: that in the file of this name, if there is one, and else the one that they hand in.
fn read_result<F: Files>(
    alloc: Global,
    files: &mut F,
    osol: &[u8],
    name: Option<&str>,
) -> Result<Option<Text>, FileFault>
    ensures held { F.held files.new ≡ F.held files.old }
    ensures counted { CountsFiles result (F.faults files.old) (F.faults files.new) }
    ensures ok { IfOk result (TakesResult (option_map (λ n. F.held files.old n.now) name.entry) osol.now) }
{
    match name {
        Some(name) => Ok(Some(files.read_all(alloc, name, MOST_READ)?)),
        None => match own_result(alloc, osol) {
            Ok(beside) => Ok(beside),
            Err(_) => Err(FileFault::Memory),
        },
    }
}

/// The result document of the instance in the file of this name, with the options in another one, if it is named, the result in
/// a third one that is handed in, if that is named, and else the one that the options hand in, and so many seconds and the safe limit of turns in place of theirs, if these are asked for.
/// The search ends once there is a file of a fourth name, if there is one, with what it has.
pub(crate) fn solve_files<F: Files, T: Clock, E: Sink>(
    clock: &T,
    alloc: Global,
    files: &mut F,
    told: &mut E,
    osil: &str,
    options: Option<&str>,
    handed: Option<&str>,
    halt: Option<&str>,
    seconds: Option<u64>,
    safe: bool,
) -> Result<StatusText, FileFault>
    ensures held { F.held files.new ≡ F.held files.old }
    ensures counted { CountsFiles result (F.faults files.old) (F.faults files.new) }
    ensures ok { IfOk result (λ a. IsDocumentAbout (F.held files.old osil.now) (option_map (λ n. F.held files.old n.now) options.entry) (option_map (λ n. F.held files.old n.now) handed.entry) (option_map (λ n. F.held files.old n.now) halt.entry) seconds safe a.status a.text) }
{
    let instance = files.read_all(alloc, osil, MOST_READ)?;
    let options = read_named(alloc, files, options)?;
    let beside = read_result(alloc, files, options.as_slice(), handed)?;
    match solve_within(
        clock,
        alloc,
        files,
        halt,
        told,
        instance.as_slice(),
        options.as_slice(),
        &beside,
        seconds,
        safe,
    ) {
        Ok(document) => Ok(StatusText {
            status: solve_status(document.is_error),
            text: document.text,
        }),
        Err(_) => Err(FileFault::Memory),
    }
}
