//! A solver service for linear and mixed-integer programs.
//!
//! `session` serves the requests that come on the standard input, and writes the answers to the standard output. `check OSIL
//! OSRL` reads an instance and a result from two files and says whether what is claimed is shown, `solve OSIL [--options
//! OSOL] [--result OSRL] [--seconds N] [--halt FILE] [--safe]` writes the result document of an instance, and `generate N` says how a generated one was solved. `serve`
//! serves connections over TCP, and `call` makes a call of such a server; `--journal FILE` keeps jobs in a file, and
//! `compact OLD NEW` writes such a file again without what jobs had that are gone. The program is [`os_app::run`] over the real words,
//! files, input, output and links, and ends with its status; what waits for nobody is done by [`os_app::run_at_once`] before.
#![tactic(auto)]

use disks::FileStores;
use os_app::{exit_code, run, run_at_once};
use os_io::{DiskFiles, Memory, StdSink, StdSource};
use std::alloc::AllocError;
use std::env;
use std::io::ErrorKind;
use std::process::ExitCode;
use tcp_net::TcpNet;

/// The words of the command line, of which the first is the program's name. Words that aren't all UTF-8 are no command's, so
/// none stand for them.
fn words_of(rt: &HostRuntime) -> Result<Vec<String>, Memory> {
    match env::args(rt) {
        Ok(words) => words.collect(rt.alloc()),
        Err(error) if error.kind() == ErrorKind::OutOfMemory => Err(AllocError),
        Err(_) => Ok(Vec::new(rt.alloc())),
    }
}

/// Runs over the disk's files, the standard input and output, and links over TCP. What a search tells while it runs goes to the standard error.
fn main(rt: HostRuntime) -> ExitCode {
    let words = match words_of(&rt) {
        Ok(words) => words,
        Err(memory) => return exit_code(Err(memory)),
    };
    let mut files = DiskFiles::new(&rt);
    let mut stores = FileStores::new(&rt);
    let mut input = StdSource::new(rt.stdin());
    let mut output = StdSink::new(rt.stdout());
    let mut net = TcpNet::new(&rt);
    let mut told = StdSink::new(rt.stderr());
    let words = words.as_slice();
    let ran = run_at_once(
        &rt,
        rt.alloc(),
        words,
        &mut files,
        &mut stores,
        &mut output,
        &mut net,
        &mut told,
    );
    exit_code(Ok(match ran {
        Ok(status) => status,
        Err(_) => run(
            &rt,
            rt.alloc(),
            words,
            &mut files,
            &mut stores,
            &mut input,
            &mut output,
            &mut net,
            &mut told,
        ),
    }))
}
