//! Sessions and servers over a journal in a file, and a journal that is written again.
ghost use Rattle.std.specs.Prelude.{◌≡◌, ◌≤◌, IfErr, IfOk};
ghost use Rattle.job_table.specs.Steps.{most_first};
ghost use Rattle.os_io.specs.Streams.{SameInput, SameOutput};
ghost use Rattle.os_app.specs.ProgramRuns.{stores_run};
ghost use Rattle.os_app.specs.CompactRuns.{EndsCompact};
ghost use Rattle.os_app.specs.JournalFaults.{IsSaidOf, IsSaidOfCopy, unopened_status};
ghost use Rattle.os_app.specs.StoredRuns.{IsOpen, KeepsServer, KeepsSession, Unopened};

use crate::statuses::{serve_status, session_status};
use command_answers::send_number;
use command_answers::status::{DAMAGED, DONE, NO_MEMORY, READ_FAULT, WRITE_FAULT};
use disks::Stores;
use job_journal::{CompactFault, Journal, OpenFault};
use job_solver::{SolvedJobs, compact_jobs, open_jobs};
use job_table::Table;
use os_io::{Failed, FileFault, Listener, Sink, Source};
use serving::{Setup, serve_stored};
use sessions::serve_stored_session;
use std::alloc::Global;
use std::sync::Wait;
use std::thread::Threads;
use std::time::Clock;

/// Says why a journal wasn't opened, and gives the status of the run. Takes no memory.
fn tell_fault<O: Sink>(output: &mut O, fault: OpenFault) -> u8
    ensures told { IsSaidOf fault result (O.tells output.old) (O.tells output.new) }
    ensures input { SameInput (O.tells output.old) (O.tells output.new) }
{
    match fault {
        OpenFault::ReadFault => READ_FAULT,
        OpenFault::WriteFault => WRITE_FAULT,
        OpenFault::Memory => NO_MEMORY,
        OpenFault::Damaged { at } => match send_number(output, b"damaged at ", at) {
            Ok(()) => DAMAGED,
            Err(Failed) => WRITE_FAULT,
        },
    }
}

/// Opens the journal in the file of this name, and the table that it keeps, whose numbers begin with this one where none was given.
/// Where it isn't opened, its disk is given back, if there is one.
fn open_named<K: Stores>(
    alloc: Global,
    stores: &mut K,
    name: &str,
    first: u64,
) -> Result<(Table<SolvedJobs>, Journal<K::Store>), OpenFault>
    requires some { 1 ≤ first }
    requires within { first ≤ most_first }
    ensures opened { IfOk result (λ r. IsOpen K.Store.Disk name.now first r.0 r.1 (stores_run K.held K.back K.opened K.faults stores.old stores.new)) }
    ensures unopened { IfErr result (λ fault. Unopened K.Store.Disk name.now first (stores_run K.held K.back K.opened K.faults stores.old stores.new) fault) }
{
    let disk = match stores.open_store(name) {
        Ok(disk) => disk,
        Err(FileFault::Failed) => return Err(OpenFault::ReadFault),
        Err(FileFault::Memory) => return Err(OpenFault::Memory),
    };
    match open_jobs(alloc, disk, first) {
        Ok(opened) => Ok(opened),
        Err((fault, disk)) => {
            stores.done_store(disk);
            Err(fault)
        }
    }
}

/// Serves a session over the journal in the file of this name, and gives its disk back.
pub(crate) fn keep_session<K: Stores, I: Source, O: Sink, R: Wait + Clock>(
    rt: &R,
    alloc: Global,
    stores: &mut K,
    name: &str,
    input: &mut I,
    output: &mut O,
) -> u8
    ensures ends { KeepsSession K.Store.Disk name.now result (stores_run K.held K.back K.opened K.faults stores.old stores.new) (I.tells input.old) (I.tells input.new) (O.tells output.old) (O.tells output.new) }
    ensures output_of_input { SameOutput (I.tells input.old) (I.tells input.new) }
    ensures input_of_output { SameInput (O.tells output.old) (O.tells output.new) }
{
    match open_named(alloc, stores, name, 1) {
        Ok((table, journal)) => {
            let (served, disk) = serve_stored_session(rt, alloc, table, journal, input, output);
            stores.done_store(disk);
            session_status(served)
        }
        Err(fault) => tell_fault(output, fault),
    }
}

/// Serves links over the journal in the file of this name, and gives its disk back.
pub(crate) fn keep_server<K: Stores, O: Sink, N: Listener, R: Threads + Wait + Clock + Sync>(
    rt: &R,
    alloc: Global,
    stores: &mut K,
    name: &str,
    net: &mut N,
    output: &mut O,
    host: &str,
    port: u16,
    setup: Setup,
) -> u8
where
    N::Conn: Send + Drop,
    K::Store: Send + Sync,
    requires servers { 1 ≤ setup.limits.servers }
    requires first { 1 ≤ setup.first }
    requires fits { setup.first ≤ most_first }
    ensures ends { KeepsServer K.Store.Disk host.now port setup name.now result (stores_run K.held K.back K.opened K.faults stores.old stores.new) (N.tells net.old) (N.tells net.new) (O.tells output.old) (O.tells output.new) }
    ensures input_of_output { SameInput (O.tells output.old) (O.tells output.new) }
{
    match open_named(alloc, stores, name, setup.first) {
        Ok((table, journal)) => {
            let (ending, disk) = serve_stored(
                rt, alloc, net, output, host, port, setup, table, journal,
            );
            stores.done_store(disk);
            serve_status(ending)
        }
        Err(fault) => tell_fault(output, fault),
    }
}

/// The status where a file isn't opened: this one, or that of no memory.
fn unopened_status(failed: u8, fault: FileFault) -> u8
    ensures { result ≡ unopened_status failed fault }
{
    match fault {
        FileFault::Failed => failed,
        FileFault::Memory => NO_MEMORY,
    }
}

/// Says how it ended that a journal was written again, and gives the status of the run. Takes no memory.
fn tell_copy<O: Sink>(output: &mut O, ended: Result<(), CompactFault>) -> u8
    ensures told { IsSaidOfCopy ended result (O.tells output.old) (O.tells output.new) }
    ensures input { SameInput (O.tells output.old) (O.tells output.new) }
{
    match ended {
        Ok(()) => DONE,
        Err(CompactFault::Old(fault)) => tell_fault(output, fault),
        Err(CompactFault::NewFault) => WRITE_FAULT,
        Err(CompactFault::Taken) => WRITE_FAULT,
        Err(CompactFault::Long) => WRITE_FAULT,
    }
}

/// Writes the journal in one file again, into another one, and says how it went. The first file has to be there; the second one is made
/// where there is none. Both disks are given back.
pub(crate) fn compact_named<K: Stores, O: Sink>(
    alloc: Global,
    stores: &mut K,
    from: &str,
    to: &str,
    output: &mut O,
) -> u8
    ensures ends { EndsCompact K.Store.Disk from.now to.now result (stores_run K.held K.back K.opened K.faults stores.old stores.new) (O.tells output.old) (O.tells output.new) }
    ensures input_of_output { SameInput (O.tells output.old) (O.tells output.new) }
{
    let old = match stores.find_store(from) {
        Ok(disk) => disk,
        Err(fault) => return unopened_status(READ_FAULT, fault),
    };
    let new = match stores.open_store(to) {
        Ok(disk) => disk,
        Err(fault) => {
            stores.done_store(old);
            return unopened_status(WRITE_FAULT, fault);
        }
    };
    let (ended, old, new) = compact_jobs(alloc, old, new);
    stores.done_store(old);
    stores.done_store(new);
    tell_copy(output, ended)
}
