//! The lines that a server writes.
ghost use Rattle.os_io.specs.Streams.{Sends};
ghost use Rattle.serving.specs.Lines.{listening, jobs_line};

use command_answers::send_number;
use os_io::{Failed, Sink, send_all};

/// Says that links can come.
pub(crate) fn tell_listening<O: Sink>(output: &mut O) -> Result<(), Failed>
    ensures { Sends result listening (O.tells output.old) (O.tells output.new) }
{
    send_all(output, b"listening\n")
}

/// Says how many numbers of jobs were given. Takes no memory.
pub(crate) fn tell_jobs<O: Sink>(output: &mut O, number: u64) -> Result<(), Failed>
    ensures { Sends result (jobs_line number) (O.tells output.old) (O.tells output.new) }
{
    send_number(output, b"jobs ", number)
}
