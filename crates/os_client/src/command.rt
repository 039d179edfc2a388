//! The command `call`.

ghost use Rattle.std.specs.Prelude.{◌≡◌};
ghost use Rattle.os_io.specs.Streams.{SameInput};
ghost use Rattle.os_client.specs.Runs.{named_by, CallEnds, NamesNone, CallsOver};

use crate::agent::call;
use crate::fault::CallFault;
use crate::parts::read_call;
use crate::telling::tell;
use command_answers::status::{NO_LINK, NO_MEMORY, READ_FAULT};
use command_line::CallWords;
use open_links::OpenLink;
use os_io::{Failed, FileFault, Files, Listener, Sink, Text};
use soap_calls::SoapCall;
use std::alloc::Global;

/// Makes a call over a link to this host and port, and gives the link back, whatever came of the call. Where no link came,
/// nothing else is done.
fn call_over<N: Listener>(
    alloc: Global,
    net: &mut N,
    words: CallWords<'_>,
    asked: &SoapCall,
) -> Result<Result<Text, CallFault>, Failed>
    ensures { CallsOver words.entry.host.now words.entry.port asked.now result (N.tells net.old) (N.tells net.new) }
{
    let mut link = OpenLink::new(net.connect(words.host, words.port)?);
    let outcome = call(alloc, &mut link, asked);
    net.done(link.into_link());
    Ok(outcome)
}

/// Makes the call that the words ask for and writes what it answered: the text that it returns; `fault`, the code and the text
/// of a fault in a line, or `http` and the status in one; or the bytes that came, where they are no reply. The files are read
/// first, and the link is given back before anything is written.
///
/// The status is 0 where the text was written, 1 where that is `send`'s `false` or a line was written, 3 where a file or the
/// link wasn't read, 4 where a write of the link or of the output failed, 5 where there was no memory, 6 where no link came, and
/// 7 where bytes were written that are no reply.
pub fn make_call<F: Files, O: Sink, N: Listener>(
    alloc: Global,
    words: CallWords<'_>,
    files: &mut F,
    output: &mut O,
    net: &mut N,
) -> u8
    ensures ends { CallEnds result (record {
      kind = words.entry.kind;
      host = words.entry.host.now;
      port = words.entry.port;
      names = named_by words.entry;
      held = F.held files.old;
      file_faults = F.faults files.old;
      file_faults_after = F.faults files.new;
      net = N.tells net.old;
      net_after = N.tells net.new;
      output = O.tells output.old;
      output_after = O.tells output.new;
    }) }
    ensures held { F.held files.new ≡ F.held files.old }
    ensures unread { NamesNone (named_by words.entry) → files.new ≡ files.old }
    ensures input_of_output { SameInput (O.tells output.old) (O.tells output.new) }
{
    match read_call(alloc, files, words) {
        Ok(asked) => match call_over(alloc, net, words, &asked) {
            Ok(outcome) => tell(alloc, output, words.kind, outcome),
            Err(Failed) => NO_LINK,
        },
        Err(FileFault::Failed) => READ_FAULT,
        Err(FileFault::Memory) => NO_MEMORY,
    }
}
