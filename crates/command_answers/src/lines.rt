//! Lines with a number.

ghost use Rattle.os_io.specs.Streams.{Writes, Sends};
ghost use Rattle.command_answers.specs.Outputs.{number_line};

use itoa::Buffer;
use os_io::{Failed, Sink, write_all};

/// Writes a text, a number and a line feed. Takes no memory, and doesn't flush.
fn write_number<O: Sink>(output: &mut O, front: &[u8], number: u64) -> Result<(), Failed>
    ensures { Writes result (number_line front.now number) (O.tells output.old) (O.tells output.new) }
{
    let mut digits = Buffer::new();
    write_all(output, front)?;
    write_all(output, digits.format(number).as_bytes())?;
    write_all(output, b"\n")
}

/// Writes a text, a number and a line feed, and hands them on. Takes no memory.
pub fn send_number<O: Sink>(output: &mut O, front: &[u8], number: u64) -> Result<(), Failed>
    ensures { Sends result (number_line front.now number) (O.tells output.old) (O.tells output.new) }
{
    write_number(output, front, number)?;
    output.flush()
}
