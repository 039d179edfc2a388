//! The statuses of a run of the program.

/// All was written.
pub const DONE: u8 = 0;

/// All was written, and it says no: a refusal, an error, a fault, another status of HTTP, or `false`.
pub const NEGATIVE: u8 = 1;

/// The words aren't a command, and the usage was written.
pub const MISUSED: u8 = 2;

/// A read failed, of a file, the input or a link.
pub const READ_FAULT: u8 = 3;

/// A write or a flush failed, of the output or a link.
pub const WRITE_FAULT: u8 = 4;

/// There was no memory.
pub const NO_MEMORY: u8 = 5;

/// No link came: nothing could be listened to, accepted or connected to.
pub const NO_LINK: u8 = 6;

/// The bytes that came are no reply, and they were written.
pub const NO_REPLY: u8 = 7;

/// The input ended inside a request.
pub const CUT_SHORT: u8 = 8;

/// The journal is damaged, and where was written.
pub const DAMAGED: u8 = 9;
