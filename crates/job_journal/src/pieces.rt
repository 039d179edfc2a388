//! What is held of a file that is read from its front on.

ghost use Rattle.std.specs.Prelude.{◌<◌, ◌≤◌, ◌+◌, ◌-◌, ◌^◌, min, vec_len};

/// What was read of a file, and isn't passed yet.
#[derive(Drop)]
pub(crate) struct Ahead {
    /// Room for what is read.
    pub(crate) room: Vec<u8>,
    /// It stands between these.
    pub(crate) from: usize,
    pub(crate) to: usize,
    /// The place in the file at which it begins.
    pub(crate) place: u64,
    /// The number of bytes of the file.
    pub(crate) len: u64,
    ghost enough: { min len 33554508 ≤ vec_len room },
    ghost ordered: { from ≤ to },
    ghost within: { to ≤ vec_len room },
    ghost short: { place + (to - from) ≤ len },
    ghost counted: { len < 2 ^ 64 },
}
