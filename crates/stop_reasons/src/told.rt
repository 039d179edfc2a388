//! A watch that writes how a search stands.
use crate::until::Deadline;
use itoa::Buffer;
use os_io::{Failed, Sink, Standing, Watch, write_all};
use std::time::Clock;

/// A watch around another one that writes a line on how the search stands each time that a time is over. Its looks are those of the watch
/// inside. What is written is said by no clause, and a write that fails is passed over: the search goes on all the same.
pub struct Told<'c, 'e, W: Watch, T: Clock, E: Sink> {
    pub watch: W,
    pub deadline: Deadline<'c, T>,
    pub to: &'e mut E,
}

/// Writes a number as a whole one, `/` and another one, or `-` where there is none.
fn write_parts<E: Sink>(to: &mut E, parts: Option<(i128, i128)>) -> Result<(), Failed> {
    let Some((numer, denom)) = parts else {
        return write_all(to, b"-");
    };
    let mut digits = Buffer::new();
    write_all(to, digits.format(numer).as_bytes())?;
    write_all(to, b"/")?;
    write_all(to, digits.format(denom).as_bytes())
}

/// Writes a line: the value of the best point, a space, and the bound.
fn write_standing<E: Sink>(to: &mut E, standing: Standing) -> Result<(), Failed> {
    write_parts(to, standing.best)?;
    write_all(to, b" ")?;
    write_parts(to, standing.bound)?;
    write_all(to, b"\n")?;
    to.flush()
}

impl<'c, 'e, W: Watch, T: Clock, E: Sink> Watch for Told<'c, 'e, W, T, E> {
    ghost stops = { λ t. W.stops t.watch };

    /// The looks were those of the watch inside.
    ghost came = { λ t u answers. W.came t.watch u.watch answers };

    fn look(&mut self) -> bool {
        self.watch.look()
    }

    fn asks(&mut self) -> bool {
        if !self.deadline.is_over() {
            return false;
        }
        self.deadline.begin_again();
        true
    }

    fn hear(&mut self, standing: Standing) {
        let _ = write_standing(self.to, standing);
    }

    ghost stays = { λ t. W.stays t.watch };

    ghost joined = { λ t u v a b p q. W.joined t.watch u.watch v.watch a b p q };

    ghost counts = { λ t u answers p. W.counts t.watch u.watch answers p };
}
