//! The tables of a program.

use crate::table::{Answers, try_file};
use os_io::DiskFiles;
use std::{fs, io};

/// The tables of a program, in files that lie where it runs. What is told of them is printed.
#[derive(Drop)]
pub struct Tables<'r, R> {
    rt: &'r R,
    count: u64,
}

impl<'r, R: fs::Files + Print + AllocGlobal> Tables<'r, R> {
    /// Tables of which none was gone through yet.
    pub fn new(rt: &'r R) -> Self {
        Tables { rt, count: 0 }
    }

    /// Goes through the table in the file of this name, as the function [`try_file`] does.
    pub fn try_file<A: Answers>(&mut self, name: &str, answers: &mut A) -> io::Result<()> {
        let mut files = DiskFiles::new(self.rt);
        let mut output = io::writer(self.rt);
        let count = try_file(self.rt.alloc(), name, &mut files, answers, &mut output)?;
        self.count = self.count.saturating_add(count);
        Ok(())
    }

    /// Says how many cases they had.
    pub fn tell_count(&self) -> io::Result<()> {
        println!(self.rt; "{} cases", self.count)
    }
}
