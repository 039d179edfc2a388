//! Claims: what an instance's document and a result document say together, by the definitions of accepted claims
//! (`docs/rules/certificates.md`), worked out by hand; and what the results say that stand beside the examples.

mod asked;
mod results;

use asked::{Claimed, InFiles, InTexts, Repeated};
use cases::Tables;
use os_io::DiskFiles;
use std::{fs, io};

/// Compares the answers of each of these tables.
pub(crate) fn try_tables<R: fs::Files + Print + AllocGlobal>(
    rt: &R,
    tables: &mut Tables<'_, R>,
) -> io::Result<()> {
    tables.try_file("claims.txt", &mut Claimed(DiskFiles::new(rt)))?;
    tables.try_file("claims_of_examples.txt", &mut InFiles(DiskFiles::new(rt)))?;
    tables.try_file("claims_in_texts.txt", &mut InTexts)?;
    tables.try_file("claims_repeated.txt", &mut Repeated(DiskFiles::new(rt)))
}
