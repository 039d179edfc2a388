//! Tables of documents: XML, the texts of numbers, instances, results, options, processes, and calls in their envelopes.
//!
//! The tables' answers come from the rules (XML 1.0, Namespaces in XML 1.0, XML Schema part 2, the Optimization Services manual,
//! SOAP 1.1, and this project's profile of them, in `docs/rules/`). Texts and attributes' values are escaped. The output is a line
//! for each answer that is another, and how many cases there are. Such lines are there for one table alone, whose answers are
//! wrong: they show what is told of a wrong answer.
#![tactic(auto)]

mod calls;
mod numbers;
mod options;
mod osil;
mod processes;
mod reading;
mod results;
mod shown;
mod xml;

use calls::Soap;
use cases::{DocumentCases, Tables};
use numbers::Numbers;
use options::Osol;
use osil::Osil;
use processes::Ospl;
use results::{Document, General, Solution, Written};
use std::io;
use xml::{Beginnings, Escaped, InPieces, Limited, Repeated};

fn main(rt: HostRuntime) -> io::Result<()> {
    let mut tables = Tables::new(&rt);
    tables.try_file("read.txt", &mut InPieces)?;
    tables.try_file("refused.txt", &mut InPieces)?;
    tables.try_file("limits.txt", &mut Limited)?;
    tables.try_file("beginnings.txt", &mut Beginnings)?;
    tables.try_file("repeated.txt", &mut Repeated)?;
    tables.try_file("escaped.txt", &mut Escaped)?;
    tables.try_file("wrong.txt", &mut InPieces)?;
    tables.try_file("numbers.txt", &mut Numbers)?;
    tables.try_file("osil.txt", &mut DocumentCases(Osil))?;
    tables.try_file("written.txt", &mut Written)?;
    tables.try_file("solutions.txt", &mut Solution)?;
    tables.try_file("documents.txt", &mut Document)?;
    tables.try_file("texts.txt", &mut General)?;
    tables.try_file("options.txt", &mut DocumentCases(Osol))?;
    tables.try_file("processes.txt", &mut DocumentCases(Ospl))?;
    tables.try_file("calls.txt", &mut Soap)?;
    tables.tell_count()
}
