//! Runs jobs.
ghost use Rattle.std.specs.Prelude.{◌≡◌, ℕ, ◌-◌, ◌^◌, ◌<◌, Bool, false, Option, List, Some, IfOk};
ghost use Rattle.instance.specs.Parts.{IsValid};
ghost use Rattle.osol_grammar.specs.Meaning.{IsOptionsText};
ghost use Rattle.osil_grammar.specs.Reading.{IsInstanceText};
ghost use Rattle.solve_run.specs.Judging.{AreFewRounds};
ghost use Rattle.instance.specs.Program.{problem};
ghost use Rattle.branch_bound.specs.Walks.{best as best_of};
ghost use Rattle.solve_run.specs.Firsts.{IsFirstOf, IsNoteFrom};
ghost use Rattle.solve_run.specs.Handing.{HandsInNone};
ghost use Rattle.solve_run.specs.JobAnswers.{Right};
ghost use Rattle.solve_run.specs.Runs.{Ran, RightBeside, AreDueNames, TellsDocument, TellsText, beside_text};

use crate::document::Document;
use crate::finding::{find_until, first_of};
use crate::handing::{Handing, judge_handed};
use crate::noting::whole_note;
use crate::telling::{fitted, found_document, memory_document, refusal};
use branch_bound::{Found, Searched};
use instance::{Instance, problems_have_numbers};
use instance_names::read_names;
use os_io::{Memory, Text, Watch};
use osil_grammar::OsilFault;
use osol_grammar::{Options, OsolFault, options_have_names, read_options_come_back};
use osrl_writing::NameLists;
use search_rules::asked_searches_are_shown;
use std::alloc::Global;
use std::time::Clock;

/// The names that a job's result is told with: those of its instance's document, where its options ask for them.
fn due_names(alloc: Global, osil: &[u8], options: &Options) -> Result<NameLists, Memory>
    ensures { IfOk result (AreDueNames osil.now options.now) }
{
    if options.names != 1 {
        return Ok(NameLists::none(alloc));
    }
    read_names(alloc, osil)
}

/// Runs a job whose options, instance and names are read, by a search from this point on, if from one, with this message, if any.
fn run_from<W: Watch, T: Clock>(
    alloc: Global,
    instance: &Instance,
    names: &NameLists,
    note: Option<Text>,
    first: Option<Found>,
    options: Options,
    clock: &T,
    watch: &mut W,
) -> Result<Document, Memory>
    requires valid { IsValid instance.now }
    requires rounds { AreFewRounds options.rounds }
    requires stops { W.stops watch.old < 2 ^ 64 - 1 }
    requires first { IsFirstOf (problem instance.now) options (best_of first) }
    ensures { (beside : Option (List ℕ)) (osil osol : List ℕ) → IsOptionsText osol options → IsInstanceText osil instance.now → AreDueNames osil options names.now → IsNoteFrom beside osol options instance.now (best_of first) note → Ran (W.came watch.old watch.new) osil osol (TellsDocument beside osil osol result) }
{
    let Searched { claim, turns } = find_until(alloc, instance, &options, first, clock, watch);
    options_have_names();
    problems_have_numbers();
    asked_searches_are_shown();
    let form = options.form;
    found_document(
        alloc,
        instance,
        names,
        note,
        options.job,
        form,
        claim,
        turns,
    )
}

/// Runs a job whose options, instance and names are read, and whose options hand in no result that is taken. This message is due about
/// what they hand in.
fn run_instance<W: Watch, T: Clock>(
    alloc: Global,
    instance: &Instance,
    names: &NameLists,
    handed: Option<Text>,
    options: Options,
    clock: &T,
    watch: &mut W,
) -> Result<Document, Memory>
    requires valid { IsValid instance.now }
    requires rounds { AreFewRounds options.rounds }
    requires stops { W.stops watch.old < 2 ^ 64 - 1 }
    ensures { (beside : Option (List ℕ)) (osil osol : List ℕ) → IsOptionsText osol options → IsInstanceText osil instance.now → AreDueNames osil options names.now → HandsInNone beside osol instance.now handed → Ran (W.came watch.old watch.new) osil osol (TellsDocument beside osil osol result) }
{
    let Ok(first) = first_of(alloc, instance, &options) else {
        return memory_document(alloc, options.job);
    };
    let Ok(note) = whole_note(alloc, handed, &options, &first) else {
        return memory_document(alloc, options.job);
    };
    run_from(alloc, instance, names, note, first, options, clock, watch)
}

/// Runs a job whose options, instance and names are read. A result that its options hand in is its answer where it is shown of
/// the instance; else there is a search.
fn run_named<W: Watch, T: Clock>(
    alloc: Global,
    osol: &[u8],
    beside: Option<&[u8]>,
    instance: &Instance,
    names: &NameLists,
    options: Options,
    clock: &T,
    watch: &mut W,
) -> Result<Document, Memory>
    requires valid { IsValid instance.now }
    requires rounds { AreFewRounds options.rounds }
    requires stops { W.stops watch.old < 2 ^ 64 - 1 }
    ensures { (osil : List ℕ) → IsOptionsText osol.now options → IsInstanceText osil instance.now → AreDueNames osil options names.now → Ran (W.came watch.old watch.new) osil osol.now (TellsDocument (beside_text beside.entry) osil osol.now result) }
{
    match judge_handed(alloc, instance, osol, beside) {
        Ok(Handing::Taken(claim)) => fitted(alloc, names, None, options.job, claim),
        Ok(Handing::Passed(note)) => run_instance(
            alloc, instance, names, note, options, clock, watch,
        ),
        Err(_) => memory_document(alloc, options.job),
    }
}

/// Runs a job whose options and instance are read.
fn run_read<W: Watch, T: Clock>(
    alloc: Global,
    osil: &[u8],
    osol: &[u8],
    beside: Option<&[u8]>,
    instance: &Instance,
    options: Options,
    clock: &T,
    watch: &mut W,
) -> Result<Document, Memory>
    requires valid { IsValid instance.now }
    requires rounds { AreFewRounds options.rounds }
    requires stops { W.stops watch.old < 2 ^ 64 - 1 }
    ensures { IsOptionsText osol.now options → IsInstanceText osil.now instance.now → Ran (W.came watch.old watch.new) osil.now osol.now (TellsDocument (beside_text beside.entry) osil.now osol.now result) }
{
    match due_names(alloc, osil, &options) {
        Ok(names) => run_named(alloc, osol, beside, instance, &names, options, clock, watch),
        Err(_) => memory_document(alloc, options.job),
    }
}

/// Runs a job whose options are read.
fn run_options<W: Watch, T: Clock>(
    alloc: Global,
    osil: &[u8],
    osol: &[u8],
    beside: Option<&[u8]>,
    options: Options,
    clock: &T,
    watch: &mut W,
) -> Result<Document, Memory>
    requires rounds { AreFewRounds options.rounds }
    requires stops { W.stops watch.old < 2 ^ 64 - 1 }
    ensures { IsOptionsText osol.now options → Ran (W.came watch.old watch.new) osil.now osol.now (TellsDocument (beside_text beside.entry) osil.now osol.now result) }
{
    match osil_grammar::decode(alloc, osil) {
        Ok(instance) => run_read(alloc, osil, osol, beside, &instance, options, clock, watch),
        Err(OsilFault::Memory) => memory_document(alloc, options.job),
        Err(fault) => {
            let message = osil_grammar::refusal_text(alloc, &fault);
            refusal(alloc, options.job, message)
        }
    }
}

/// Runs a job, whose options are read first.
fn run_texts<W: Watch, T: Clock>(
    alloc: Global,
    osil: &[u8],
    osol: &[u8],
    beside: Option<&[u8]>,
    clock: &T,
    watch: &mut W,
) -> Result<Document, Memory>
    requires { W.stops watch.old < 2 ^ 64 - 1 }
    ensures { Ran (W.came watch.old watch.new) osil.now osol.now (TellsDocument (beside_text beside.entry) osil.now osol.now result) }
{
    read_options_come_back();
    match osol_grammar::decode(alloc, osol) {
        Ok(options) => run_options(alloc, osil, osol, beside, options, clock, watch),
        Err(OsolFault::Memory) => memory_document(alloc, None),
        Err(fault) => {
            let message = osol_grammar::refusal_text(alloc, fault);
            refusal(alloc, None, message)
        }
    }
}

/// Runs a job: its result document, from the texts of its instance and of its options. The options are read before the
/// instance; a text of white space alone says none. The watch is asked by the looks of the search alone, and the clock too, where the
/// options say a time.
///
/// Where memory is wanting, the document says so, and may have the best point of some moment of the search; where there is
/// none for such a document either, there is no document. Where the options ask for names, the instance's document is read
/// for them before the search. Where they hand in a result whose claim the checker accepts of the instance, that claim is told, and
/// nothing is searched. A text beside them is handed in in place of what they hand in.
pub fn answer_job<W: Watch, T: Clock>(
    alloc: Global,
    osil: &[u8],
    osol: &[u8],
    beside: Option<&[u8]>,
    clock: &T,
    watch: &mut W,
) -> Result<Document, Memory>
    requires { W.stops watch.old < 2 ^ 64 - 1 }
    ensures ran { Ran (W.came watch.old watch.new) osil.now osol.now (TellsDocument (beside_text beside.entry) osil.now osol.now result) }
    ensures right { (asked : Bool) → (asked ≡ false → W.stops watch.new ≡ W.stops watch.old) → IfOk result (RightBeside (beside_text beside.entry) osil.now osol.now asked) }
{
    run_texts(alloc, osil, osol, beside, clock, watch)
}

/// Runs a job, as [`answer_job`] does: the text of its result document.
pub fn run_job<W: Watch, T: Clock>(
    alloc: Global,
    osil: &[u8],
    osol: &[u8],
    clock: &T,
    watch: &mut W,
) -> Result<Text, Memory>
    requires { W.stops watch.old < 2 ^ 64 - 1 }
    ensures ran { Ran (W.came watch.old watch.new) osil.now osol.now (λ n killed. IfOk result (TellsText osil.now osol.now n killed)) }
    ensures right { (asked : Bool) → (asked ≡ false → W.stops watch.new ≡ W.stops watch.old) → IfOk result (λ doc. Right osil.now osol.now asked (Some doc)) }
{
    match answer_job(alloc, osil, osol, None, clock, watch) {
        Ok(document) => Ok(document.text),
        Err(memory) => Err(memory),
    }
}
