//! What the program does, over any words, files, input, output and links: [`run`], whose contract is the promise of the whole
//! program: what it writes for what it reads, whatever the words, and what each status means.
//!
//! `session` serves the requests that come on the input, over a table of jobs of its own, and writes the answers to the
//! output. `check OSIL OSRL` reads an instance and a result from two files and says whether what is claimed is shown.
//! `solve OSIL [--options OSOL] [--result OSRL] [--seconds N] [--halt FILE] [--safe]` reads an instance, options and a result that is handed in
//! from files and writes the result document that answers them; `--seconds N` puts a time,
//! and `--safe` the safe limit of turns (`no_cycles`), if the program has one, in place of the options' own; `--halt FILE` ends the search
//! once there is a file of that name.
//! `generate N` solves and checks a generated instance. `call` makes a call over a link, and `serve` serves links.
//! `--journal FILE` has a session or a server keep its jobs in a file, and `compact OLD NEW` writes such a file again, without what
//! jobs that are gone had. The program `os_main` hands in the real ends and ends with the status of `run`, [`exit_code`]. The laws say
//! what the words mean, and when `solve --safe` doesn't end at its limit of turns.
//!
//! What waits for nobody but its files, disks, link and output is done by [`run_at_once`], which has no handle to wait by; only a session
//! and a server wait for others ([`Waits`]).
#![tactic(auto)]

mod checking;
mod command;
mod generating;
mod laws;
mod paced;
mod safe;
mod solving;
mod statuses;
mod stored;
mod timed;

pub use command::{Waits, exit_code, run, run_at_once};
pub use command_line::{commands_have_their_words, numbers_are_within_their_ends};
pub use laws::safe_solves_stay_within_turns;
