//! What the words of a command line ask for.
ghost use Rattle.std.specs.Prelude.{◌≡◌, ◌↔◌, ◌≤◌, ℕ, List, length, Some, None, Ok, IfOk, IfSome, map, option_and_then, option_map};
ghost use Rattle.std.specs.String.{string_bytes};
ghost use Rattle.os_io.specs.Streams.{Sends};
ghost use Rattle.clap.specs.Words.{first_value, found_of, subcommand_rows_of};
ghost use Rattle.command_line.specs.CommandWords.{AreWordsOf};
ghost use Rattle.command_line.specs.Numbers.{number_between, number_or};
ghost use Rattle.command_line.specs.Words as says;

use crate::program::program;
use clap::ArgMatches;
use clap::error::ErrorKind;
use effects::MOST_FIRST;
use os_io::{Failed, Memory, Sink, send_all};
use six_calls::CallKind;
use std::alloc::{AllocError, Global};

/// The most seconds that `solve` may be given.
const MOST_SECONDS: u64 = 9_223_372_036_854_775_807;

/// How the program is started.
const USAGE: &[u8] = b"usage: os_app session | solve | check | serve | call | compact | generate\n";

/// Which call is to be made, of whom, and the names of the files with its parts. A part whose file isn't named is empty, and
/// one that the call doesn't have isn't sent.
#[derive(Clone, Copy)]
pub struct CallWords<'w> {
    pub kind: CallKind,
    pub host: &'w str,
    pub port: u16,
    pub osil: Option<&'w str>,
    pub osol: Option<&'w str>,
    pub ospl: Option<&'w str>,
}

/// Where is served, by up to how many workers that run jobs, how many conversations at once, and how many connections in all; for how
/// many seconds a link waits for its peer at most, which number the first job has, and the name of the journal's file.
#[derive(Clone, Copy)]
pub struct ServeWords<'w> {
    pub host: &'w str,
    pub port: u16,
    pub workers: u32,
    pub servers: u32,
    pub connections: u32,
    pub patience: u16,
    pub first: u64,
    pub journal: Option<&'w str>,
}

/// What the words ask for.
#[derive(Clone, Copy)]
pub enum Asked<'w> {
    /// To serve the requests that come on the input, and write the answers to the output, over the journal in a file, if it is named.
    Session {
        journal: Option<&'w str>,
    },
    /// To check the result in one file of the instance in another.
    Check {
        osil: &'w str,
        osrl: &'w str,
    },
    /// To solve the instance in a file, with the options in another one, if it is named, and the result in a third one that is handed in, if
    /// there is one; until there is a file of a fourth name, if there is one; within so many seconds, up to 2^63 - 1, in place of their
    /// time, if that is asked for; with the safe limit of turns in place of theirs, if that is asked for and there is one.
    Solve {
        osil: &'w str,
        options: Option<&'w str>,
        handed: Option<&'w str>,
        halt: Option<&'w str>,
        seconds: Option<u64>,
        safe: bool,
    },
    /// To make, to solve and to check the instance of 1 to 1,000 variables.
    Generate {
        variables: u32,
    },
    /// To make a call of the server at a port of a host, with the texts of the files that are named.
    Call(CallWords<'w>),
    /// To write the journal in one file again, into another one, without what jobs that are gone had.
    Compact {
        old: &'w str,
        new: &'w str,
    },
    /// To serve at a port of a host, with up to 16 workers that run jobs beside 1 to 64 conversations at once, until 1 to
    /// 1,000,000 connections have come, each of which waits for its peer for 1 to 3,600 seconds at most; jobs have numbers from one
    /// of 1 to 2^62 on.
    Serve(ServeWords<'w>),
}

/// The number that a word is, if it is one within these ends.
fn number_in(word: &str, least: u64, most: u64) -> Option<u64>
    ensures number { result ≡ number_between least most word.now }
    ensures within { IfSome result (λ n. n ≤ most) }
{
    match word.parse::<u64>() {
        Ok(number) if least <= number && number <= most => Some(number),
        _ => None,
    }
}

/// The number that a word is, or this one where there is no word.
fn number_or(default: u64, word: Option<&str>, least: u64, most: u64) -> Option<u64>
    requires { default ≤ most }
    ensures number { result ≡ number_or default least most (option_map (λ w. w.now) word.entry) }
    ensures within { IfSome result (λ n. n ≤ most) }
{
    match word {
        Some(word) => number_in(word, least, most),
        None => Some(default),
    }
}

/// The port among a command's words.
fn port_of(matches: &ArgMatches) -> Option<u16>
    ensures { result ≡ says.port_of (first_value (found_of matches.now)) }
{
    let port = number_in(matches.get_str("port")?, 0, 65_535)?;
    Some(port as u16)
}

/// The journal that `session`'s words name.
fn session_of<'w>(matches: &ArgMatches<'w>) -> Asked<'w>
    ensures { says.meant result ≡ says.session_of (first_value (found_of matches.now)) }
{
    let journal = matches.get_str("journal");
    Asked::Session { journal }
}

/// The files that a check's words name.
fn check_of<'w>(matches: &ArgMatches<'w>) -> Option<Asked<'w>>
    ensures { option_map says.meant result ≡ says.check_of (first_value (found_of matches.now)) }
{
    let osil = matches.get_str("osil")?;
    let osrl = matches.get_str("osrl")?;
    Some(Asked::Check { osil, osrl })
}

/// The journals that `compact`'s words name.
fn compact_of<'w>(matches: &ArgMatches<'w>) -> Option<Asked<'w>>
    ensures { option_map says.meant result ≡ says.compact_of (first_value (found_of matches.now)) }
{
    let old = matches.get_str("old")?;
    let new = matches.get_str("new")?;
    Some(Asked::Compact { old, new })
}

/// The seconds that a word says, if there is one.
fn seconds_of(word: Option<&str>) -> Option<Option<u64>>
    ensures { result ≡ says.seconds_of (option_map (λ w. w.now) word.entry) }
{
    let Some(word) = word else {
        return Some(None);
    };
    match number_in(word, 0, MOST_SECONDS) {
        Some(seconds) => Some(Some(seconds)),
        None => None,
    }
}

/// The files that `solve`'s words name, among them the one that ends the search, the time, if one is asked for, and whether the safe
/// limit of turns is.
fn solve_of<'w>(matches: &ArgMatches<'w>) -> Option<Asked<'w>>
    ensures { option_map says.meant result ≡ says.solve_of (first_value (found_of matches.now)) }
{
    let osil = matches.get_str("osil")?;
    let options = matches.get_str("options");
    let handed = matches.get_str("result");
    let halt = matches.get_str("halt");
    let safe = matches.get_str("safe").is_some();
    let seconds = seconds_of(matches.get_str("seconds"))?;
    Some(Asked::Solve {
        osil,
        options,
        handed,
        halt,
        seconds,
        safe,
    })
}

/// How many variables `generate`'s words ask for.
fn generate_of<'w>(matches: &ArgMatches<'w>) -> Option<Asked<'w>>
    ensures { option_map says.meant result ≡ says.generate_of (first_value (found_of matches.now)) }
{
    let variables = number_in(matches.get_str("variables")?, 1, 1_000)?;
    Some(Asked::Generate {
        variables: variables as u32,
    })
}

/// The call, the server and the files that `call`'s words name.
fn call_of<'w>(matches: &ArgMatches<'w>) -> Option<Asked<'w>>
    ensures { option_map says.meant result ≡ says.called_command (first_value (found_of matches.now)) }
{
    let kind = CallKind::named(matches.get_str("name")?.as_bytes())?;
    let host = matches.get_str("host")?;
    let port = port_of(matches)?;
    let osil = matches.get_str("osil");
    let osol = matches.get_str("osol");
    let ospl = matches.get_str("ospl");
    Some(Asked::Call(CallWords {
        kind,
        host,
        port,
        osil,
        osol,
        ospl,
    }))
}

/// The port and the counts that `serve`'s words name.
fn serve_of<'w>(matches: &ArgMatches<'w>) -> Option<Asked<'w>>
    ensures { option_map says.meant result ≡ says.serve_of (first_value (found_of matches.now)) }
{
    let host = matches.get_str("host")?;
    let port = port_of(matches)?;
    let workers = number_or(2, matches.get_str("workers"), 0, 16)?;
    let servers = number_or(8, matches.get_str("servers"), 1, 64)?;
    let connections = number_or(1_000_000, matches.get_str("connections"), 1, 1_000_000)?;
    let patience = number_or(30, matches.get_str("patience"), 1, 3_600)?;
    let first = number_or(1, matches.get_str("first"), 1, MOST_FIRST)?;
    let journal = matches.get_str("journal");
    Some(Asked::Serve(ServeWords {
        host,
        port,
        workers: workers as u32,
        servers: servers as u32,
        connections: connections as u32,
        patience: patience as u16,
        first,
        journal,
    }))
}

/// What a command of this name asks for.
fn asked_of<'w>(name: &str, matches: &ArgMatches<'w>) -> Option<Asked<'w>>
    ensures { option_map says.meant result ≡ says.command_asked name.now (first_value (found_of matches.now)) }
{
    if name == "session" {
        Some(session_of(matches))
    } else if name == "check" {
        check_of(matches)
    } else if name == "solve" {
        solve_of(matches)
    } else if name == "generate" {
        generate_of(matches)
    } else if name == "call" {
        call_of(matches)
    } else if name == "compact" {
        compact_of(matches)
    } else if name == "serve" {
        serve_of(matches)
    } else {
        None
    }
}

/// What the command asks for that was found.
fn subcommand_asked<'w>(matches: &ArgMatches<'w>) -> Option<Asked<'w>>
    ensures { option_map says.meant result ≡ option_and_then (λ f. says.command_asked f.0 (says.found_in f.1)) (subcommand_rows_of matches.now) }
{
    let (name, found) = matches.subcommand()?;
    asked_of(name, found)
}

/// What the words ask for, the first of which is the program's name. There is nothing where they are no command, or ask
/// for help. To say so of the name alone takes no memory.
pub fn read_words<'w>(alloc: Global, words: &'w [String]) -> Result<Option<Asked<'w>>, Memory>
    ensures asked { IfOk result (λ asked. option_map says.meant asked ≡ says.asks (map string_bytes words.now)) }
    ensures name_alone { length words.now ≤ 1 → result ≡ Ok None }
{
    if words.len() <= 1 {
        return Ok(None);
    }
    match program(alloc)?.try_get_matches_from(words) {
        Ok(matches) => Ok(subcommand_asked(&matches)),
        Err(error) => match error.kind() {
            ErrorKind::OutOfMemory => Err(AllocError),
            _ => Ok(None),
        },
    }
}

/// Law: the words of a command are a name, the command's, and words that stand for what it needs and may be given. A word
/// stands for itself where it is no flag; behind one `--`, which stands for nothing, each does. A name that stands alone
/// gives itself.
pub fn commands_have_their_words()
    ensures { (words : List (List ℕ)) (it : says.Command) → (says.asks words ≡ Some it) ↔ AreWordsOf it words }
{}

/// Law: the numbers of what words ask for are within their ends.
pub fn numbers_are_within_their_ends()
    ensures { (words : List (List ℕ)) (it : says.Command) → says.asks words ≡ Some it → says.AreNumbersWithin it }
{}

/// Writes how the program is started.
pub fn write_usage<O: Sink>(output: &mut O) -> Result<(), Failed>
    ensures { Sends result says.usage (O.tells output.old) (O.tells output.new) }
{
    send_all(output, USAGE)
}
