//! The program's command line, as `clap` is told it.
ghost use Rattle.std.specs.Prelude.{◌≡◌, false, map, IfOk};
ghost use Rattle.clap.specs.Words.{app_of, rule_of};
ghost use Rattle.command_line.specs.Forms.{flag_word, program_form};
ghost use Rattle.command_line.specs.CommandTellings.{HasNextCommand, IsToldForm};

use clap::{Arg, ArgAction, Command};
use os_io::Memory;
use std::alloc::Global;

/// A word that may stand alone.
fn flag<'a>(alloc: Global, id: &'a str) -> Arg<'a>
    ensures rule { rule_of result ≡ flag_word id.now }
    ensures local { result.global ≡ false }
{
    Arg::new(alloc, id)
        .long(id)
        .num_args(0_usize)
        .default_missing_value(id)
        .action(ArgAction::Set)
}

/// The command of this name, with the words that it needs, in their order, those that may be given behind their names, and
/// those that may stand alone.
fn command<'a>(
    alloc: Global,
    name: &'a str,
    needed: &[&'a str],
    named: &[&'a str],
    flags: &[&'a str],
) -> Result<Command<'a>, Memory>
    ensures { IfOk result (IsToldForm (record {
      name = name.now;
      needed = map (λ id. id.now) needed.now;
      named = map (λ id. id.now) named.now;
      flags = map (λ id. id.now) flags.now;
    })) }
{
    let mut command = Command::new(alloc, name);
    for id in needed {
        command = command.arg(Arg::new(alloc, id).required(true))?;
    }
    for id in named {
        command = command.arg(Arg::new(alloc, id).long(id))?;
    }
    for id in flags {
        command = command.arg(flag(alloc, id))?;
    }
    Ok(command)
}

/// The program with one more command, of this name and with these words, as [`command`] takes them.
fn with_command<'a>(
    program: Command<'a>,
    alloc: Global,
    name: &'a str,
    needed: &[&'a str],
    named: &[&'a str],
    flags: &[&'a str],
) -> Result<Command<'a>, Memory>
    ensures { IfOk result (HasNextCommand program.entry (record {
      name = name.now;
      needed = map (λ id. id.now) needed.now;
      named = map (λ id. id.now) named.now;
      flags = map (λ id. id.now) flags.now;
    })) }
{
    let added = command(alloc, name, needed, named, flags)?;
    program.subcommand(added)
}

/// The program's command line.
pub(crate) fn program<'a>(alloc: Global) -> Result<Command<'a>, Memory>
    ensures { IfOk result (λ command. app_of command ≡ program_form) }
{
    let program = Command::new(alloc, "os_app").subcommand_required(true);
    let program = with_command(program, alloc, "session", &[], &["journal"], &[])?;
    let program = with_command(program, alloc, "check", &["osil", "osrl"], &[], &[])?;
    let program = with_command(
        program,
        alloc,
        "solve",
        &["osil"],
        &["options", "result", "seconds", "halt"],
        &["safe"],
    )?;
    let program = with_command(program, alloc, "generate", &["variables"], &[], &[])?;
    let program = with_command(
        program,
        alloc,
        "call",
        &["name", "host", "port"],
        &["osil", "osol", "ospl"],
        &[],
    )?;
    let program = with_command(program, alloc, "compact", &["old", "new"], &[], &[])?;
    with_command(
        program,
        alloc,
        "serve",
        &["host", "port"],
        &[
            "workers",
            "servers",
            "connections",
            "patience",
            "first",
            "journal",
        ],
        &[],
    )
}
