ghost use Rattle.std.specs.Prelude.{◌≡◌, IfOk, map};
ghost use Rattle.std.specs.Option.{option_map};
ghost use Rattle.clap.specs.Simple.{app_of};
ghost use Rattle.clap.specs.Walk.{rows_of};
ghost use Rattle.clap.specs.Matches.{found_of};
ghost use Rattle.s38_command.specs.Said.{command_line, said_in, said_of};

use clap::error::ErrorKind;
use clap::{Arg, ArgMatches, Command, Error};
use s38_base::NoMemory;
use std::alloc::{AllocError, Global};
use std::marker::Model;

/// What was given for each argument of the command line. Contracts see the words.
#[derive(Drop)]
pub struct Said<'a> {
    pub command: Option<&'a str>,
    pub rest: Option<&'a str>,
    pub pick: Option<&'a str>,
    pub workers: Option<&'a str>,
}

impl<'a> Model for Said<'a> {
    ghost use Rattle.std.specs.Prelude.{option_map};
    ghost use Rattle.s38_command.specs.Said.{WordsSaid};

    ghost Value = { WordsSaid };

    ghost view = { λ s. record {
      command = option_map (λ w. w.now) s.command;
      rest = option_map (λ w. w.now) s.rest;
      pick = option_map (λ w. w.now) s.pick;
      workers = option_map (λ w. w.now) s.workers;
    } };
}

/// The simple command: two positionals, and two options with a value each.
fn command_line<'a>(alloc: Global) -> Result<Command<'a>, AllocError>
    ensures { IfOk result (λ command. app_of command ≡ command_line) }
{
    let pick = Arg::new(alloc, "pick").long("pick");
    let workers = Arg::new(alloc, "workers").long("workers");
    Command::new(alloc, "s38")
        .no_binary_name(true)
        .arg(Arg::new(alloc, "command"))?
        .arg(Arg::new(alloc, "rest"))?
        .arg(pick)?
        .arg(workers)
}

/// What a parse found.
fn said_in<'a>(matches: &ArgMatches<'a>) -> Said<'a>
    ensures { result ≡ said_in (rows_of (found_of matches.now)) }
{
    Said {
        command: matches.get_str("command"),
        rest: matches.get_str("rest"),
        pick: matches.get_str("pick"),
        workers: matches.get_str("workers"),
    }
}

/// What the words say; None where the simple command refuses them. `NoMemory` where memory was refused.
pub fn said_of<'a>(alloc: Global, words: &'a [&'a str]) -> Result<Option<Said<'a>>, NoMemory>
    ensures { IfOk result (λ said. said ≡ said_of (map (λ w. w.now) words.now)) }
{
    let command = command_line(alloc)?;
    match command.try_get_matches_from(words) {
        Ok(matches) => Ok(Some(said_in(&matches))),
        Err(error) => match error.kind() {
            ErrorKind::OutOfMemory => Err(NoMemory),
            _ => Ok(None),
        },
    }
}
