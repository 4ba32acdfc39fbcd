// The program: commands over machine cards and shelves of discs.
#![tactic(auto)]

mod cards;
mod command;
mod disc;
mod failure;
mod options;
mod show;

use command::Command;
use failure::Failure;
use std::env;
use std::process::ExitCode;

// The commands and their options.
const USAGE: &str = "usage:
  een421 card new FILE        write a fresh machine's card to FILE, and check it
  een421 card show FILE       print the machine record of the card in FILE
  een421 card copy FROM TO    read the card in FROM and write it to TO
  een421 disc dense [OPTION..]          make a shelf that holds every block, and use it
  een421 disc sparse SLOTS [OPTION..]   make a shelf with so many slots for blocks, and use it
  een421 help                 print this text
options of disc:
  --drive D=B                 declare drive D, of B blocks
  --lend N                    lend N words (as many as the shelf needs, if not given)
  --write D:B=W,W,..          write block B of drive D: these words, and zeros behind them
  --read D:B                  read block B of drive D
  --copy D:B+N=E:C            copy N blocks of drive D, from B on, to drive E, from C on";

// The arguments behind the program's name.
fn arguments(rt: &HostRuntime) -> Result<Vec<String>, Failure<'static>> {
    Ok(env::args(rt)?.skip(1).collect(rt.alloc())?)
}

// Does what the arguments ask for.
fn run<'a>(rt: &HostRuntime, args: &'a [String]) -> Result<(), Failure<'a>> {
    match command::parse(args).ok_or(Failure::Usage)? {
        Command::New(file) => cards::new(rt, file),
        Command::Show(file) => cards::show(rt, file),
        Command::Copy(from, to) => cards::copy(rt, from, to),
        Command::Disc(make, args) => disc::run(rt, make, args),
        Command::Help => Ok(rt.println(USAGE)?),
    }
}

// The program's status. Where it failed, it tells why first.
fn status(rt: &HostRuntime, done: Result<(), Failure<'_>>) -> ExitCode {
    let Err(failure) = done else {
        return ExitCode::SUCCESS;
    };
    let _ = match failure {
        Failure::Usage => rt.eprintln(USAGE),
        _ => eprintln!(rt; "een421: {failure}"),
    };
    ExitCode::FAILURE
}

fn main(rt: HostRuntime) -> ExitCode {
    match arguments(&rt) {
        Ok(args) => status(&rt, run(&rt, &args)),
        Err(failure) => status(&rt, Err(failure)),
    }
}
