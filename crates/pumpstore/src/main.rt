//! pumpstore: answers the lines of a script over a store of its own.
#![tactic(auto)]

mod command;
#[cfg(test)]
mod tests;

use crate::command::Command;
use anyhow::{Context, anyhow};
use console::run;
use room::Room;
use std::convert::AsStr;
use std::env;
use std::fs::File;
use std::io::{self, BufReader, BufWriter, Read};
use std::process::ExitCode;

const USAGE: &str = "usage: pumpstore [FILE]...

Reads a script and prints an answer for each of its lines: from standard input, or from each FILE in
turn, where each has a store of its own. The first line opens the store; if it is refused, the script
is at its end.

  store L N PORT SECRET   opens a store: L is P for modular powers or D for Dickson polynomials, N the
                          modulus from 3 to 2147483647, PORT twelve hexadecimal digits; A0 gets the
                          capability for the store
  file C SECRET TEXT T    creates a file with the bytes of TEXT      dir C SECRET T   creates a directory
  read C                  shows a file's bytes                       size C           its length
  drop C K T              drops right K of C                         give C T         gives C on
  enter C NAME E W I B    enters E in a directory under NAME, with masks for works, inspector and buyer
  out C NAME              takes the entry of NAME away               look C NAME T    looks NAME up
  walk C PATH T           looks up names joined by slashes           row C N          the name in row N
  name C E                the name entered last for E's object       kill C           destroys an object
  new C SECRET T          gives an object another secret

C and E are pockets that are read and T is one that is filled: a holder A to H and a digit 0 to 7.
Numbers are decimals of at most 15 digits, masks two hexadecimal digits, in small letters. An answer is
'ok', with what there is to show, or 'no' with the refusal's number, layer and place.

The exit status is 0 when all scripts were answered, whatever was refused in them, and 1 when one could
not be read or its answers not be written.
";

/// Runs the script of a reader, whose answers are printed.
fn run_from<R: Read + Drop>(rt: &HostRuntime, input: R, room: &mut Room) -> anyhow::Result<()> {
    let mut input = BufReader::new(rt.alloc(), input)?;
    let mut output = BufWriter::new(rt.alloc(), io::writer(rt))?;
    Ok(run(&mut input, &mut output, room)?)
}

/// Runs the script of each file, over a store of its own.
fn run_files<W: AsStr>(rt: &HostRuntime, names: &[W], room: &mut Room) -> anyhow::Result<()> {
    for name in names {
        let file = File::open(rt, name.as_str()).context("a script cannot be opened")?;
        run_from(rt, file, room)?;
    }
    Ok(())
}

/// Runs the scripts of these files, or that of standard input where there are none.
fn run_scripts(rt: &HostRuntime, names: &[String]) -> anyhow::Result<()> {
    let mut room = Room::new(rt.alloc()).map_err(|_| anyhow!("no memory for the store"))?;
    if names.is_empty() {
        return run_from(rt, rt.reader(), &mut room);
    }
    run_files(rt, names, &mut room)
}

fn main(rt: HostRuntime) -> anyhow::Result<ExitCode> {
    let words: Vec<String> = env::args(&rt)?.collect(rt.alloc())?;
    let words = words.get(1..).unwrap_or(&[]);
    match Command::of(words) {
        Command::Help => rt.print(USAGE)?,
        Command::Scripts => run_scripts(&rt, words)?,
        Command::NoOption => {
            eprint!(rt; "pumpstore: there is no option but --help\n\n{USAGE}")?;
            return Ok(ExitCode::FAILURE);
        }
    }
    Ok(ExitCode::SUCCESS)
}
