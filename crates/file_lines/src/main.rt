//! file_lines: files the lines of its input as runs in a store of its own, hands them out for
//! reading, and revokes the first.
#![tactic(auto)]

mod action;
mod closing;
mod filing;
mod lines;
mod numbers;
mod opening;
mod printing;
mod registry;
mod reply;
mod run;
mod secrets;

use crate::numbers::{Numbers, read_numbers};
use crate::opening::open_and_file;
use anyhow::anyhow;
use memory::Memory;
use room::Room;
use std::env;
use std::io::{self, BufReader, BufWriter, Write};
use std::process::ExitCode;

const USAGE: &str = "usage: file_lines MODULUS SECRET

Opens a store in memory of its own, and files each line of standard input as a run. The capability
of each run is restricted to reading, and the run is read back with what is left. Then the first
run is withdrawn, by giving it another secret, and to read it as before is refused.

Each step is printed, with the number of its line behind it, and with what it came to: a capability,
the bytes of the run, or a refusal, 'no NUMBER LAYER PLACE'.

  MODULUS  of the store's modular powers, a decimal from 3 to 2147483647
  SECRET   of the store itself, a decimal; each run gets the next larger number that is fit

Such secrets are easy to guess: this is for a look at a store. Its runs are gone when it ends.

The exit status is 0 when the store was opened, whatever was refused in it, and 1 when it was not, or
when lines could not be read or steps not be printed.
";

/// Opens a store over memory of this program's own, and files the lines of standard input there.
fn file_standard_input(rt: &HostRuntime, numbers: Numbers) -> anyhow::Result<ExitCode> {
    let mut room = Room::new(rt.alloc()).map_err(|_| anyhow!("no memory for the store"))?;
    let mut memory = Memory {
        files: &mut room.files,
        directories: &mut room.directories,
        rows: &mut room.rows,
        area: &mut room.area,
    };
    let mut input = BufReader::new(rt.alloc(), rt.reader())?;
    let mut output = BufWriter::new(rt.alloc(), io::writer(rt))?;
    let code = open_and_file(rt.alloc(), numbers, &mut memory, &mut input, &mut output)?;
    output.flush()?;
    Ok(code)
}

fn main(rt: HostRuntime) -> anyhow::Result<ExitCode> {
    let words: Vec<String> = env::args(&rt)?.collect(rt.alloc())?;
    if let [_, help] = words.as_slice()
        && help.as_str() == "--help"
    {
        rt.print(USAGE)?;
        return Ok(ExitCode::SUCCESS);
    }
    let Some(numbers) = read_numbers(&words) else {
        eprint!(rt;
            "file_lines: MODULUS and SECRET are wanted, each a decimal of 1 to 15 digits\n\n{USAGE}"
        )?;
        return Ok(ExitCode::FAILURE);
    };
    file_standard_input(&rt, numbers)
}
