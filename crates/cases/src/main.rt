//! cases: runs the scripts of its input, one behind the other, each over a store of its own.
//!
//! A line 'script NAME LENGTH', with the count of its bytes, stands before each script. The program
//! prints the line 'script NAME' before its answers.
#![tactic(auto)]

use anyhow::{Context, anyhow};
use console::run;
use room::Room;
use std::io::{self, BufRead, BufReader, BufWriter, Read, Write};
use text::read_decimal;

/// The most bytes of a script here.
const MOST_BYTES: usize = 1 << 20;

/// The name and the length that a header says, if it is one.
fn read_header(header: &str) -> Option<(&str, usize)> {
    let rest = header.strip_prefix("script ")?;
    let (name, length) = rest.split_once(' ')?;
    let length = read_decimal(length.as_bytes())? as usize;
    (length <= MOST_BYTES).then_some((name, length))
}

/// Runs the script that stands behind its header.
fn run_case<R: Read + Drop, W: Write>(
    rt: &HostRuntime,
    header: &str,
    input: &mut BufReader<R>,
    output: &mut W,
    room: &mut Room,
) -> anyhow::Result<()> {
    let (name, length) = read_header(header).context("a line is no header of a script")?;
    let mut script = vec![in rt.alloc(); 0u8; length]?;
    input.read_exact(&mut script)?;
    writeln!(output, "script {name}")?;
    let mut lines = BufReader::new(rt.alloc(), script.as_slice())?;
    Ok(run(&mut lines, output, room)?)
}

fn main(rt: HostRuntime) -> anyhow::Result<()> {
    let mut input = BufReader::new(rt.alloc(), rt.reader())?;
    let mut output = BufWriter::new(rt.alloc(), io::writer(&rt))?;
    let mut room = Room::new(rt.alloc()).map_err(|_| anyhow!("no memory for the store"))?;
    let mut header = String::new(rt.alloc());
    for _ in 0..u64::MAX {
        header.clear();
        if input.read_line(&mut header)? == 0 {
            break;
        }
        run_case(&rt, header.trim_end(), &mut input, &mut output, &mut room)?;
    }
    Ok(output.flush()?)
}
