//! Lines filed as runs.
ghost use Rattle.file_lines.specs.Filing.{FilesAll, filing_text, run_of, run_with, whole_text, with_run};
ghost use Rattle.file_lines.specs.Printing.{action_line, restriction_text};
ghost use Rattle.file_lines.specs.Registry.{filing_outcome, reader_of, registry_state};
ghost use Rattle.file_lines.specs.declared.action.Action.TheVariants.{Restrict};
ghost use Rattle.std.specs.Io.Buffered.{reader_remaining};
ghost use Rattle.std.specs.Io.KnownBytes.{Appends};
ghost use Rattle.std.specs.Prelude.{◌≡◌, ◌++◌, [], IfOk, IfSome, OnOk};
ghost use Rattle.store.specs.State.{kept_of};
ghost use Rattle.text.specs.Lines.{lines_in};

use crate::action::Action;
use crate::closing::close;
use crate::lines::read_line;
use crate::printing::print_action;
use crate::registry::Registry;
use crate::reply::Reply;
use crate::run::Run;
use anyhow::Context;
use family::CommutingFamily;
use holder::Capability;
use memory::Memory;
use std::alloc::{AllocError, Global};
use std::io::{self, BufReader, ErrorKind, Read, Write};

/// Restricts the capability of a run that was filed. Returns no run where that is refused.
fn restrict<F: CommutingFamily + Drop, W: Write>(
    registry: &Registry<F>,
    line: u64,
    owner: Capability,
    output: &mut W,
) -> io::Result<Option<Run>>
    ensures text { OnOk result
        (Appends (W.contents output.old) (W.contents output.new)
        (action_line (Restrict line)
        (restriction_text (reader_of (kept_of F.meaning registry.now.store) owner)))) }
    ensures run { IfOk result (λ run.
        run ≡ run_with line owner (reader_of (kept_of F.meaning registry.now.store) owner)) }
{
    let restricted = registry.restrict(owner);
    print_action(
        output,
        Action::Restrict(line),
        Reply::to_restricting(restricted),
    )?;
    Ok(match restricted {
        Ok(reader) => Some(Run {
            line,
            owner,
            reader,
        }),
        Err(_) => None,
    })
}

/// Files a line as a run, and restricts its capability. Returns no run where either is refused.
fn file_line<F: CommutingFamily + Drop, W: Write>(
    registry: &mut Registry<F>,
    memory: &mut Memory,
    line: u64,
    bytes: &[u8],
    output: &mut W,
) -> io::Result<Option<Run>>
    ensures text { OnOk result
        (Appends (W.contents output.old) (W.contents output.new)
        (filing_text line
        (filing_outcome (registry_state F.meaning registry.old memory.old) bytes.now))) }
    ensures run { IfOk result (λ run. run ≡ run_of line
        (filing_outcome (registry_state F.meaning registry.old memory.old) bytes.now)) }
    ensures after { registry_state F.meaning registry.new memory.new
        ≡ (filing_outcome (registry_state F.meaning registry.old memory.old) bytes.now).after }
{
    let filed = registry.file(memory, bytes);
    print_action(output, Action::File(line), Reply::to_granting(filed))?;
    match filed {
        Ok(owner) => restrict(registry, line, owner, output),
        Err(_) => Ok(None),
    }
}

/// Adds the run of a line, if there is one.
fn add_run(runs: &mut Vec<Run>, run: Option<Run>) -> Result<(), AllocError>
    ensures { OnOk result (runs.new.items ≡ runs.old.items ++ with_run run []) }
{
    if let Some(run) = run {
        runs.push(run)?;
    }
    Ok(())
}

/// Files each line of the input, and returns the runs. Prints what comes of a line before it waits
/// for the next one.
fn file_lines<F: CommutingFamily + Drop, R: Read + Drop, W: Write>(
    alloc: Global,
    registry: &mut Registry<F>,
    memory: &mut Memory,
    input: &mut BufReader<R>,
    output: &mut W,
) -> anyhow::Result<Vec<Run>>
    ensures { IfOk result (λ runs.
        FilesAll (registry_state F.meaning registry.old memory.old)
        (reader_remaining R.remaining input.old) (W.contents output.old) (W.contents output.new)
        runs.items (registry_state F.meaning registry.new memory.new)) }
{
    let mut runs = Vec::new(alloc);
    let mut bytes = Vec::new(alloc);
    for line in 1..u64::MAX {
        if !read_line(input, &mut bytes).context("the lines cannot be read")? {
            return Ok(runs);
        }
        let run = file_line(registry, memory, line, &bytes, output)?;
        add_run(&mut runs, run)?;
        output.flush()?;
    }
    Err(io::Error::from(ErrorKind::TimedOut).into())
}

/// Files each line of the input as a run, reads the runs back, and revokes the first.
pub(crate) fn file_all<F: CommutingFamily + Drop, R: Read + Drop, W: Write>(
    alloc: Global,
    registry: &mut Registry<F>,
    memory: &mut Memory,
    input: &mut BufReader<R>,
    output: &mut W,
) -> anyhow::Result<()>
    ensures { OnOk result (IfSome (reader_remaining R.remaining input.old) (λ xs.
        Appends (W.contents output.old) (W.contents output.new)
        (whole_text (registry_state F.meaning registry.old memory.old) (lines_in xs)))) }
{
    print_action(output, Action::Open, Reply::Given(registry.owner()))?;
    output.flush()?;
    let runs = file_lines(alloc, registry, memory, input, output)?;
    close(registry, memory, &runs, output)?;
    Ok(())
}
