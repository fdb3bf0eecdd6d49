//! The opening of a store, and all that follows.
ghost use Rattle.family.specs.Power.{powers_over};
ghost use Rattle.file_lines.specs.Opening.{PrintsAll, opening_over, status_after};
ghost use Rattle.file_lines.specs.Registry.{opened_state};
ghost use Rattle.family.specs.contracts.powers.PowersCommutingFamily.TheImpl.{ghosts as in_powers};
ghost use Rattle.memory.specs.Held.{content};
ghost use Rattle.std.specs.Io.Buffered.{reader_remaining};
ghost use Rattle.std.specs.Process.{exit_status};
ghost use Rattle.std.specs.Prelude.{◌≡◌, IfOk, OnOk};

use crate::action::Action;
use crate::filing::file_all;
use crate::numbers::Numbers;
use crate::printing::print_action;
use crate::registry::Registry;
use crate::reply::Reply;
use family::Powers;
use memory::Memory;
use refusal::Refusal;
use std::alloc::Global;
use std::io::{BufReader, Read, Write};
use std::process::ExitCode;

/// Opens a store of powers.
fn open(numbers: Numbers, memory: &mut Memory) -> Result<Registry<Powers>, Refusal>
    ensures { opened_state in_powers.meaning result memory.new
        ≡ opening_over numbers (content memory.old) }
{
    let Numbers { modulus, secret } = numbers;
    Ok(Registry::open(Powers::new(modulus)?, secret, memory)?)
}

/// Opens a store of powers, and files the lines of the input there. Prints a refused opening too.
pub(crate) fn open_and_file<R: Read + Drop, W: Write>(
    alloc: Global,
    numbers: Numbers,
    memory: &mut Memory,
    input: &mut BufReader<R>,
    output: &mut W,
) -> anyhow::Result<ExitCode>
    ensures text { OnOk result
        (PrintsAll (opening_over numbers (content memory.old))
        (reader_remaining R.remaining input.old) (W.contents output.old) (W.contents output.new)) }
    ensures status { IfOk result (λ code.
        exit_status code ≡ status_after (opening_over numbers (content memory.old))) }
{
    match open(numbers, memory) {
        Ok(mut registry) => {
            file_all(alloc, &mut registry, memory, input, output)?;
            Ok(ExitCode::SUCCESS)
        }
        Err(refusal) => {
            print_action(output, Action::Open, Reply::Refused(refusal))?;
            Ok(ExitCode::FAILURE)
        }
    }
}
