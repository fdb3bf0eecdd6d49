//! Runs read back, and the first revoked.
ghost use Rattle.file_lines.specs.Filing.{closing_text, reading_text, readings_text, revoking_text};
ghost use Rattle.file_lines.specs.Registry.{registry_state, revoking_outcome};
ghost use Rattle.std.specs.Io.KnownBytes.{Appends};
ghost use Rattle.std.specs.Prelude.{◌≡◌, OnOk};

use crate::action::Action;
use crate::printing::print_action;
use crate::registry::Registry;
use crate::reply::Reply;
use crate::run::Run;
use family::CommutingFamily;
use memory::Memory;
use std::io::{self, Write};

/// Reads a run with the capability that was handed out for it.
#[tactic(auto, unfolding(crate::specs::Filing::reading_text))]
fn read_back<F: CommutingFamily + Drop, W: Write>(
    registry: &Registry<F>,
    memory: &Memory,
    run: Run,
    output: &mut W,
) -> io::Result<()>
    ensures { OnOk result
        (Appends (W.contents output.old) (W.contents output.new)
        (reading_text (registry_state F.meaning registry.now memory.now) run)) }
{
    let read = registry.read(memory, run.reader);
    print_action(output, Action::Read(run.line), Reply::to_reading(read))
}

/// Revokes a run, and tries to read it as before.
fn revoke<F: CommutingFamily + Drop, W: Write>(
    registry: &mut Registry<F>,
    memory: &mut Memory,
    run: Run,
    output: &mut W,
) -> io::Result<()>
    ensures text { OnOk result
        (Appends (W.contents output.old) (W.contents output.new)
        (revoking_text (registry_state F.meaning registry.old memory.old) run)) }
    ensures after { OnOk result
        (registry_state F.meaning registry.new memory.new
        ≡ (revoking_outcome (registry_state F.meaning registry.old memory.old) run.owner).after) }
{
    let revoked = registry.revoke(memory, run.owner);
    print_action(
        output,
        Action::Revoke(run.line),
        Reply::to_granting(revoked),
    )?;
    read_back(registry, memory, run, output)
}

/// Reads runs, one after the other.
fn read_all<F: CommutingFamily + Drop, W: Write>(
    registry: &Registry<F>,
    memory: &Memory,
    runs: &[Run],
    output: &mut W,
) -> io::Result<()>
    ensures { OnOk result
        (Appends (W.contents output.old) (W.contents output.new)
        (readings_text (registry_state F.meaning registry.now memory.now) runs.now)) }
{
    for run in runs {
        read_back(registry, memory, *run, output)?;
    }
    Ok(())
}

/// Reads the runs that were filed, and revokes the first.
pub(crate) fn close<F: CommutingFamily + Drop, W: Write>(
    registry: &mut Registry<F>,
    memory: &mut Memory,
    runs: &[Run],
    output: &mut W,
) -> io::Result<()>
    ensures { OnOk result
        (Appends (W.contents output.old) (W.contents output.new)
        (closing_text (registry_state F.meaning registry.old memory.old) runs.now)) }
{
    read_all(registry, memory, runs, output)?;
    match runs {
        [] => Ok(()),
        [first, ..] => revoke(registry, memory, *first, output),
    }
}
