//! The stages of a script.
ghost use Rattle.memory.specs.Held.{content};
ghost use Rattle.memory.specs.Loans.{SameLoan};
ghost use Rattle.script.specs.AnswerLines.{told_from};
ghost use Rattle.script.specs.CodeStates.{stage_of, started_as};
ghost use Rattle.script.specs.Opening.{outcome_of_first, store_opening};
ghost use Rattle.script.specs.Scripts.{after_first, outcome_at, script_outcome};
ghost use Rattle.lines.specs.Steps.{store_values};
ghost use Rattle.store.specs.Told.{IsWithin};
ghost use Rattle.std.specs.Prelude.{◌≡◌, IfOk};

use crate::opening::Begun;
use crate::session::Session;
use family::{Dickson, FamilyKind, Powers};
use holder::Capability;
use lines::{LineRefusal, StoreLine, read_store_line};
use memory::Memory;
use refusal::Refusal;
use store::Answer;

/// The stage of a script.
#[derive(Drop)]
pub enum Stage {
    /// Before its first line.
    Waiting,
    /// In a session of modular powers.
    Powers(Session<Powers>),
    /// In a session of Dickson polynomials.
    Dickson(Session<Dickson>),
    /// Behind a refused first line: the script takes no more lines.
    Closed,
}

/// A session that began, and the owner capability of its store.
#[derive(Drop)]
pub struct Started {
    pub(crate) stage: Stage,
    pub(crate) owner: Capability,
}

/// Makes the family that a line names, and opens the store over it.
fn open_store(memory: &mut Memory, store: StoreLine) -> Result<Started, Refusal>
    ensures outcome { started_as memory.new result
        ≡ after_first (store_opening (content memory.old) (store_values store)) }
    ensures loan { SameLoan memory.old memory.new }
{
    let StoreLine {
        family,
        modulus,
        port,
        secret,
    } = store;
    match family {
        FamilyKind::Powers => {
            let Begun { session, owner } = Session::open(
                Powers::new(modulus)?,
                port,
                secret,
                memory,
            )?;
            let stage = Stage::Powers(session);
            Ok(Started { stage, owner })
        }
        FamilyKind::Dickson => {
            let Begun { session, owner } = Session::open(
                Dickson::new(modulus)?,
                port,
                secret,
                memory,
            )?;
            let stage = Stage::Dickson(session);
            Ok(Started { stage, owner })
        }
    }
}

/// Carries out the first line of a script.
fn start(memory: &mut Memory, line: &[u8]) -> Result<Started, Refusal>
    ensures outcome { started_as memory.new result
        ≡ after_first (outcome_of_first (content memory.old) line.now) }
    ensures loan { SameLoan memory.old memory.new }
{
    let store = read_store_line(line).map_err(LineRefusal::from)?;
    open_store(memory, store)
}

impl Stage {
    /// Carries out the first line, which opens a session or closes the script.
    fn begin(&mut self, memory: &mut Memory, line: &[u8]) -> Result<Answer, Refusal>
        ensures outcome { script_outcome (told_from memory.new result)
            (stage_of self.new memory.new)
            ≡ after_first (outcome_of_first (content memory.old) line.now) }
        ensures within { IfOk result (IsWithin (content memory.new)) }
        ensures loan { SameLoan memory.old memory.new }
    {
        match start(memory, line) {
            Ok(Started { stage, owner }) => {
                *self = stage;
                Ok(Answer::Granted(owner))
            }
            Err(refusal) => {
                *self = Stage::Closed;
                Err(refusal)
            }
        }
    }

    /// Carries out a line at any stage.
    pub(crate) fn pass(&mut self, memory: &mut Memory, line: &[u8]) -> Result<Answer, Refusal>
        ensures outcome { script_outcome (told_from memory.new result)
            (stage_of self.new memory.new)
            ≡ outcome_at (stage_of self.old memory.old) line.now }
        ensures within { IfOk result (IsWithin (content memory.new)) }
        ensures loan { SameLoan memory.old memory.new }
    {
        match self {
            Stage::Waiting => self.begin(memory, line),
            Stage::Powers(session) => session.carry_line(memory, line),
            Stage::Dickson(session) => session.carry_line(memory, line),
            Stage::Closed => Err(LineRefusal::BadLine(1).into()),
        }
    }
}
