//! A script: takes each line, carries it out and answers it before the next.
ghost use Rattle.memory.specs.Loans.{SameLoan};
ghost use Rattle.memory.specs.declared.memory.Memory.{Memory};
ghost use Rattle.script.specs.CodeStates.{script_stage};
ghost use Rattle.script.specs.Delivery.{delivery, delivery_at};
ghost use Rattle.script.specs.Laws.{LawsOfScripts};
ghost use Rattle.script.specs.Scripts.{before, is_closed};
ghost use Rattle.memory.specs.Held.{content};
ghost use Rattle.std.specs.Prelude.{◌≡◌, ◌≤◌, IfOk, IfSome};

use crate::showing::show;
use crate::stage::Stage;
use lines::{Desk, LineRefusal};
use memory::Memory;

/// A script, and the desk that takes its lines.
#[derive(Drop)]
pub struct Script {
    desk: Desk,
    stage: Stage,
}

impl Script {
    /// A script before its first line.
    pub fn new() -> Script
        ensures { (memory : Memory) → script_stage result memory ≡ before (content memory) }
    {
        Script {
            desk: Desk,
            stage: Stage::Waiting,
        }
    }

    /// Whether the script takes no more lines.
    pub fn is_closed(&self) -> bool
        ensures { (memory : Memory) → result ≡ is_closed (script_stage self.now memory) }
    {
        matches!(self.stage, Stage::Closed)
    }

    /// Takes a line through to its answer, and returns the length of the answer line at the front
    /// of `out`. A closed script takes none, and returns None.
    #[tactic(auto, using(crate::proofs::LawFacts::laws_of_scripts))]
    pub fn answer(
        &mut self,
        memory: &mut Memory,
        line: &[u8],
        out: &mut [u8],
    ) -> Result<Option<usize>, LineRefusal>
        ensures outcome { delivery result out.new (script_stage self.new memory.new)
            ≡ delivery_at (script_stage self.old memory.old) line.now out.old }
        ensures loan { SameLoan memory.old memory.new }
        ensures short { IfOk result (λ given. IfSome given (λ length. length ≤ 258)) }
        ensures laws { LawsOfScripts }
    {
        if self.is_closed() {
            return Ok(None);
        }
        let ticket = self.desk.take(line, out)?;
        let told = self.stage.pass(memory, ticket.line());
        let length = ticket.answer(out, show(memory, told)).unwrap();
        Ok(Some(length))
    }
}
