//! A session: a store, and the pockets of its holders.
ghost use Rattle.lines.specs.Refusals.{bad_line};
ghost use Rattle.lines.specs.Steps.{task_values};
ghost use Rattle.memory.specs.Held.{content};
ghost use Rattle.memory.specs.Loans.{SameLoan};
ghost use Rattle.memory.specs.declared.memory.Memory.{Memory};
ghost use Rattle.script.specs.AnswerLines.{told_from};
ghost use Rattle.script.specs.Deeds.{ask, deed_values};
ghost use Rattle.script.specs.Sessions.{line_outcome, session_state};
ghost use Rattle.script.specs.Tasks.{capability_told, deed_outcome, outcome_of_line, pockets_filled, task_outcome};
ghost use Rattle.std.specs.Prelude.{◌≡◌, IfOk};
ghost use Rattle.store.specs.Told.{IsWithin};
ghost use Rattle.store.specs.Values.{ask_of, told_in};

use crate::deed::Deed;
use crate::pockets::Pockets;
use family::CommutingFamily;
use holder::Capability;
use lines::{LineRefusal, Pocket, Task, read_step};
use memory::Memory;
use refusal::Refusal;
use secret::SETS;
use store::{Answer, Request, Store};

/// The store and the pockets, which stay from line to line.
#[derive(Drop)]
pub struct Session<F> {
    pub(crate) store: Store<F>,
    pub(crate) pockets: Pockets,
}

impl Pockets {
    /// Puts the capability of an answer into the target.
    fn fill(&mut self, target: Option<Pocket>, answer: Answer)
        ensures { (memory : Memory) → self.new.places
            ≡ pockets_filled self.old.places target
            (capability_told (told_in (content memory) answer)) }
    {
        if let Some(pocket) = target
            && let Answer::Granted(capability) | Answer::Found(capability) = answer
        {
            self.put(pocket, capability);
        }
    }
}

impl<F: CommutingFamily> Session<F> {
    /// Asks the store.
    fn ask(
        &mut self,
        memory: &mut Memory,
        capability: Capability,
        request: Request,
    ) -> Result<Answer, Refusal>
        ensures outcome { line_outcome (told_from memory.new result)
            (session_state F.meaning self.new memory.new)
            ≡ deed_outcome (session_state F.meaning self.old memory.old) capability
            (ask (ask_of request.entry)) }
        ensures within { IfOk result (IsWithin (content memory.new)) }
        ensures loan { SameLoan memory.old memory.new }
    {
        let mut scratch = [0; SETS];
        Ok(self.store.serve(memory, capability, request, &mut scratch)?)
    }

    /// Does a deed with the capability presented.
    fn perform(
        &mut self,
        memory: &mut Memory,
        capability: Capability,
        deed: Deed,
    ) -> Result<Answer, Refusal>
        ensures outcome { line_outcome (told_from memory.new result)
            (session_state F.meaning self.new memory.new)
            ≡ deed_outcome (session_state F.meaning self.old memory.old) capability
            (deed_values deed.entry) }
        ensures within { IfOk result (IsWithin (content memory.new)) }
        ensures loan { SameLoan memory.old memory.new }
    {
        match deed {
            Deed::Ask(request) => self.ask(memory, capability, request),
            Deed::Drop(right) => Ok(Answer::Found(capability.drop_right(
                self.store.family(),
                right,
            )?)),
            Deed::Give => Ok(Answer::Found(capability)),
        }
    }

    /// Carries a task out, and fills its target.
    fn carry(&mut self, memory: &mut Memory, task: Task) -> Result<Answer, Refusal>
        ensures outcome { line_outcome (told_from memory.new result)
            (session_state F.meaning self.new memory.new)
            ≡ task_outcome (session_state F.meaning self.old memory.old) (task_values task.entry) }
        ensures within { IfOk result (IsWithin (content memory.new)) }
        ensures loan { SameLoan memory.old memory.new }
    {
        let capability = self.pockets.held(task.presented)?;
        let deed = self.pockets.deed(task.step)?;
        let answer = self.perform(memory, capability, deed)?;
        self.pockets.fill(task.target, answer);
        Ok(answer)
    }

    /// Carries out a line behind the first.
    pub(crate) fn carry_line(&mut self, memory: &mut Memory, line: &[u8]) -> Result<Answer, Refusal>
        ensures outcome { line_outcome (told_from memory.new result)
            (session_state F.meaning self.new memory.new)
            ≡ outcome_of_line (session_state F.meaning self.old memory.old) line.now }
        ensures within { IfOk result (IsWithin (content memory.new)) }
        ensures loan { SameLoan memory.old memory.new }
    {
        let task = read_step(line).map_err(LineRefusal::from)?;
        self.carry(memory, task)
    }
}
