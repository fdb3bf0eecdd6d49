//! Tickets: each stands for a line that waits for its answer.
ghost use Rattle.std.specs.Prelude.{◌≡◌, ◌≤◌, IfOk};
ghost use Rattle.lines.specs.AnswerLine.{StaysOneLine};
ghost use Rattle.lines.specs.Tickets.{Answers, answer_over};
ghost use Rattle.lines.specs.ToldApart.{TellsApart};

use crate::answer::Answer;
use crate::desk::{Desk, LEAST};
use crate::error::LineRefusal;

/// A line that waits for its answer.
///
/// It has no `Drop`: only writing its answer uses it up. Until then the desk takes no other line.
pub struct Ticket<'d, 'l> {
    pub(crate) desk: &'d mut Desk,
    pub(crate) line: &'l [u8],
}

/// A ticket that comes back, and the reason.
pub struct Kept<'d, 'l> {
    pub ticket: Ticket<'d, 'l>,
    pub refusal: LineRefusal,
}

impl<'d, 'l> Ticket<'d, 'l> {
    /// The line to be answered.
    pub fn line(&self) -> &'l [u8]
        ensures { result.now ≡ self.now.line.now }
    {
        self.line
    }

    /// Writes the line's answer to the front of `out`, and returns its length. Where `out` is too
    /// short, hands the ticket back.
    pub fn answer(self, out: &mut [u8], answer: Answer) -> Result<usize, Kept<'d, 'l>>
        ensures end { Answers self.entry out.old answer.entry result }
        ensures buffer { out.new ≡ answer_over answer.entry out.old }
        ensures short { IfOk result (λ end. end ≤ 258) }
        ensures one_line { IfOk result (λ end. StaysOneLine answer.entry) }
        ensures apart { IfOk result (λ end. TellsApart answer.entry) }
    {
        if out.len() < LEAST {
            return Err(Kept {
                ticket: self,
                refusal: LineRefusal::ShortBuffer,
            });
        }
        let Ticket { desk: _, line: _ } = self;
        Ok(answer.put(out).unwrap())
    }
}
