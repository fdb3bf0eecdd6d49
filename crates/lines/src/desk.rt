//! The desk that takes lines.
ghost use Rattle.lines.specs.Tickets.{Takes};

use crate::error::LineRefusal;
use crate::ticket::Ticket;

/// The fewest bytes of an answer buffer.
pub const LEAST: usize = 320;

/// Takes the lines of a script, one at a time.
#[derive(Drop)]
pub struct Desk;

impl Desk {
    /// Takes a line, where `out` is long enough for its answer.
    pub fn take<'d, 'l>(
        &'d mut self,
        line: &'l [u8],
        out: &[u8],
    ) -> Result<Ticket<'d, 'l>, LineRefusal>
        ensures { Takes self.entry line.now out.now result }
    {
        if out.len() < LEAST {
            return Err(LineRefusal::ShortBuffer);
        }
        Ok(Ticket { desk: self, line })
    }
}
