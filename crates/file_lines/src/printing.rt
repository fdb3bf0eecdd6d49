//! The line of an action.
ghost use Rattle.file_lines.specs.Printing.{action_line, reply_text};
ghost use Rattle.std.specs.Io.KnownBytes.{Appends};
ghost use Rattle.std.specs.Prelude.{OnOk};

use crate::action::Action;
use crate::reply::{Reply, print_reply};
use std::io::{self, Write};

/// Prints the line of an action: the action, its reply, and a line feed.
#[tactic(auto, unfolding(crate::specs::Printing::action_line))]
pub(crate) fn print_action<W: Write>(output: &mut W, action: Action, reply: Reply) -> io::Result<()>
    ensures { OnOk result
        (Appends (W.contents output.old) (W.contents output.new)
        (action_line action (reply_text reply.entry))) }
{
    write!(output, "{action} ")?;
    print_reply(output, reply)?;
    writeln!(output)
}
