//! The answers of the store, as answer lines show them.
ghost use Rattle.lines.specs.AnswerLine.{answer_line};
ghost use Rattle.memory.specs.Held.{content};
ghost use Rattle.memory.specs.Names.{name_of};
ghost use Rattle.memory.specs.Wiped.{zero_row};
ghost use Rattle.script.specs.AnswerLines.{told_from, told_line};
ghost use Rattle.std.specs.Prelude.{◌≡◌, ◌+◌, ◌<◌, ◌≤◌, IfOk, length, slice_index_or};
ghost use Rattle.store.specs.Parts.{part_of};
ghost use Rattle.store.specs.Told.{IsWithin};

use memory::{Memory, Row};
use refusal::Refusal;
use store::Answer;

/// So many bytes of the area, from a start on.
fn part(area: &[u8], start: u64, count: u64) -> &[u8]
    requires within { start + count ≤ length area.now }
    ensures { result.now ≡ part_of start count area.now }
{
    &area[start as usize..(start + count) as usize]
}

/// The name of a row.
fn name_at(rows: &[Row], row: usize) -> &[u8]
    requires within { row < length rows.now }
    ensures { result.now ≡ name_of (slice_index_or rows.now row zero_row) }
{
    rows[row].name()
}

/// The answer to a line, over memory as it is afterwards.
pub(crate) fn show<'m>(memory: &'m Memory, told: Result<Answer, Refusal>) -> lines::Answer<'m>
    requires within { IfOk told (IsWithin (content memory.now)) }
    ensures { answer_line result ≡ told_line (told_from memory.now told) }
{
    match told {
        Ok(Answer::Granted(capability) | Answer::Found(capability)) => {
            lines::Answer::Capability(capability.into())
        }
        Ok(Answer::Part { start, length }) => {
            lines::Answer::Bytes(part(memory.area, start, length))
        }
        Ok(Answer::Name { row }) => lines::Answer::Bytes(name_at(memory.rows, row)),
        Ok(Answer::Length(n)) => lines::Answer::Number(n),
        Ok(Answer::Done) => lines::Answer::Done,
        Err(refusal) => lines::Answer::Refused(refusal),
    }
}
