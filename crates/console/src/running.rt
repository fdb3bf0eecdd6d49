//! Running a script.
ghost use Rattle.console.specs.LineLaw.{LawOfLines};
ghost use Rattle.console.specs.Lines.{text_of};
ghost use Rattle.console.specs.Printing.{PrintsAnswers, PrintsFront, WhereUnread};
ghost use Rattle.memory.specs.Held.{content};
ghost use Rattle.room.specs.Rooms.{held_in};
ghost use Rattle.script.specs.CodeStates.{script_stage};
ghost use Rattle.script.specs.Scripts.{answers, before, stage_after};
ghost use Rattle.std.specs.Io.Buffered.{reader_remaining};
ghost use Rattle.std.specs.Io.KnownBytes.{Appends};
ghost use Rattle.std.specs.Prelude.{◌≡◌, ◌∷◌, [], IfErr, OnOk};

use crate::error::RunError;
use crate::line::Line;
use lines::LEAST;
use memory::Memory;
use room::Room;
use script::Script;
use std::io::{BufReader, ErrorKind, Read, Write};

/// Prints the answer to a line, and nothing where the script takes no line any more.
fn print_answer<W: Write>(
    script: &mut Script,
    memory: &mut Memory,
    line: &[u8],
    output: &mut W,
) -> Result<(), RunError>
    ensures prints { OnOk result
        (Appends (W.contents output.old) (W.contents output.new)
        (text_of (answers (script_stage script.old memory.old) (line.now ∷ [])))) }
    ensures output { IfErr result (λ e. WhereUnread e ⊥) }
    ensures stage { script_stage script.new memory.new
        ≡ stage_after (script_stage script.old memory.old) (line.now ∷ []) }
{
    let mut out = [0; LEAST];
    if let Ok(Some(length)) = script.answer(memory, line, &mut out) {
        out[length] = b'\n';
        output.write_all(&out[..=length]).map_err(RunError::Output)?;
    }
    Ok(())
}

/// Prints the answers to all lines, in order, until it refuses a first line.
fn print_answers<R: Read + Drop, W: Write>(
    memory: &mut Memory,
    input: &mut BufReader<R>,
    output: &mut W,
) -> Result<(), RunError>
    ensures prints { OnOk result
        (PrintsAnswers (before (content memory.old))
        (reader_remaining R.remaining input.old) (reader_remaining R.remaining input.new)
        (W.contents output.old) (W.contents output.new)) }
    ensures front { IfErr result (λ e.
        WhereUnread e
        (PrintsFront (before (content memory.old)) (reader_remaining R.remaining input.old)
        (W.contents output.old) (W.contents output.new))) }
{
    let mut script = Script::new();
    let mut line = Line::new();
    for _ in 0..u64::MAX {
        if script.is_closed() || !line.read(input).map_err(RunError::Input)? {
            return output.flush().map_err(RunError::Output);
        }
        print_answer(&mut script, memory, line.bytes(), output)?;
        if input.buffer().is_empty() {
            output.flush().map_err(RunError::Output)?;
        }
    }
    Err(RunError::Input(ErrorKind::TimedOut.into()))
}

/// Answers each line of a script, in order, until it refuses a first line.
///
/// Each answer is on its way before the call waits for more input.
#[tactic(auto, using(crate::proofs::LawFacts::law_of_lines))]
pub fn run<R: Read + Drop, W: Write>(
    input: &mut BufReader<R>,
    output: &mut W,
    room: &mut Room,
) -> Result<(), RunError>
    ensures prints { OnOk result
        (PrintsAnswers (before (held_in room.old))
        (reader_remaining R.remaining input.old) (reader_remaining R.remaining input.new)
        (W.contents output.old) (W.contents output.new)) }
    ensures front { IfErr result (λ e.
        WhereUnread e
        (PrintsFront (before (held_in room.old)) (reader_remaining R.remaining input.old)
        (W.contents output.old) (W.contents output.new))) }
    ensures law { LawOfLines }
{
    let mut memory = Memory {
        files: &mut room.files,
        directories: &mut room.directories,
        rows: &mut room.rows,
        area: &mut room.area,
    };
    print_answers(&mut memory, input, output)
}
