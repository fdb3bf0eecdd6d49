//! Lines of input, of any length.
ghost use Rattle.text.specs.Lines.{behind, is_any, line_in};
ghost use Rattle.std.specs.Io.BufRead.{strip_last};
ghost use Rattle.std.specs.Prelude.{◌≡◌, Some, IfOk, IfSome, OnOk};

use std::io::{self, BufRead};

/// Takes the line feed off the end, if there is one.
fn cut_line_feed(line: &mut Vec<u8>)
    ensures { line.new.items ≡ strip_last 10 line.old.items }
{
    if line.last() == Some(&b'\n') {
        line.pop();
    }
}

/// Reads the next line, without its line feed. Returns false where there is none. A last line needs
/// no line feed.
#[tactic(auto, using(crate::proofs::LineFacts::piece_is_line))]
pub(crate) fn read_line<R: BufRead>(input: &mut R, line: &mut Vec<u8>) -> io::Result<bool>
    ensures any { IfOk result (λ any. IfSome (R.remaining input.old) (λ xs. any ≡ is_any xs)) }
    ensures line { OnOk result (IfSome (R.remaining input.old) (λ xs.
        line.new.items ≡ line_in xs)) }
    ensures rest { OnOk result (IfSome (R.remaining input.old) (λ xs.
        R.remaining input.new ≡ Some (behind xs))) }
{
    line.clear();
    let length = input.read_until(b'\n', line)?;
    cut_line_feed(line);
    Ok(length > 0)
}
