//! Answers, and the lines that say them.
ghost use Rattle.std.specs.Prelude.{◌≡◌, ◌≤◌, length, take};
ghost use Rattle.lines.specs.AnswerLine.{StaysOneLine, answer_line, line_over};
ghost use Rattle.lines.specs.ToldApart.{TellsApart};

use refusal::Refusal;
use text::{put, put_decimal, put_hex, put_refusal};

/// The most bytes that one answer line shows.
const MOST_SHOWN: usize = 255;

/// The answer to a line.
#[derive(Clone, Copy)]
pub enum Answer<'a> {
    /// Done, with nothing to show.
    Done,
    /// A capability's sixteen bytes.
    Capability([u8; 16]),
    /// Bytes, of which a line shows the first 255.
    Bytes(&'a [u8]),
    Number(u64),
    Refused(Refusal),
}

/// The bytes that one answer line shows of these.
#[tactic(auto, using(std::proofs::lemmas::List::take_min))]
fn first_shown(bytes: &[u8]) -> &[u8]
    ensures { result.now ≡ take 255 bytes.now }
{
    &bytes[..MOST_SHOWN.min(bytes.len())]
}

impl Answer<'_> {
    /// Writes the answer line to the front of `out`, which has room for any. Returns its length,
    /// and never None.
    pub(crate) fn put(self, out: &mut [u8]) -> Option<usize>
        requires roomy { 320 ≤ length out.old }
        ensures end { result ≡ Some (length (answer_line self.entry)) }
        ensures buffer { out.new ≡ line_over (answer_line self.entry) out.old }
        ensures short { length (answer_line self.entry) ≤ 258 }
        ensures one_line { StaysOneLine self.entry }
        ensures apart { TellsApart self.entry }
    {
        match self {
            Answer::Capability(bytes) => {
                let at = put(out, 0, b"ok ")?;
                put_hex(out, at, &bytes)
            }
            Answer::Bytes(bytes) if !bytes.is_empty() => {
                let at = put(out, 0, b"ok ")?;
                put(out, at, first_shown(bytes))
            }
            Answer::Number(n) => {
                let at = put(out, 0, b"ok ")?;
                put_decimal(out, at, n)
            }
            Answer::Refused(refusal) => put_refusal(out, 0, refusal),
            // Nothing to show.
            Answer::Done | Answer::Bytes(_) => put(out, 0, b"ok"),
        }
    }
}
