//! The line that says a refusal: `no NUMBER LAYER PLACE`.
ghost use Rattle.std.specs.Prelude.{◌≡◌, Some};
ghost use Rattle.text.specs.Put.{buffer_after, end_of};
ghost use Rattle.text.specs.RefusalLine.{refusal_line};

use crate::bytes::put;
use arrayvec::ArrayString;
use itoa::Buffer;
use refusal::Refusal;
use std::fmt;

/// The most bytes of a refusal line: its number and its place have three digits at most.
const MOST: usize = 12;

/// Writes the line that says `refusal`, with no line feed, as `put` writes bytes.
pub fn put_refusal(out: &mut [u8], at: usize, refusal: Refusal) -> Option<usize>
    ensures end { result ≡ end_of out.old at (refusal_line refusal) }
    ensures buffer { out.new ≡ buffer_after out.old at (refusal_line refusal) }
{
    // By its parts: `Display` promises the text, but not that it writes wherever there is room.
    let mut digits = Buffer::new();
    let mut line: ArrayString<MOST> = ArrayString::new();
    line.try_push_str("no ").ok()?;
    line.try_push_str(digits.format(refusal.number)).ok()?;
    line.try_push_str(" ").ok()?;
    line.try_push(refusal.layer.letter()).ok()?;
    line.try_push_str(" ").ok()?;
    line.try_push_str(digits.format(refusal.place)).ok()?;
    put(out, at, line.as_bytes())
}

/// A refusal, shown as `put_refusal` writes it.
#[derive(Clone, Copy)]
pub struct RefusalLine {
    pub refusal: Refusal,
}

impl fmt::Display for RefusalLine {
    ghost output = { λ x. Some (refusal_line x.refusal) };

    fn fmt<W: fmt::Write>(&self, f: &mut fmt::Formatter<W>) -> fmt::Result {
        let number = self.refusal.number;
        let layer = self.refusal.layer.letter();
        let place = self.refusal.place;
        write!(f, "no {number} {layer} {place}")
    }
}
