//! Lines of input, in memory that does not grow.
ghost use Rattle.console.specs.Lines.{line_front};
ghost use Rattle.console.specs.Reading.{ReadsOn, line_bytes};
ghost use Rattle.text.specs.Lines.{behind, is_any, line_in};
ghost use Rattle.std.specs.Prelude.{◌≡◌, ◌≤◌, ◌++◌, [], Some, IfOk, IfSome, OnOk, length};

use arrayvec::ArrayVec;
use std::io::{self, BufRead, ErrorKind};

/// A byte more than a lawful line has.
const MOST_KEPT: usize = 256;

/// The first 256 bytes of a line. A script refuses a longer one, whatever follows.
#[derive(Drop)]
pub struct Line {
    bytes: ArrayVec<u8, MOST_KEPT>,
}

/// How many bytes stand before the first line feed, or how many there are where there is none.
fn length_of_line(bytes: &[u8]) -> usize
    ensures length { result ≡ length (line_in bytes.now) }
    ensures within { result ≤ length bytes.now }
{
    for (i, byte) in bytes.iter().enumerate() {
        if *byte == b'\n' {
            return i;
        }
    }
    bytes.len()
}

impl Line {
    /// A line of no bytes.
    pub(crate) fn new() -> Line
        ensures { line_bytes result ≡ [] }
    {
        Line {
            bytes: ArrayVec::new(),
        }
    }

    /// The bytes of the line, 256 at most.
    pub(crate) fn bytes(&self) -> &[u8]
        ensures bytes { result.now ≡ line_bytes self.now }
        ensures fits { length result.now ≤ 256 }
    {
        self.bytes.as_slice()
    }

    /// Adds bytes, as many as there is room for.
    fn add(&mut self, bytes: &[u8])
        ensures { line_bytes self.new ≡ line_front (line_bytes self.old ++ bytes.now) }
    {
        let room = MOST_KEPT - self.bytes.len();
        let taken = room.min(bytes.len());
        self.bytes.try_extend_from_slice(&bytes[..taken]).unwrap();
    }

    /// Reads on in a line, as far as its bytes are at hand. At its end, returns whether there is a
    /// line.
    fn read_on<R: BufRead>(&mut self, input: &mut R) -> io::Result<Option<bool>>
        ensures { IfOk result (λ end.
            ReadsOn (R.remaining input.old) (R.remaining input.new) end
            (line_bytes self.old) (line_bytes self.new)) }
    {
        let ahead = input.fill_buf()?;
        if ahead.is_empty() {
            return Ok(Some(!self.bytes().is_empty()));
        }
        let length = length_of_line(ahead);
        self.add(&ahead[..length]);
        if length == ahead.len() {
            input.consume(length);
            return Ok(None);
        }
        input.consume(length + 1);
        Ok(Some(true))
    }

    /// Reads the next line, without its line feed; false where there is none. A last line needs no
    /// line feed.
    pub(crate) fn read<R: BufRead>(&mut self, input: &mut R) -> io::Result<bool>
        ensures any { IfOk result (λ any. IfSome (R.remaining input.old) (λ xs. any ≡ is_any xs)) }
        ensures line { OnOk result
            (IfSome (R.remaining input.old) (λ xs. line_bytes self.new ≡ line_front (line_in xs))) }
        ensures rest { OnOk result
            (IfSome (R.remaining input.old) (λ xs. R.remaining input.new ≡ Some (behind xs))) }
    {
        self.bytes.clear();
        for _ in 0..u64::MAX {
            if let Some(any) = self.read_on(input)? {
                return Ok(any);
            }
        }
        Err(ErrorKind::TimedOut.into())
    }
}
