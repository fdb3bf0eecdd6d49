//! The form of a line as a whole.
ghost use Rattle.std.specs.Prelude.{◌≡◌};
ghost use Rattle.lines.specs.Lines.{has_no_empty, is_printable, is_well_formed, words_in};

/// The most bytes of a line, its line feed not counted.
const MOST_BYTES: usize = 255;

/// Whether each byte is printable, and none a line feed.
fn is_printable(line: &[u8]) -> bool
    ensures { result ≡ is_printable line.now }
{
    // A branch at each byte would be slower.
    let mut printable = true;
    for byte in line {
        printable &= (b' '..=b'~').contains(byte);
    }
    printable
}

/// Whether no space is the first byte or the last, or stands beside another one.
fn has_single_spaces(line: &[u8]) -> bool
    ensures { result ≡ has_no_empty (words_in line.now) }
{
    line.is_empty()
        || line
            .split(|byte| *byte == b' ')
            .all(|word| !word.is_empty())
}

/// Whether a line has 255 bytes at most, each printable, and single spaces between its words.
pub(crate) fn is_well_formed(line: &[u8]) -> bool
    ensures { result ≡ is_well_formed line.now }
{
    line.len() <= MOST_BYTES && is_printable(line) && has_single_spaces(line)
}
