//! A cursor that takes each word of a line once, from the left.
ghost use Rattle.std.specs.Prelude.{◌≡◌, ◌+◌, ◌<◌, ◌≤◌, ◌==◌, Ok, length};
ghost use Rattle.std.specs.List.{position_or_len};
ghost use Rattle.lines.specs.Cursor.{IsCursor};
ghost use Rattle.lines.specs.Steps.{read_as};
ghost use Rattle.refusal.specs.Chains.{unless};
ghost use Rattle.lines.specs.Forms.{a_family, a_mask, a_number, a_pocket, a_port, a_text};
ghost use Rattle.lines.specs.Lines.{word_at, words_in};
ghost use Rattle.lines.specs.Reading.{ends_at, misread_at, value_at};
ghost use Rattle.lines.specs.Words.{numbered_word};

use crate::error::Misread;
use crate::pocket::{Pocket, read_pocket};
use crate::word::{Word, read_byte, read_letter, read_text};
use family::FamilyKind;
use text::{read_decimal, read_hex};

/// A line, the place where its next word starts, and that word's number.
#[derive(Drop)]
pub(crate) struct Words<'l> {
    line: &'l [u8],
    start: usize,
    number: u8,
    ghost stands: { IsCursor line.now start number },
}

/// The length of the first word.
fn first_length(line: &[u8]) -> usize
    ensures length { result ≡ position_or_len (λ byte. byte == 32) line.now }
    ensures within { result ≤ length line.now }
{
    line.iter()
        .position(|byte| *byte == b' ')
        .unwrap_or(line.len())
}

impl<'l> Words<'l> {
    /// Before the first word.
    pub(crate) fn of(line: &'l [u8]) -> Words<'l>
        ensures line { result.line.now ≡ line.now }
        ensures number { result.number ≡ 1 }
    {
        Words {
            line,
            start: 0,
            number: 1,
        }
    }

    /// Takes the next word; it has no bytes where there is none.
    pub(crate) fn take(&mut self) -> Word<'l>
        requires few { self.old.number < 255 }
        ensures bytes { result.bytes.now ≡ word_at (words_in self.old.line.now) self.old.number }
        ensures number { result.number ≡ self.old.number }
        ensures line { self.new.line.now ≡ self.old.line.now }
        ensures behind { self.new.number ≡ self.old.number + 1 }
    {
        let rest = &self.line[self.start..];
        let length = first_length(rest);
        let word = Word {
            bytes: &rest[..length],
            number: self.number,
        };
        *self = Words {
            line: self.line,
            start: (self.start + length + 1).min(self.line.len()),
            number: self.number + 1,
        };
        word
    }

    /// The letter of a family.
    pub(crate) fn family(&mut self) -> Result<FamilyKind, Misread>
        requires few { self.old.number < 255 }
        ensures value { result ≡ value_at a_family self.old.number (words_in self.old.line.now) }
        ensures line { self.new.line.now ≡ self.old.line.now }
        ensures behind { self.new.number ≡ self.old.number + 1 }
    {
        let word = self.take();
        read_letter(word)
            .and_then(FamilyKind::with_letter)
            .ok_or(Misread { place: word.number })
    }

    /// A decimal.
    pub(crate) fn decimal(&mut self) -> Result<u64, Misread>
        requires few { self.old.number < 255 }
        ensures value { result ≡ value_at a_number self.old.number (words_in self.old.line.now) }
        ensures line { self.new.line.now ≡ self.old.line.now }
        ensures behind { self.new.number ≡ self.old.number + 1 }
    {
        let word = self.take();
        read_decimal(word.bytes).ok_or(Misread { place: word.number })
    }

    /// A port, in twelve hexadecimal digits.
    pub(crate) fn port(&mut self) -> Result<[u8; 6], Misread>
        requires few { self.old.number < 255 }
        ensures value { result ≡ value_at a_port self.old.number (words_in self.old.line.now) }
        ensures line { self.new.line.now ≡ self.old.line.now }
        ensures behind { self.new.number ≡ self.old.number + 1 }
    {
        let word = self.take();
        read_hex::<6>(word.bytes).ok_or(Misread { place: word.number })
    }

    /// A pocket.
    pub(crate) fn pocket(&mut self) -> Result<Pocket, Misread>
        requires few { self.old.number < 255 }
        ensures value { result ≡ value_at a_pocket self.old.number (words_in self.old.line.now) }
        ensures line { self.new.line.now ≡ self.old.line.now }
        ensures behind { self.new.number ≡ self.old.number + 1 }
    {
        let word = self.take();
        read_pocket(word).ok_or(Misread { place: word.number })
    }

    /// Any word.
    pub(crate) fn text(&mut self) -> Result<Word<'l>, Misread>
        requires few { self.old.number < 255 }
        ensures value { read_as numbered_word result
            ≡ value_at a_text self.old.number (words_in self.old.line.now) }
        ensures line { self.new.line.now ≡ self.old.line.now }
        ensures behind { self.new.number ≡ self.old.number + 1 }
    {
        let word = self.take();
        read_text(word).ok_or(Misread { place: word.number })
    }

    /// A mask, in two hexadecimal digits.
    pub(crate) fn mask(&mut self) -> Result<u8, Misread>
        requires few { self.old.number < 255 }
        ensures value { result ≡ value_at a_mask self.old.number (words_in self.old.line.now) }
        ensures line { self.new.line.now ≡ self.old.line.now }
        ensures behind { self.new.number ≡ self.old.number + 1 }
    {
        let word = self.take();
        read_byte(word).ok_or(Misread { place: word.number })
    }

    /// The end of the line: no word is left.
    pub(crate) fn end(mut self) -> Result<(), Misread>
        requires few { self.number < 255 }
        ensures end { result ≡ unless (ends_at self.entry.number (words_in self.entry.line.now))
            (misread_at self.entry.number) (Ok tt) }
    {
        let word = self.take();
        if word.bytes.is_empty() {
            Ok(())
        } else {
            Err(Misread { place: word.number })
        }
    }
}
