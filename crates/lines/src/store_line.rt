//! The line that opens a store.
ghost use Rattle.std.specs.Prelude.{◌≡◌, IfErr, IfOk};
ghost use Rattle.lines.specs.Faults.{IsFirstFault, forms_of_store};
ghost use Rattle.lines.specs.Lines.{line_of, words_in};
ghost use Rattle.lines.specs.Reading.{store_from, store_in};
ghost use Rattle.lines.specs.Spelled.{store_words};
ghost use Rattle.lines.specs.Steps.{read_as, store_values};

use crate::error::Misread;
use crate::line::is_well_formed;
use crate::words::Words;
use family::FamilyKind;

/// The first line of a script, `store L N P S`: it asks for a store with this port and this secret,
/// over a family of this modulus.
#[derive(Clone, Copy)]
pub struct StoreLine {
    pub family: FamilyKind,
    pub modulus: u64,
    pub port: [u8; 6],
    pub secret: u64,
}

/// The words behind `store`.
fn read_behind(mut words: Words) -> Result<StoreLine, Misread>
    requires { words.number ≡ 2 }
    ensures { read_as store_values result ≡ store_from (words_in words.entry.line.now) }
{
    let family = words.family()?;
    let modulus = words.decimal()?;
    let port = words.port()?;
    let secret = words.decimal()?;
    words.end()?;
    Ok(StoreLine {
        family,
        modulus,
        port,
        secret,
    })
}

/// The value that `read_store_line` gives, from which its other clauses follow.
fn read_whole(line: &[u8]) -> Result<StoreLine, Misread>
    ensures { read_as store_values result ≡ store_in line.now }
{
    if !is_well_formed(line) {
        return Err(Misread { place: 0 });
    }
    let mut words = Words::of(line);
    if words.take().bytes != b"store".as_slice() {
        return Err(Misread { place: 1 });
    }
    read_behind(words)
}

/// Reads the line that opens a store, or tells its first fault.
pub fn read_store_line(line: &[u8]) -> Result<StoreLine, Misread>
    ensures value { read_as store_values result ≡ store_in line.now }
    ensures spelled { IfOk result (λ store. line_of (store_words (store_values store)) ≡ line.now) }
    ensures first { IfErr result (λ fault. IsFirstFault forms_of_store line.now fault.place) }
{
    read_whole(line)
}
