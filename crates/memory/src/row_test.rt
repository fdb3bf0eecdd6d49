//! The test of soundness of rows.
ghost use Rattle.std.specs.Prelude.{◌≡◌};
ghost use Rattle.memory.specs.Soundness.{are_directories_sound, is_directory_sound, is_row_sound, are_rows_sound};

use crate::directory_record::DirectoryRecord;
use crate::each_two::holds_of_each_two;
use crate::name::{are_same_names, is_lawful_name};
use crate::row::Row;
use holder::Port;

/// The modulus that bounds the checks of sound rows, and their port.
#[derive(Clone, Copy)]
pub(crate) struct RowTest {
    pub modulus: u64,
    pub port: Port,
}

impl RowTest {
    /// Whether a row has a lawful name, this port and a check below the modulus.
    fn row(self, row: &Row) -> bool
        ensures { result ≡ is_row_sound self.modulus self.port.bytes row.now }
    {
        is_lawful_name(row.name())
            && row.length <= 24
            && row.capability.port == self.port
            && row.capability.check.number() < self.modulus
    }

    /// Whether the rows of one directory are sound.
    fn rows(self, rows: &[Row]) -> bool
        ensures { result ≡ are_rows_sound self.modulus self.port.bytes rows.now }
    {
        rows.iter().all(|row| self.row(row))
            && holds_of_each_two(rows, |row, later| !are_same_names(row.name(), later.name()))
    }

    /// Whether a directory is free, or its counted rows are sound; its rows come first.
    fn directory(self, directory: &DirectoryRecord, rows: &[Row]) -> bool
        ensures { result ≡ is_directory_sound self.modulus self.port.bytes directory.now rows.now }
    {
        !directory.live || self.rows(rows.get(..directory.count as usize).unwrap_or(rows))
    }

    /// Whether the counted rows of each live directory are sound.
    pub fn directories(self, directories: &[DirectoryRecord], rows: &[Row]) -> bool
        ensures { result ≡ are_directories_sound self.modulus self.port.bytes directories.now
            rows.now }
    {
        // The rest and not a chunk of 16, as a count above 16 goes on into the rows behind.
        let mut rest = rows;
        for directory in directories {
            if !self.directory(directory, rest) {
                return false;
            }
            rest = rest.get(16..).unwrap_or_default();
        }
        true
    }
}
