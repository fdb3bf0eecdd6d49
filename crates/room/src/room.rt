//! The memory that a program's store works in.
ghost use Rattle.room.specs.Rooms.{IsAllZero, IsFullSized, held_in};
ghost use Rattle.std.specs.Prelude.{IfOk};

use memory::{DirectoryRecord, FileRecord, Row, zero_directory, zero_file, zero_row};
use std::alloc::{AllocError, Global};

const FILES: usize = 64;

const DIRECTORIES: usize = 16;

const AREA: usize = 16_384;

/// 64 file records, 16 directory records with their rows, and an area of 16,384 bytes. Its parts
/// are public, to be lent to a store.
#[derive(Drop)]
pub struct Room {
    pub files: Vec<FileRecord>,
    pub directories: Vec<DirectoryRecord>,
    pub rows: Vec<Row>,
    pub area: Vec<u8>,
}

impl Room {
    /// Takes all the memory at once, as zeros. No line of input takes any more.
    pub fn new(alloc: Global) -> Result<Room, AllocError>
        ensures sizes { IfOk result (λ room. IsFullSized (held_in room)) }
        ensures zeros { IfOk result (λ room. IsAllZero (held_in room)) }
    {
        Ok(Room {
            files: vec![in alloc; zero_file(); FILES]?,
            directories: vec![in alloc; zero_directory(); DIRECTORIES]?,
            rows: vec![in alloc; zero_row(); 16 * DIRECTORIES]?,
            area: vec![in alloc; 0u8; AREA]?,
        })
    }
}
