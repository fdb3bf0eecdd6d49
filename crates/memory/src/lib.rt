//! The memory that a caller brings: records, rows and an area.
//!
//! It says whether memory is sound, and where a new file lies.
#![tactic(auto)]

mod directory_record;
mod each_two;
mod file_record;
mod memory;
mod name;
mod part;
mod placement;
mod row;
mod row_test;
mod soundness;

pub use directory_record::{DirectoryRecord, zero_directory};
pub use file_record::{FileRecord, zero_file};
pub use memory::{Memory, wipe};
pub use name::{Name, are_same_names, is_lawful_name};
pub use placement::place;
pub use row::{Masks, Row, zero_row};
pub use soundness::is_sound;
