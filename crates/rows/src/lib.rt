//! The counted rows of a directory: their search, their changes, and what their masks let see.
//!
//! It also has the paths that lead through directories.
#![tactic(auto)]

mod path;
mod row_changes;
mod row_search;
mod seen_mask;

pub use path::{Split, is_lawful_path, split_first};
pub use row_changes::{close_gap, put_last, row_of};
pub use row_search::{last_for, search};
pub use seen_mask::seen;
