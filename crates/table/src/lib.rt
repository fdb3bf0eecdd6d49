//! Tables of records over lent slices: they find live records, claim free places, and free places.
#![tactic(auto)]

mod lent;
mod record;
mod table;

pub use lent::Lent;
pub use record::Record;
pub use table::Table;
