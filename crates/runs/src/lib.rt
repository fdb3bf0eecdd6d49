//! The law of runs, on the call that opens a store.
#![tactic(auto)]

mod opening;

pub use admission::Gate;
pub use opening::open;
