//! The memory of a program's store: taken once, of zeros, to be lent to a store.
#![tactic(auto)]

mod room;

pub use room::Room;
