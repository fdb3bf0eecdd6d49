//! Secrets of objects: their owner capabilities, the checks that they accept, and their fitness.
#![tactic(auto)]

mod fitness;
mod scratch;
mod secret;
mod thinned_numbers;

pub use fitness::{SETS, is_fit};
pub use scratch::Scratch;
pub use secret::Secret;
