//! Scripts run from a reader to a writer: lines in, answer lines out.
#![tactic(auto)]

mod error;
mod line;
mod running;
#[cfg(test)]
mod tests;

pub use error::RunError;
pub use running::run;
