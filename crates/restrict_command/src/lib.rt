//! The command `restrict`: its four words read, the restriction carried out, and the text to print.
#![tactic(auto)]

mod command;
mod error;
mod report;
mod restriction;
#[cfg(test)]
mod tests;
mod words;

pub use command::{carry_out, restrict_words};
pub use error::{Failure, Misuse};
pub use report::{Listed, Report};
pub use restriction::Restriction;
pub use words::Words;
