//! Scripts: the pockets of eight holders, and each line carried out through to its answer.
#![tactic(auto)]

mod deed;
mod opening;
mod pockets;
mod script;
mod session;
mod showing;
mod stage;

pub use script::Script;
