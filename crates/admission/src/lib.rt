//! Whether a presented capability is admitted: port, object, check, kind and right.
#![tactic(auto)]

mod error;
mod gate;
mod need;
mod target;

pub use error::Denial;
pub use gate::Gate;
pub use need::{Kinds, Need};
pub use target::{Target, locate};
