//! The holders' part: capabilities as sixteen bytes, and how a holder gives rights up alone.
#![tactic(auto)]

mod bytes;
mod capability;
mod check;
mod error;
mod layout;
mod object;

pub use capability::{Capability, Mask, Port, Rights};
pub use check::Check;
pub use error::HolderRefusal;
pub use object::Object;
