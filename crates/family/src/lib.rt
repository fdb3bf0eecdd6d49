//! Families of commuting functions: modular powers, Dickson polynomials, and any other.
#![tactic(auto)]

mod commuting_family;
mod dickson;
mod error;
mod family_kind;
mod figures;
mod indices;
mod modulus;
mod powers;
mod rights;

pub use commuting_family::CommutingFamily;
pub use dickson::Dickson;
pub use error::FamilyRefusal;
pub use family_kind::FamilyKind;
pub use figures::figures_hold;
pub use powers::Powers;
pub use rights::{has_right, thin_number};
