//! The store: files that never change, and directories. Its caller brings the memory that holds
//! them to each request.
//!
//! Each request takes memory, the capability presented, a secret and a scratch as parameters of
//! their own. Memory and scratch are lent, the others given.
#![tactic(auto)]

mod create_directory;
mod create_file;
mod destroy;
mod enter;
mod error;
mod grant;
mod look_up;
mod open;
mod order;
mod places;
mod read;
mod remove;
mod request;
mod revoke;
mod row;
mod rule;
mod serve;
mod store;

pub use admission::Gate;
pub use error::StoreRefusal;
pub use open::Opened;
pub use request::{Answer, Query, Request, Update};
pub use store::Store;
