//! Words of a command line or a script, read and written: hexadecimal, decimals, refusal lines.
#![tactic(auto)]

mod bytes;
mod decimal;
mod hexadecimal;
mod refusal_line;

pub use bytes::put;
pub use decimal::{put_decimal, read_decimal};
pub use hexadecimal::{Hex, put_hex, read_hex};
pub use refusal_line::{RefusalLine, put_refusal};
