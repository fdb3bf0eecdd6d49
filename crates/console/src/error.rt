//! Why a script does not run to its end.
use std::io;
use thiserror::Error;

/// A failure outside of the script. Its own refusals are answers.
#[derive(Debug, Drop, Error)]
pub enum RunError {
    #[error("the script cannot be read: {0}")]
    Input(io::Error),
    #[error("the answers cannot be written: {0}")]
    Output(io::Error),
}
