//! The actions, each as the words that it prints.
ghost use Rattle.file_lines.specs.Printing.{action_text};
ghost use Rattle.std.specs.Prelude.{Some};

use std::fmt;

/// An action, with the number of its line.
#[derive(Clone, Copy, PartialEq, Eq, Debug)]
pub(crate) enum Action {
    Open,
    File(u64),
    Restrict(u64),
    Read(u64),
    Revoke(u64),
}

impl fmt::Display for Action {
    ghost output = { λ x. Some (action_text x) };

    fn fmt<W: fmt::Write>(&self, f: &mut fmt::Formatter<W>) -> fmt::Result {
        match self {
            Action::Open => write!(f, "open"),
            Action::File(line) => write!(f, "file {line}"),
            Action::Restrict(line) => write!(f, "restrict {line}"),
            Action::Read(line) => write!(f, "read {line}"),
            Action::Revoke(line) => write!(f, "withdraw {line}"),
        }
    }
}
