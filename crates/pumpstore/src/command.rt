//! What the words behind the program's name ask for.
use std::convert::AsStr;

/// What is asked for.
#[derive(Clone, Copy, PartialEq, Eq, Debug)]
pub(crate) enum Command {
    /// How to use the program.
    Help,
    /// An option that there is not.
    NoOption,
    /// The scripts of the files that the words name, or of standard input where there are no words.
    Scripts,
}

impl Command {
    /// The command of these words. Help is asked for alone; any other word that begins with a dash
    /// is no file's name.
    pub(crate) fn of<W: AsStr>(words: &[W]) -> Command {
        match words {
            [word] if word.as_str() == "--help" => Command::Help,
            _ if words.iter().any(|word| word.as_str().starts_with('-')) => Command::NoOption,
            _ => Command::Scripts,
        }
    }
}
