//! The words of the command line, read.
ghost use Rattle.file_lines.specs.Numbers.{numbers_in};
ghost use Rattle.std.specs.Prelude.{◌≡◌};

use text::read_decimal;

/// The modulus of the store's powers, and the number of its own secret.
#[derive(Clone, Copy, PartialEq, Eq)]
pub(crate) struct Numbers {
    pub(crate) modulus: u64,
    pub(crate) secret: u64,
}

/// MODULUS and SECRET, if these are the words behind the name of the program.
pub(crate) fn read_numbers(words: &[String]) -> Option<Numbers>
    ensures { result ≡ numbers_in words.now }
{
    let [_, modulus, secret] = words else {
        return None;
    };
    let modulus = read_decimal(modulus.as_bytes())?;
    let secret = read_decimal(secret.as_bytes())?;
    Some(Numbers { modulus, secret })
}
