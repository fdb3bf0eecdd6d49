//! restrict: gives up rights of a capability, on a laptop, with no connection.
#![tactic(auto)]

use restrict_command::{Failure, Words, restrict_words};
use std::env;
use std::process::ExitCode;
use text::RefusalLine;

const USAGE: &str = "usage: restrict LETTER MODULUS CAPABILITY MASK

Gives up every right of CAPABILITY whose bit in MASK is 0, with no connection, and prints
what was given, which rights were dropped, and the capability that is left.

  LETTER      the family: P, modular powers, or D, Dickson polynomials
  MODULUS     the family's modulus, a decimal from 3 to 2147483647
  CAPABILITY  32 hexadecimal digits in small letters: port 12, object 6, rights 2, check 12
  MASK        2 hexadecimal digits in small letters: bit k is 1 where right k is kept

A refusal prints its line, 'no NUMBER LAYER PLACE', and ends with status 1:
  no 4 F 0    MODULUS is not from 3 to 2147483647
  no 9 H 0    the check of CAPABILITY is not below MODULUS
";

/// Takes the four words through, and prints the report, the refusal or the misuse.
fn run(rt: &HostRuntime, words: Words) -> anyhow::Result<ExitCode> {
    match restrict_words(words) {
        Ok(report) => {
            rt.print(report)?;
            Ok(ExitCode::SUCCESS)
        }
        Err(Failure::Refused(refusal)) => {
            rt.println(RefusalLine { refusal })?;
            Ok(ExitCode::FAILURE)
        }
        Err(Failure::Misused(misuse)) => {
            eprint!(rt; "restrict: {misuse}\n\n{USAGE}")?;
            Ok(ExitCode::FAILURE)
        }
    }
}

fn main(rt: HostRuntime) -> anyhow::Result<ExitCode> {
    let words: Vec<String> = env::args(&rt)?.collect(rt.alloc())?;
    match words.as_slice() {
        [_, help] if help.as_str() == "--help" => {
            rt.print(USAGE)?;
            Ok(ExitCode::SUCCESS)
        }
        [_, letter, modulus, capability, mask] => {
            run(
                &rt,
                Words {
                    letter: letter.as_bytes(),
                    modulus: modulus.as_bytes(),
                    capability: capability.as_bytes(),
                    mask: mask.as_bytes(),
                },
            )
        }
        _ => {
            eprint!(rt; "{USAGE}")?;
            Ok(ExitCode::FAILURE)
        }
    }
}
