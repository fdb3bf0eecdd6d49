//! Paths: names parted by slashes.
ghost use Rattle.rows.specs.Paths.{IsPartedInto, rest_of_path, first_name, is_lawful_path, names_in};
ghost use Rattle.std.specs.Prelude.{◌≡◌, ℕ, ◌<◌, List, IfSome, length, option_map, position, ◌==◌};

use memory::is_lawful_name;

/// The most names of a lawful path.
const MOST_NAMES: usize = 16;

/// A path split at its first slash: the bytes before it, or all of them, and the bytes behind it.
#[derive(Clone, Copy, PartialEq, Eq, Hash, Debug)]
pub struct Split<'a> {
    pub first: &'a [u8],
    pub rest: Option<&'a [u8]>,
}

/// The place of the first slash.
fn first_slash(path: &[u8]) -> Option<usize>
    ensures value { result ≡ position (λ b. b == 47) path.now }
    ensures within { IfSome result (λ slash. slash < length path.now) }
{
    path.iter().position(|byte| *byte == b'/')
}

/// Splits a path at its first slash.
pub fn split_first(path: &[u8]) -> Split
    ensures first { result.first.now ≡ first_name path.now }
    ensures rest { option_map (λ rest. rest.now) result.rest ≡ rest_of_path path.now }
{
    match first_slash(path) {
        Some(slash) => Split {
            first: &path[..slash],
            rest: Some(&path[slash + 1..]),
        },
        None => Split {
            first: path,
            rest: None,
        },
    }
}

/// Whether a path has 16 names at most, each lawful.
///
/// It reads nothing behind 16 names or an unlawful one.
#[tactic(auto, using(crate::proofs::PathFacts::parted, crate::proofs::PathFacts::parted_only))]
pub fn is_lawful_path(path: &[u8]) -> bool
    ensures value { result ≡ is_lawful_path path.now }
    ensures words { IsPartedInto path.now (names_in path.now) }
    ensures only { (names : List (List ℕ)) → IsPartedInto path.now names
        → names ≡ names_in path.now }
{
    let mut rest = path;
    'names: for _ in 0..MOST_NAMES {
        let split = split_first(rest);
        if !is_lawful_name(split.first) {
            return false;
        }
        match split.rest {
            Some(later) => rest = later,
            None => return true,
        }
    }
    false
}
