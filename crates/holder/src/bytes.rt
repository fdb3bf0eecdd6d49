//! Numbers as bytes, high byte first.
ghost use Rattle.std.specs.Prelude.{◌≡◌, ◌*◌, ◌^◌, ◌<◌, ◌≤◌, MatchOption};
ghost use Rattle.holder.specs.Bytes.{number, bytes_of};

/// The number that so many bytes stand for.
pub(crate) fn number_of<const N: usize>(bytes: &[u8; N]) -> u64
    requires { N ≤ 7 }
    ensures value { result ≡ number bytes.now }
    ensures narrow { result < 2 ^ (8 * N) }
{
    let mut n = 0;
    for b in bytes {
        n = n * 256 + u64::from(*b);
    }
    n
}

/// A number in so many bytes, if it fits them.
pub(crate) fn bytes_of<const N: usize>(n: u64) -> Option<[u8; N]>
    requires { N ≤ 7 }
    ensures { MatchOption result (2 ^ (8 * N) ≤ n)
        (λ bytes. (n < 2 ^ (8 * N)) × (bytes ≡ bytes_of N n)) }
{
    if n >> (8 * N) != 0 {
        return None;
    }
    n.to_be_bytes().last_chunk::<N>().copied()
}
