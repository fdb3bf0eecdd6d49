//! Bytes written into a lent slice, all of them or none.
ghost use Rattle.text.specs.Put.{buffer_after, end_of};
ghost use Rattle.std.specs.Prelude.{◌≡◌};

/// Writes `bytes` into `out` from `at` on, and returns the place behind them. Where there is no
/// room, returns None and leaves `out` as it is.
///
/// The writers hand the place on by value. A cursor over a lent slice would have to say in each
/// contract that the loan is the same.
pub fn put(out: &mut [u8], at: usize, bytes: &[u8]) -> Option<usize>
    ensures end { result ≡ end_of out.old at bytes.now }
    ensures buffer { out.new ≡ buffer_after out.old at bytes.now }
{
    let end = at.checked_add(bytes.len()).filter(|end| *end <= out.len())?;
    out[at..end].copy_from_slice(bytes);
    Some(end)
}
