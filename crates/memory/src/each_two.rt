//! A test of each two elements of a slice.
ghost use Rattle.memory.specs.EachTwo.{pairwise};
ghost use Rattle.std.specs.Fn.{FnReturnsAtPair};
ghost use Rattle.std.specs.Prelude.{◌≡◌, Bool};

/// Whether each two elements agree, the earlier one first, by a test that computes some `p`.
pub(crate) fn holds_of_each_two<T, F: Fn(&T, &T) -> bool>(items: &[T], agree: F) -> bool
    requires { F.IsAlwaysCallable agree }
    ensures { (p : T → T → Bool)
        → ((x y : T) (r : Bool) → FnReturnsAtPair F.Fn agree x y r → r ≡ p x y)
        → result ≡ pairwise p items.now }
{
    let mut rest = items;
    while let Some((item, later)) = rest.split_first() {
        if !later.iter().all(|other| agree(item, other)) {
            return false;
        }
        rest = later;
    }
    true
}
