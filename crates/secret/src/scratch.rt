//! Borrowed working memory that is left all zeros.
ghost use Rattle.std.specs.Prelude.{◌≡◌, length, replicate};

/// Numbers lent for a while. They are zero on every way out, so no secret stays in them.
pub struct Scratch<'a> {
    pub numbers: &'a mut [u64],
}

impl Drop for Scratch<'_> {
    fn drop(self)
        ensures { self.exit.0.now ≡ replicate (length self.entry.numbers.now) 0 }
    {
        self.numbers.fill(0);
        let Scratch { numbers: _ } = self;
    }
}
