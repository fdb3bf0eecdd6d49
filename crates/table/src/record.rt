//! Records of tables.
ghost use Rattle.std.specs.Prelude.{◌≡◌, Bool, false};

/// A record of a table: live or free.
pub trait Record: Copy {
    /// Whether a record is live.
    ghost is_live: { Self → Bool };

    /// What is left of a record once it is freed.
    ghost blank_of: { Self → Self };

    /// Whether the record is live: a table claims only places whose record is not.
    fn live(&self) -> bool
        ensures { result ≡ is_live self.now };

    /// What is left of the record once it is freed.
    fn blank(&self) -> Self
        ensures { result ≡ blank_of self.now };

    ghost blank_is_free: { (x : Self) → is_live (blank_of x) ≡ false };
}
