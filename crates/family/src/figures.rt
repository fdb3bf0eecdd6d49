//! Worked figures that anyone can check by hand, proved of the two families.
ghost use Rattle.family.specs.Figures.{EachHolds, figures};

/// Each figure of the list holds.
pub fn figures_hold()
    ensures { EachHolds figures }
{}
