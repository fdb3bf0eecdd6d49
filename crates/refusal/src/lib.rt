//! Refusals as plain values: a number, the layer that refused, and a place.
#![tactic(auto)]

ghost use Rattle.refusal.specs.Letters.{layer_letter};
ghost use Rattle.refusal.specs.declared.Refusal.{Refusal};
ghost use Rattle.std.specs.Prelude.{◌≡◌};

/// The part of the product that refused.
#[derive(Clone, Copy, PartialEq, Eq, Hash, Debug)]
pub enum Layer {
    /// A family of commuting functions.
    Family,
    /// The holders' part.
    Holder,
    /// The store.
    Store,
    /// A line of a script.
    Line,
}

impl Layer {
    /// The letter of the layer in a refusal line.
    pub fn letter(self) -> char
        ensures { result ≡ layer_letter self }
    {
        match self {
            Layer::Family => 'F',
            Layer::Holder => 'H',
            Layer::Store => 'S',
            Layer::Line => 'L',
        }
    }
}

/// A refusal as a plain value. The refusal enum of each layer converts into it, by `From`.
///
/// Each layer gives its own cases the number and the place of the printed line.
#[derive(Clone, Copy, PartialEq, Eq, Hash, Debug)]
pub struct Refusal {
    pub number: u8,
    pub layer: Layer,
    pub place: u8,
}
