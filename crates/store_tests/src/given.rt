//! The capabilities that a store gave in the course of a test.
use crate::act::{Found, Number};
use crate::room::old_row;
use holder::Capability;
use store::StoreRefusal;

/// The capabilities given so far; one of another store fills the places behind them.
#[derive(Drop)]
pub struct Given {
    pub all: [Capability; 16],
    pub count: usize,
}

impl Given {
    /// Keeps a capability if there is one, and returns the number of its object.
    pub fn keep(&mut self, given: Result<Capability, StoreRefusal>) -> Number {
        let capability = given?;
        if let Some(place) = self.all.get_mut(self.count) {
            *place = capability;
        }
        self.count = self.count.wrapping_add(1);
        Ok(capability.object.number())
    }

    pub fn at(&self, n: usize) -> Capability {
        match self.all.get(n) {
            Some(capability) => *capability,
            None => old_row().capability,
        }
    }

    pub fn is(&self, found: Result<Capability, StoreRefusal>, wanted: Found) -> bool {
        match wanted {
            Ok(n) => found == Ok(self.at(n)),
            Err(refusal) => found == Err(refusal),
        }
    }
}
