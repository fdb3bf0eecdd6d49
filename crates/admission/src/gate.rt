//! The gate that every request passes.
ghost use Rattle.admission.specs.Admission.{admitted_target, authentic_target, authorized_target};
ghost use Rattle.memory.specs.Held.{content};
ghost use Rattle.std.specs.Prelude.{◌≡◌};

use crate::error::Denial;
use crate::need::{Need, has_one};
use crate::target::{Target, locate};
use family::CommutingFamily;
use holder::{Capability, Port, Rights};
use memory::Memory;
use secret::Secret;

/// The family, the port and the own secret of a store, against which it tests capabilities.
#[derive(Clone, Copy)]
pub struct Gate<F> {
    pub family: F,
    pub port: Port,
    pub secret: Secret,
}

/// The object, if it is of a kind that the need allows, and the rights hold one that it wants.
fn authorize(need: Need, target: Target, rights: Rights) -> Result<Target, Denial>
    ensures { result ≡ authorized_target need target rights.bits }
{
    if !need.kinds.fit(target) {
        return Err(Denial::WrongKind);
    }
    if !has_one(rights.bits, need.rights) {
        return Err(Denial::RightMissing);
    }
    Ok(target)
}

impl<F: CommutingFamily> Gate<F> {
    /// The live object of a capability of this port whose check its secret accepts now.
    pub fn authenticate(&self, memory: &Memory, capability: Capability) -> Result<Target, Denial>
        ensures { result
            ≡ authentic_target (F.meaning self.now.family) self.now.port.bytes self.now.secret
            (content memory.now) capability }
    {
        if capability.port != self.port {
            return Err(Denial::WrongPort);
        }
        let target = locate(memory, capability.object).ok_or(Denial::NoSuchObject)?;
        if !target
            .secret(self.secret)
            .accepts(&self.family, capability.rights, capability.check)
        {
            return Err(Denial::WrongCheck);
        }
        Ok(target)
    }

    /// The object of a capability that meets the need of a request.
    pub fn admit(
        &self,
        memory: &Memory,
        need: Need,
        capability: Capability,
    ) -> Result<Target, Denial>
        ensures { result
            ≡ admitted_target (F.meaning self.now.family) self.now.port.bytes self.now.secret
            (content memory.now) need capability }
    {
        let target = self.authenticate(memory, capability)?;
        authorize(need, target, capability.rights)
    }
}
