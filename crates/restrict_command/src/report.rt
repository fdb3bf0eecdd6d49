//! The report on a restriction, as the command prints it.
ghost use Rattle.restrict_command.specs.Report.{report_text, rights_text};
ghost use Rattle.std.specs.Prelude.{Some};

use family::has_right;
use holder::Capability;
use std::fmt;
use text::Hex;

/// The rights in a set, by number.
#[derive(Clone, Copy, PartialEq, Eq, Debug)]
pub struct Listed {
    pub set: u8,
}

impl fmt::Display for Listed {
    ghost output = { λ x. Some (rights_text x.set) };

    fn fmt<W: fmt::Write>(&self, f: &mut fmt::Formatter<W>) -> fmt::Result {
        if self.set == 0 {
            return f.write_str(" none");
        }
        for k in 0..8u64 {
            if has_right(self.set, k) {
                write!(f, " {k}")?;
            }
        }
        Ok(())
    }
}

/// A capability, and the one that is left of it.
#[derive(Clone, Copy, PartialEq, Eq, Debug)]
pub struct Report {
    pub whole: Capability,
    pub rest: Capability,
}

impl fmt::Display for Report {
    ghost output = { λ x. Some (report_text x.whole x.rest) };

    fn fmt<W: fmt::Write>(&self, f: &mut fmt::Formatter<W>) -> fmt::Result {
        let port = Hex {
            bytes: &self.whole.port.bytes,
        };
        let object = self.whole.object.number();
        let held = self.whole.rights.bits;
        let rights = Listed { set: held };
        let dropped = Listed {
            set: held & !self.rest.rights.bits,
        };
        let rest = <[u8; 16]>::from(self.rest);
        let rest = Hex { bytes: &rest };
        write!(
            f,
            "port {port}\nobject {object}\nrights{rights}\ndropped{dropped}\n{rest}\n"
        )
    }
}
