//! The replies to actions, as they are printed.
ghost use Rattle.file_lines.specs.Printing.{answer_text, reply_text, restriction_text};
ghost use Rattle.std.specs.Io.KnownBytes.{Appends};
ghost use Rattle.std.specs.Prelude.{◌≡◌, OnOk};
ghost use Rattle.store.specs.Outcomes.{told_as};
ghost use Rattle.store.specs.Read.{shown_bytes};
ghost use Rattle.store.specs.Requests.{granted, the_bytes};

use holder::{Capability, HolderRefusal};
use refusal::Refusal;
use std::io::{self, Write};
use store::StoreRefusal;
use text::{Hex, RefusalLine};

/// The reply to an action.
#[derive(Clone, Copy)]
pub(crate) enum Reply<'a> {
    Given(Capability),
    Bytes(&'a [u8]),
    Refused(Refusal),
}

impl<'a> Reply<'a> {
    /// The reply where the store grants a capability.
    pub(crate) fn to_granting(came: Result<Capability, StoreRefusal>) -> Reply<'static>
        ensures { reply_text result ≡ answer_text (told_as granted came) }
    {
        match came {
            Ok(capability) => Reply::Given(capability),
            Err(refusal) => Reply::Refused(refusal.into()),
        }
    }

    /// The reply where a holder restricts a capability.
    pub(crate) fn to_restricting(came: Result<Capability, HolderRefusal>) -> Reply<'static>
        ensures { reply_text result ≡ restriction_text came }
    {
        match came {
            Ok(capability) => Reply::Given(capability),
            Err(refusal) => Reply::Refused(refusal.into()),
        }
    }

    /// The reply where the store reads a run.
    pub(crate) fn to_reading(came: Result<&'a [u8], StoreRefusal>) -> Reply<'a>
        ensures { reply_text result ≡ answer_text (told_as the_bytes (shown_bytes came.entry)) }
    {
        match came {
            Ok(bytes) => Reply::Bytes(bytes),
            Err(refusal) => Reply::Refused(refusal.into()),
        }
    }
}

/// Prints a capability in hexadecimal, bytes as they are, or the line of a refusal.
pub(crate) fn print_reply<W: Write>(output: &mut W, reply: Reply) -> io::Result<()>
    ensures { OnOk result
        (Appends (W.contents output.old) (W.contents output.new) (reply_text reply.entry)) }
{
    match reply {
        Reply::Given(capability) => {
            let bytes = <[u8; 16]>::from(capability);
            write!(output, "{}", Hex { bytes: &bytes })
        }
        Reply::Bytes(bytes) => output.write_all(bytes),
        Reply::Refused(refusal) => write!(output, "{}", RefusalLine { refusal }),
    }
}
