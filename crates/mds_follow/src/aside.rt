//! Where bytes go that are cut off the end of a journal.
ghost use Rattle.std.specs.Prelude.{OnOk, IfErr};
ghost use Rattle.mds_follow.specs.End.{IsPutAside};
ghost use Rattle.mds_follow.specs.Reading.{IsNoJournalFault};

use crate::StartFault;
use mds_journal::DeviceError;

/// A place for bytes that are cut off a journal, so that they can be looked at later.
pub trait Aside {
    ghost use Rattle.std.specs.Prelude.{ℕ, List, OnOk};

    /// These bytes stand there, and each crash from now on leaves them.
    ghost stand: { Self → List ℕ → Type 0 };

    /// Puts bytes there. Nothing that stood there is lost.
    ///
    /// # Errors
    ///
    /// `Failed` where they can't be put there, or something stands there; `Memory`.
    fn put(&mut self, bytes: &[u8]) -> Result<(), DeviceError>
        ensures { OnOk result (stand self.new bytes.now) };
}

/// Puts bytes aside, if there are any.
///
/// # Errors
///
/// `Device` where they can't be put there; `Memory`.
pub(crate) fn put_aside<A: Aside>(aside: &mut A, bytes: &[u8]) -> Result<(), StartFault>
    ensures stand { OnOk result (IsPutAside (A.stand aside.new) bytes.now) }
    ensures fault { IfErr result IsNoJournalFault }
{
    if bytes.is_empty() {
        return Ok(());
    }
    match aside.put(bytes) {
        Ok(()) => Ok(()),
        Err(error) => Err(StartFault::from(error)),
    }
}
