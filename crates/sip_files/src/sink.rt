//! Where bytes are written.

ghost use Rattle.std.specs.Prelude.{ℕ, List, Option};
ghost use Rattle.sip_files.specs.Kept.{Kept};
ghost use Rattle.sip_files.specs.Sink.{Wrote};

use crate::fault::Failed;

/// A place that takes bytes in order.
pub trait Sink {
    /// All bytes that were written, where the sink tells them.
    ghost written: { Self → Option (List ℕ) };

    /// How many calls failed, as a count of 64 bits that stays at its end.
    ghost faults: { Self → ℕ };

    /// What no call changes.
    ghost kept: { Self → Kept };

    /// Adds bytes at the end.
    fn write(&mut self, bytes: &[u8]) -> Result<(), Failed>
        ensures { Wrote (written self.old) (written self.new) (faults self.old) (faults self.new) (kept self.old) (kept self.new) bytes.now result };
}
