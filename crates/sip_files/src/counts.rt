//! A count for each kind of call.

ghost use Rattle.std.specs.Prelude.{◌≡◌};
ghost use Rattle.sip_files.specs.Counts.{count_of, with_one_more};
ghost use Rattle.sip_files.specs.Files.{CountsOnly};

use crate::call::Call;

/// How often each kind of call failed. Each count stays at its largest number.
#[derive(Clone, Copy, Default)]
pub struct Counts {
    pub load: u64,
    pub clear: u64,
    pub append: u64,
    pub read_at: u64,
    pub write_at: u64,
}

impl Counts {
    /// Counts one more of a kind.
    pub fn raise(&mut self, call: Call)
        ensures after { self.new ≡ with_one_more self.old call }
        ensures only { CountsOnly call (count_of self.old) (count_of self.new) }
    {
        match call {
            Call::Load => self.load = self.load.saturating_add(1),
            Call::Clear => self.clear = self.clear.saturating_add(1),
            Call::Append => self.append = self.append.saturating_add(1),
            Call::ReadAt => self.read_at = self.read_at.saturating_add(1),
            Call::WriteAt => self.write_at = self.write_at.saturating_add(1),
        }
    }
}
