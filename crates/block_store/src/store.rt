//! Where blocks of a fixed length are kept by number.

ghost use Rattle.std.specs.Prelude.{◌≡◌, ℕ, ◌<◌, ◌≤◌, List, Option, Some, IsSome, OnOk, OnErr, length, slice_index};
ghost use Rattle.std.specs.FinMap as map;
ghost use Rattle.sip_files.specs.Files.{Rose};
ghost use Rattle.sip_files.specs.Kept.{Kept};
ghost use Rattle.block_store.specs.Store.{Blocks, WhereTold, HasBelow, Sets, ChangesOnly};

use sip_files::Failed;

/// Blocks by number, each of its own length. A call answers `Failed` only where the count rose.
pub trait Store {
    /// How many numbers each block has.
    ghost sizes: { Self → List ℕ };

    /// The numbers of each block that is there, where the store tells them.
    ghost told: { Self → Option Blocks };

    /// How many calls failed, as a count of 64 bits that stays at its end.
    ghost faults: { Self → ℕ };

    /// What no call changes beside the sizes.
    ghost kept: { Self → Kept };

    /// Reads a block. After a fault `into` has any numbers.
    fn read(&mut self, block: u32, into: &mut [u64]) -> Result<(), Failed>
        requires block { block < length (sizes self.old) }
        requires len { length into.old ≡ slice_index (sizes self.old) block }
        requires there { WhereTold (told self.old) (λ blocks. IsSome (map.get blocks block)) }

        ensures ok { OnOk result (WhereTold (told self.old) (λ blocks. map.get blocks block ≡ Some into.new)) }
        ensures cause { OnErr result (Rose (faults self.old) (faults self.new)) }
        ensures never_falls { faults self.old ≤ faults self.new }
        ensures told { told self.new ≡ told self.old }
        ensures sizes { sizes self.new ≡ sizes self.old }
        ensures kept { kept self.new ≡ kept self.old };

    /// Replaces a block. After a fault the block is any, or no longer there.
    fn write(&mut self, block: u32, from: &[u64]) -> Result<(), Failed>
        requires block { block < length (sizes self.old) }
        requires len { length from.now ≡ slice_index (sizes self.old) block }
        requires below { WhereTold (told self.old) (HasBelow block) }

        ensures ok { OnOk result (Sets (told self.old) (told self.new) block from.now) }
        ensures err { OnErr result (ChangesOnly (told self.old) (told self.new) block) }
        ensures cause { OnErr result (Rose (faults self.old) (faults self.new)) }
        ensures never_falls { faults self.old ≤ faults self.new }
        ensures sizes { sizes self.new ≡ sizes self.old }
        ensures kept { kept self.new ≡ kept self.old };
}
