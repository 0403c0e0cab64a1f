//! Files by name, as everything above sees them.

ghost use Rattle.std.specs.Prelude.{◌≡◌, ℕ, ◌≤◌, [], List, Option, Result, length, OnOk, OnErr, IsErrOf, Some};
ghost use Rattle.std.specs.Borrow.{GName};
ghost use Rattle.sip_files.specs.Writing.{bytes_of, others_of, cleared, appended};
ghost use Rattle.sip_files.specs.Sink.{GainsPart};
ghost use Rattle.sip_files.specs.Files.{Folder, Rose, CountsOnly, WhereTold, IsPartOf, IsMissing, IsTooLong, failed_after, overlong_after};

use crate::fault::{Failed, LoadFault};

/// Files by name. No wrong use is a fault: a call answers `Failed` exactly where its count rises.
pub trait Files {
    ghost use Rattle.sip_files.specs.declared.call.Call.{Call};
    ghost use Rattle.sip_files.specs.declared.call.Call.TheVariants.{Load, Clear, Append};
    ghost use Rattle.sip_files.specs.declared.fault.LoadFault.{LoadFault};

    /// The bytes of each name, where the files tell them.
    ghost told: { Self → Option Folder };

    /// How many calls of each kind failed, as a count of 64 bits that stays at its end.
    ghost faults: { Self → Call → ℕ };

    /// How many loads refused a file as too long, as such a count.
    ghost overlong: { Self → ℕ };

    /// The loans that stand in the object.
    ghost loans: { Self → List GName };

    /// A load: the files before it, name and limit, its answer and what it read, the files after it.
    ///
    /// Nothing but `load` gives one. So a caller over all files whose clause has a load has made it, with this name and
    /// limit, and at this place among its calls.
    ghost load_gives: { Self → List ℕ → ℕ → Result (Unit {0}) LoadFault → List ℕ → Self → Type 0 };

    /// Appends the bytes of a file to `into`.
    fn load(&mut self, name: &str, into: &mut Vec<u8>, most: u64) -> Result<(), LoadFault>
        requires { into.old.items ≡ [] }

        ensures ok { OnOk result (WhereTold (told self.old) name.now (λ held. held ≡ Some into.new.items)) }
        ensures within { OnOk result (length into.new.items ≤ most) }

        // A refused load leaves the first bytes of the file.
        ensures part { OnErr result (WhereTold (told self.old) name.now (IsPartOf into.new.items)) }
        ensures missing { IsErrOf result LoadFault.Missing → IsMissing (told self.old) name.now }
        ensures long { IsErrOf result LoadFault.TooLong → IsTooLong (told self.old) name.now most into.new.items }

        ensures gives { load_gives self.old name.now most result into.new.items self.new }

        // Each load that failed is counted, each that found its file too long, and nothing else.
        ensures failed { faults self.new Load ≡ failed_after (faults self.old Load) result }
        ensures overlong { overlong self.new ≡ overlong_after (overlong self.old) result }
        ensures counts { CountsOnly Load (faults self.old) (faults self.new) }

        ensures told { told self.new ≡ told self.old }
        ensures loans { loans self.new ≡ loans self.old };

    /// Makes a file have no bytes. After a refusal it may have any, and all others have what they had.
    fn clear(&mut self, name: &str) -> Result<(), Failed>
        ensures ok { OnOk result (told self.new ≡ cleared (told self.old) name.now) }
        ensures others { others_of (told self.new) name.now ≡ others_of (told self.old) name.now }
        ensures cause { OnErr result (Rose (faults self.old Clear) (faults self.new Clear)) }
        ensures counts { CountsOnly Clear (faults self.old) (faults self.new) }
        ensures overlong { overlong self.new ≡ overlong self.old }
        ensures loans { loans self.new ≡ loans self.old };

    /// Adds bytes at the end of a file; one that isn't there is a file of no bytes. After a refusal a first part of them
    /// was added.
    fn append(&mut self, name: &str, bytes: &[u8]) -> Result<(), Failed>
        ensures ok { OnOk result (told self.new ≡ appended (told self.old) name.now bytes.now) }
        ensures part { OnErr result (GainsPart (bytes_of (told self.old) name.now) (bytes_of (told self.new) name.now) bytes.now) }
        ensures others { others_of (told self.new) name.now ≡ others_of (told self.old) name.now }
        ensures cause { OnErr result (Rose (faults self.old Append) (faults self.new Append)) }
        ensures counts { CountsOnly Append (faults self.old) (faults self.new) }
        ensures overlong { overlong self.new ≡ overlong self.old }
        ensures loans { loans self.new ≡ loans self.old };
}
