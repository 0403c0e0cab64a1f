//! The text of a file, loaded.

ghost use Rattle.std.specs.Prelude.{◌≡◌, Ok, IfOk, IsErrOf};
ghost use Rattle.sip_files.specs.Files.{CountsOnly};
ghost use Rattle.sip_files.specs.Loading.{Loading, wanted};
ghost use Rattle.sip_files.specs.declared.call.Call.TheVariants.{Load};
ghost use Rattle.sip_grant.specs.Loads.{IsUnread, IsStarved};

use sip_files::{Files, LoadFault};
use std::alloc::Global;

/// Why a text isn't at hand.
pub enum TextFault {
    /// The file wasn't read.
    Unread,
    /// No memory was found.
    OutOfMemory,
}

/// Loads a file of at most so many bytes.
pub fn load_text<F: Files>(
    alloc: Global,
    files: &mut F,
    name: &str,
    most: u64,
) -> Result<Vec<u8>, TextFault>
    ensures read { IfOk result (λ text. Loading F.load_gives F.told F.faults F.overlong
        files.old (wanted name.now most) (Ok tt) text.items files.new) }
    ensures unread { IsErrOf result TextFault.Unread → IsUnread (Loading F.load_gives F.told F.faults F.overlong)
        files.old files.new (wanted name.now most) }
    ensures memory { IsErrOf result TextFault.OutOfMemory → IsStarved (Loading F.load_gives F.told F.faults F.overlong)
        files.old files.new (wanted name.now most) }

    ensures told { F.told files.new ≡ F.told files.old }
    ensures counts { CountsOnly Load (F.faults files.old) (F.faults files.new) }
    ensures loans { F.loans files.new ≡ F.loans files.old }
{
    let mut text = Vec::new(alloc);
    match files.load(name, &mut text, most) {
        Ok(()) => Ok(text),
        Err(LoadFault::OutOfMemory) => Err(TextFault::OutOfMemory),
        Err(LoadFault::Failed) => Err(TextFault::Unread),
        Err(LoadFault::Missing) => Err(TextFault::Unread),
        Err(LoadFault::TooLong) => Err(TextFault::Unread),
    }
}
