//! A stream, read whole.

ghost use Rattle.std.specs.Prelude.{◌≡◌, ◌≢◌, ◌<◌, ◌≤◌, [], length, OnOk, IfSome, IsErrOf};
ghost use Rattle.std.specs.IoError.{error_kind};
ghost use Rattle.sip_files.specs.Files.{IsPrefix};

use crate::fault::LoadFault;
use std::io::{self, ErrorKind, Read};

/// Reads a stream to its end, up to a limit. Past it one more byte is read, and the answer is `TooLong`.
#[tactic(auto, using(crate::proofs::StreamLemmas::read_part))]
pub fn read_whole<R: Read + Drop>(stream: R, into: &mut Vec<u8>, most: u64) -> Result<(), LoadFault>
    requires { into.old.items ≡ [] }
    ensures ok { OnOk result (IfSome (R.remaining stream) (λ bytes. into.new.items ≡ bytes)) }
    ensures within { OnOk result (length into.new.items ≤ most) }

    // A refused read leaves the first bytes of the stream.
    ensures part { IfSome (R.remaining stream) (IsPrefix into.new.items) }
    ensures long { IsErrOf result LoadFault.TooLong → most < length into.new.items }
    ensures missing { IsErrOf result LoadFault.Missing → ⊥ }
{
    let answer = stream.take(most.saturating_add(1)).read_to_end(into);
    if into.as_slice().len() as u64 > most {
        return Err(LoadFault::TooLong);
    }
    match answer {
        Ok(_) => Ok(()),
        Err(error) => Err(fault_of(&error)),
    }
}

/// Why a stream couldn't be read or opened: for want of memory, or a failure that counts.
pub fn fault_of(error: &io::Error) -> LoadFault
    ensures memory { error_kind error.now ≡ ErrorKind.OutOfMemory → result ≡ LoadFault.OutOfMemory }
    ensures other { error_kind error.now ≢ ErrorKind.OutOfMemory → result ≡ LoadFault.Failed }
    ensures long { result ≢ LoadFault.TooLong }
    ensures missing { result ≢ LoadFault.Missing }
{
    if error.kind() == ErrorKind::OutOfMemory {
        LoadFault::OutOfMemory
    } else {
        LoadFault::Failed
    }
}
