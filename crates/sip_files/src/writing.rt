//! Bytes, written whole to a stream.

ghost use Rattle.std.specs.Prelude.{OnOk, OnErr, IfOk};
ghost use Rattle.std.specs.Io.KnownBytes.{Appends, Keeps};
ghost use Rattle.sip_files.specs.Stream.{AppendsPart, Took};

use crate::fault::Failed;
use std::io::{ErrorKind, Write};

/// Writes all bytes, or a first part of them where the stream fails or takes nothing.
#[tactic(auto, using(crate::proofs::StreamLemmas::took_none, crate::proofs::StreamLemmas::took_part))]
pub fn write_whole<W: Write>(stream: &mut W, bytes: &[u8]) -> Result<(), Failed>
    ensures ok { OnOk result (Appends (W.contents stream.old) (W.contents stream.new) bytes.now) }
    ensures err { OnErr result (AppendsPart (W.contents stream.old) (W.contents stream.new) bytes.now) }
{
    let mut rest = bytes;
    for _ in 0..u64::MAX {
        if rest.is_empty() {
            return Ok(());
        }
        rest = write_some(stream, rest)?;
    }
    Err(Failed)
}

// Writes some of the bytes, and answers what is left of them. An interrupted write took nothing.
fn write_some<'a, W: Write>(stream: &mut W, bytes: &'a [u8]) -> Result<&'a [u8], Failed>
    ensures ok { IfOk result (λ rest. Took (W.contents stream.old) (W.contents stream.new) bytes.now rest.now) }
    ensures err { OnErr result (Keeps (W.contents stream.old) (W.contents stream.new)) }
{
    match stream.write(bytes) {
        Ok(0) => Err(Failed),
        Ok(count) => Ok(&bytes[count..]),
        Err(error) if error.kind() == ErrorKind::Interrupted => Ok(bytes),
        Err(_) => Err(Failed),
    }
}
