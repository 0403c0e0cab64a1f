//! The line that is printed for a call.

ghost use Rattle.std.specs.Prelude.{◌<◌};

use crate::blocks::checksum;
use std::io;
use std::time::Instant;

/// Prints what one of the calls since `start` took, and the checksum of what they computed.
pub fn report(
    rt: &HostRuntime,
    case: &str,
    call: &str,
    start: Instant,
    calls: u32,
    to: &[u64],
) -> io::Result<()>
    requires some { 0 < calls }
{
    let took = start.elapsed(rt)? / calls;
    println!(rt; "{case} {call} {} {}", took.as_nanos(), checksum(to))
}
