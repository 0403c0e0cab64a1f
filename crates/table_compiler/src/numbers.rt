//! Lengths and numbers of entries.

ghost use Rattle.std.specs.Prelude.{◌≡◌, ◌+◌, IfOk};

use sip_files::OutOfMemory;

/// A length as a number of 32 bits.
pub fn number(len: usize) -> Result<u32, OutOfMemory>
    ensures { IfOk result (λ n. n ≡ len) }
{
    match u32::try_from(len) {
        Ok(number) => Ok(number),
        Err(_) => Err(OutOfMemory),
    }
}

/// A sum, where it is no larger than a length may be.
pub fn plus(a: usize, b: usize) -> Result<usize, OutOfMemory>
    ensures { IfOk result (λ n. n ≡ a + b) }
{
    match a.checked_add(b) {
        Some(sum) => Ok(sum),
        None => Err(OutOfMemory),
    }
}
