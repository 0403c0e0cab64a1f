//! The line of a printed scalar.

ghost use Rattle.std.specs.Prelude.{◌≡◌, ◌<◌, [], ◌∷◌, ◌++◌, length, decimal, slice_index_or};
ghost use Rattle.sip_files.specs.Sink.{Wrote};
ghost use Rattle.sip_setting.specs.Seen.{setting_of};
ghost use Rattle.first_profile.specs.Running.{line_of};

use crate::machine::Machine;
use itoa::Buffer;
use sip_files::{Failed, Sink};
use sip_setting::Granted;

/// `execute print_scalar s`
pub fn print_scalar<K: Sink>(
    granted: &Granted,
    machine: &Machine,
    scalar: u16,
    out: &mut K,
) -> Result<(), Failed>
    requires scalar { scalar < length machine.now.scalars }
    requires name { scalar < length (setting_of granted.now).program.scalars }
    ensures { Wrote (K.written out.old) (K.written out.new) (K.faults out.old) (K.faults out.new) (K.kept out.old) (K.kept out.new)
        (line_of (setting_of granted.now) machine.now scalar ++ 10 ∷ []) result }
{
    match out.write(name_of(granted, scalar)) {
        Ok(()) => write_number(machine.scalar(scalar), out),
        Err(failed) => Err(failed),
    }
}

// The name of a scalar.
fn name_of(granted: &Granted, scalar: u16) -> &[u8]
    requires { scalar < length (setting_of granted.now).program.scalars }
    ensures { result.now ≡ slice_index_or (setting_of granted.now).program.scalars scalar [] }
{
    granted.program.scalars[scalar as usize].as_slice()
}

// A space, a number and the line's end.
fn write_number<K: Sink>(number: u64, out: &mut K) -> Result<(), Failed>
    ensures { Wrote (K.written out.old) (K.written out.new) (K.faults out.old) (K.faults out.new) (K.kept out.old) (K.kept out.new)
        (32 ∷ (decimal number ++ 10 ∷ [])) result }
{
    match out.write(b" ") {
        Ok(()) => write_digits(number, out),
        Err(failed) => Err(failed),
    }
}

// A number and the line's end.
fn write_digits<K: Sink>(number: u64, out: &mut K) -> Result<(), Failed>
    ensures { Wrote (K.written out.old) (K.written out.new) (K.faults out.old) (K.faults out.new) (K.kept out.old) (K.kept out.new)
        (decimal number ++ 10 ∷ []) result }
{
    let mut buffer = Buffer::new();
    match out.write(buffer.format(number).as_bytes()) {
        Ok(()) => out.write(b"\n"),
        Err(failed) => Err(failed),
    }
}
