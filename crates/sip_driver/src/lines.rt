//! Lines of several parts, written part by part.

ghost use Rattle.std.specs.Prelude.{[], ◌∷◌, ◌++◌, decimal, codes};
ghost use Rattle.sip_files.specs.Sink.{Wrote};
ghost use Rattle.sip_driver.specs.Kinds.{space_kind_of};
ghost use Rattle.sip_driver.specs.Says as spec;
ghost use Rattle.sip_driver.specs.Says.{read_line, space_line, told_line};
ghost use Rattle.sip_driver.specs.Seen.{told_of};

use crate::kinds::{Told, space_kind};
use index_spaces::SpaceFault;
use itoa::Buffer;
use sip_files::{Failed, Sink};

/// `sip: read NAME`
pub fn write_unread<K: Sink>(err: &mut K, name: &[u8]) -> Result<(), Failed>
    ensures { Wrote (K.written err.old) (K.written err.new) (K.faults err.old) (K.faults err.new) (K.kept err.old) (K.kept err.new) (read_line name.now) result }
{
    match err.write(b"sip: read ") {
        Ok(()) => write_line(err, name),
        Err(failed) => Err(failed),
    }
}

/// `sip: write NAME`
pub fn write_unwritten<K: Sink>(err: &mut K, name: &[u8]) -> Result<(), Failed>
    ensures { Wrote (K.written err.old) (K.written err.new) (K.faults err.old) (K.faults err.new) (K.kept err.old) (K.kept err.new) (spec.write_line name.now) result }
{
    match err.write(b"sip: write ") {
        Ok(()) => write_line(err, name),
        Err(failed) => Err(failed),
    }
}

/// `FRONT PLACE: KIND`
pub fn write_told<K: Sink>(err: &mut K, front: &[u8], told: Told) -> Result<(), Failed>
    ensures { Wrote (K.written err.old) (K.written err.new) (K.faults err.old) (K.faults err.new) (K.kept err.old) (K.kept err.new)
        (told_line front.now (told_of told)) result }
{
    match err.write(front) {
        Ok(()) => write_place(err, told.place, told.kind),
        Err(failed) => Err(failed),
    }
}

/// `sip: space NAME VALUE: KIND`
pub fn write_space<K: Sink>(err: &mut K, fault: &SpaceFault) -> Result<(), Failed>
    ensures { Wrote (K.written err.old) (K.written err.new) (K.faults err.old) (K.faults err.new) (K.kept err.old) (K.kept err.new)
        (space_line fault.now) result }
{
    match err.write(b"sip: space ") {
        Ok(()) => write_misfit(err, fault),
        Err(failed) => Err(failed),
    }
}

fn write_misfit<K: Sink>(err: &mut K, fault: &SpaceFault) -> Result<(), Failed>
    ensures { Wrote (K.written err.old) (K.written err.new) (K.faults err.old) (K.faults err.new) (K.kept err.old) (K.kept err.new)
        (fault.now.name ++ (codes " " ++ (decimal fault.now.value ++ (codes ": " ++ (space_kind_of fault.now.kind ++ (10 ∷ [])))))) result }
{
    match err.write(fault.name.as_slice()) {
        Ok(()) => write_value(err, fault.value, space_kind(fault.kind)),
        Err(failed) => Err(failed),
    }
}

fn write_value<K: Sink>(err: &mut K, value: u64, kind: &[u8]) -> Result<(), Failed>
    ensures { Wrote (K.written err.old) (K.written err.new) (K.faults err.old) (K.faults err.new) (K.kept err.old) (K.kept err.new)
        (codes " " ++ (decimal value ++ (codes ": " ++ (kind.now ++ (10 ∷ []))))) result }
{
    match err.write(b" ") {
        Ok(()) => write_place(err, value, kind),
        Err(failed) => Err(failed),
    }
}

fn write_place<K: Sink>(err: &mut K, place: u64, kind: &[u8]) -> Result<(), Failed>
    ensures { Wrote (K.written err.old) (K.written err.new) (K.faults err.old) (K.faults err.new) (K.kept err.old) (K.kept err.new)
        (decimal place ++ (codes ": " ++ (kind.now ++ (10 ∷ [])))) result }
{
    let mut buffer = Buffer::new();
    match err.write(buffer.format(place).as_bytes()) {
        Ok(()) => write_kind(err, kind),
        Err(failed) => Err(failed),
    }
}

fn write_kind<K: Sink>(err: &mut K, kind: &[u8]) -> Result<(), Failed>
    ensures { Wrote (K.written err.old) (K.written err.new) (K.faults err.old) (K.faults err.new) (K.kept err.old) (K.kept err.new)
        (codes ": " ++ (kind.now ++ (10 ∷ []))) result }
{
    match err.write(b": ") {
        Ok(()) => write_line(err, kind),
        Err(failed) => Err(failed),
    }
}

fn write_line<K: Sink>(err: &mut K, text: &[u8]) -> Result<(), Failed>
    ensures { Wrote (K.written err.old) (K.written err.new) (K.faults err.old) (K.faults err.new) (K.kept err.old) (K.kept err.new) (text.now ++ 10 ∷ []) result }
{
    match err.write(text) {
        Ok(()) => err.write(b"\n"),
        Err(failed) => Err(failed),
    }
}
