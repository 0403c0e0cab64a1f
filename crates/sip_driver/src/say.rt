//! The lines that refusals write.

ghost use Rattle.std.specs.Prelude.{◌≡◌, ◌≤◌};
ghost use Rattle.sip_driver.specs.Says.{Says, read_line, space_line, syntax_line, told_line, write_line};
ghost use Rattle.sip_driver.specs.Seen.{told_of};

use crate::kinds::{Told, file_told, syntax_told, tables_told};
use crate::lines::{write_space, write_told, write_unread, write_unwritten};
use index_spaces::SpaceFault;
use sip_files::Sink;
use sip_grant::SyntaxFault;

/// Writes a line; that it fails changes nothing.
pub fn say<K: Sink>(err: &mut K, line: &[u8])
    ensures says { Says K.written K.faults err.old err.new line.now }
    ensures never_falls { K.faults err.old ≤ K.faults err.new }
    ensures kept { K.kept err.new ≡ K.kept err.old }
{
    let _ = err.write(line);
}

/// Writes the line on a file that wasn't read.
pub fn say_unread<K: Sink>(err: &mut K, name: &str)
    ensures says { Says K.written K.faults err.old err.new (read_line name.now) }
    ensures never_falls { K.faults err.old ≤ K.faults err.new }
    ensures kept { K.kept err.new ≡ K.kept err.old }
{
    let _ = write_unread(err, name.as_bytes());
}

/// Writes the line on a file that wasn't written.
pub fn say_unwritten<K: Sink>(err: &mut K, name: &str)
    ensures says { Says K.written K.faults err.old err.new (write_line name.now) }
    ensures never_falls { K.faults err.old ≤ K.faults err.new }
    ensures kept { K.kept err.new ≡ K.kept err.old }
{
    let _ = write_unwritten(err, name.as_bytes());
}

/// Writes a line that begins so and tells a fault's place and kind.
pub fn say_told<K: Sink>(err: &mut K, front: &[u8], told: Told)
    ensures says { Says K.written K.faults err.old err.new (told_line front.now (told_of told)) }
    ensures never_falls { K.faults err.old ≤ K.faults err.new }
    ensures kept { K.kept err.new ≡ K.kept err.old }
{
    let _ = write_told(err, front, told);
}

/// Writes the line on a file that is that of no program.
pub fn say_syntax<K: Sink>(err: &mut K, fault: SyntaxFault)
    ensures says { Says K.written K.faults err.old err.new (syntax_line fault) }
    ensures never_falls { K.faults err.old ≤ K.faults err.new }
    ensures kept { K.kept err.new ≡ K.kept err.old }
{
    match fault {
        SyntaxFault::Text(fault) => say_told(err, b"sip: syntax line ", syntax_told(fault)),
        SyntaxFault::File(fault) => say_told(err, b"sip: table at ", file_told(fault)),
        SyntaxFault::Tables(fault) => {
            say_told(err, b"sip: table instruction ", tables_told(fault))
        }
    }
}

/// Writes the line on an input that doesn't fit.
pub fn say_misfit<K: Sink>(err: &mut K, fault: &SpaceFault)
    ensures says { Says K.written K.faults err.old err.new (space_line fault.now) }
    ensures never_falls { K.faults err.old ≤ K.faults err.new }
    ensures kept { K.kept err.new ≡ K.kept err.old }
{
    let _ = write_space(err, fault);
}
