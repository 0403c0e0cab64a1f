//! The printer.

ghost use Rattle.std.specs.Prelude.{◌≡◌, ◌≤◌, length};
ghost use Rattle.sial_lexer.specs.Pieces.{most_source};
ghost use Rattle.sial_parser.specs.Words.{IsTextOf};
ghost use Rattle.sial_syntax.specs.Tree.{tree};
ghost use Rattle.sip_files.specs.Sink.{Wrote};
ghost use Rattle.sial_printer.specs.Lines.{printed};
ghost use Rattle.sial_printer.specs.Printed.{HasText, IsLongTextOf};
ghost use Rattle.sial_printer.specs.Relined.{relined_tree};
ghost use Rattle.sial_printer.specs.Unlined.{unlined_tree};

use crate::declared::declarations;
use crate::line::line;
use crate::part::Part;
use crate::print::all;
use crate::statements::closed;
use sial_parser::Keyword;
use sial_syntax::Program;
use sip_files::{Failed, Sink};

/// Writes a text of a program, one statement a line, with no memory; the parser gives the program for some text.
pub fn print_program<K: Sink>(program: &Program, sink: &mut K) -> Result<(), Failed>
    requires parsed { HasText (tree program.now) }

    // All of the printed text is written, or a first part of it where the sink failed and counted that.
    ensures wrote { Wrote (K.written sink.old) (K.written sink.new) (K.faults sink.old) (K.faults sink.new) (K.kept sink.old) (K.kept sink.new) (printed (tree program.now)) result }

    // It is a text of the program, which has other lines there; where it isn't too long, the parser gives it back.
    ensures text { IsLongTextOf (printed (tree program.now)) (relined_tree (tree program.now)) }
    ensures short { length (printed (tree program.now)) ≤ most_source → IsTextOf (printed (tree program.now)) (relined_tree (tree program.now)) }
    ensures same { unlined_tree (relined_tree (tree program.now)) ≡ unlined_tree (tree program.now) }
{
    let name = [Part::Name(&program.name)];
    line(program, sink, Keyword::Sial, &name)?;
    declarations(program, sink)?;
    all(program, sink, &program.procs)?;
    closed(program, sink, &program.body, Keyword::EndSial, &name)
}
