//! Lines.

ghost use Rattle.std.specs.Prelude.{◌≡◌, ◌∷◌, []};
ghost use Rattle.sial_parser.specs.declared.word.Symbol.TheVariants.{Key};
ghost use Rattle.sial_syntax.specs.Tree.{tree};
ghost use Rattle.sip_files.specs.Sink.{Wrote};
ghost use Rattle.sial_printer.specs.Lines.{where_line};
ghost use Rattle.sial_printer.specs.Parts as spec;
ghost use Rattle.sial_printer.specs.Spelling.{text_of};
ghost use Rattle.sial_printer.specs.Symbols.{target_symbols};

use crate::part::{Part, target};
use crate::print::{Print, all};
use crate::spelling::key_bytes;
use sial_parser::Keyword;
use sial_syntax::{Cond, Program, Target};
use sip_files::{Failed, Sink};

/// A line that begins with a reserved word.
pub fn line<K: Sink>(
    program: &Program,
    sink: &mut K,
    key: Keyword,
    parts: &[Part],
) -> Result<(), Failed>
    ensures { Wrote (K.written sink.old) (K.written sink.new) (K.faults sink.old) (K.faults sink.new) (K.kept sink.old) (K.kept sink.new) (text_of ((Key key ∷ spec.all_symbols (tree program.now) parts.now) ∷ [])) result }
{
    sink.write(key_bytes(key))?;
    end(program, sink, parts)
}

/// A line that begins with a target.
pub fn assignment<K: Sink>(
    program: &Program,
    sink: &mut K,
    left: &Target,
    parts: &[Part],
) -> Result<(), Failed>
    ensures { Wrote (K.written sink.old) (K.written sink.new) (K.faults sink.old) (K.faults sink.new) (K.kept sink.old) (K.kept sink.new) (text_of (target_symbols (tree program.now) left.now (spec.all_symbols (tree program.now) parts.now) ∷ [])) result }
{
    target(program, sink, left)?;
    end(program, sink, parts)
}

// The parts up to the end of a line.
fn end<K: Sink>(program: &Program, sink: &mut K, parts: &[Part]) -> Result<(), Failed>
    ensures { Wrote (K.written sink.old) (K.written sink.new) (K.faults sink.old) (K.faults sink.new) (K.kept sink.old) (K.kept sink.new) (spec.end_text (tree program.now) parts.now) result }
{
    all(program, sink, parts)?;
    sink.write(b"\n")
}

/// A condition of a pardo, on a line of its own.
impl Print for Cond {
    ghost text = { λ p c. text_of (where_line p c ∷ []) };

    fn print<K: Sink>(&self, program: &Program, sink: &mut K) -> Result<(), Failed> {
        line(program, sink, Keyword::Where, &cond_parts(self))
    }
}

/// The parts of a condition.
pub fn cond_parts<'a>(cond: &Cond) -> [Part<'a>; 3]
    ensures { result ≡ spec.cond_parts cond.now }
{
    [
        Part::Value(cond.left),
        Part::Test(cond.test),
        Part::Value(cond.right),
    ]
}
