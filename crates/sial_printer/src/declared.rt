//! Declarations and procedures.

ghost use Rattle.std.specs.Prelude.{◌≡◌, ◌∷◌, ◌++◌, [], map};
ghost use Rattle.sial_syntax.specs.Tree as syntax;
ghost use Rattle.sial_syntax.specs.Tree.{tree};
ghost use Rattle.sip_files.specs.Sink.{Wrote};
ghost use Rattle.sial_printer.specs.Lines as spec;
ghost use Rattle.sial_printer.specs.Spelling.{text_of};
ghost use Rattle.sial_printer.specs.Symbols as symbols;

use crate::line::line;
use crate::part::Part;
use crate::print::{Print, all};
use crate::statements::closed;
use sial_parser::Keyword;
use sial_syntax::{ArrayDecl, ArrayKind, IndexDecl, Kind, Op, Proc, Program, Range, Text};
use sip_files::{Failed, Sink};

/// All declarations: indices, arrays, scalars.
pub fn declarations<K: Sink>(program: &Program, sink: &mut K) -> Result<(), Failed>
    ensures { Wrote (K.written sink.old) (K.written sink.new) (K.faults sink.old) (K.faults sink.new) (K.kept sink.old) (K.kept sink.new) (text_of (spec.declarations (tree program.now))) result }
{
    all(program, sink, &program.indices)?;
    all(program, sink, &program.arrays)?;
    all(program, sink, &program.scalars)
}

impl Print for IndexDecl {
    ghost text = { λ p x. text_of (spec.index_line p x ∷ []) };

    fn print<K: Sink>(&self, program: &Program, sink: &mut K) -> Result<(), Failed> {
        match &self.range {
            Range::Segments { kind, lo, hi } => {
                let parts = [
                    Part::Name(&self.name),
                    Part::Op(Op::Set),
                    Part::Bound(lo),
                    Part::Comma,
                    Part::Bound(hi),
                ];
                line(program, sink, kind_key(*kind), &parts)
            }
            Range::Sub { super_index } => {
                let parts = [
                    Part::Name(&self.name),
                    Part::Key(Keyword::Of),
                    Part::Index(*super_index),
                ];
                line(program, sink, Keyword::SubIndex, &parts)
            }
        }
    }
}

impl Print for ArrayDecl {
    ghost text = { λ p x. text_of (spec.array_line p x ∷ []) };

    fn print<K: Sink>(&self, program: &Program, sink: &mut K) -> Result<(), Failed> {
        let parts = [Part::Name(&self.name), Part::Dims(self.dims.as_slice())];
        line(program, sink, array_key(self.kind), &parts)
    }
}

/// The name of a scalar, declared.
impl Print for Text {
    ghost text = { λ p x. text_of (spec.scalar_line x ∷ []) };

    fn print<K: Sink>(&self, program: &Program, sink: &mut K) -> Result<(), Failed> {
        line(program, sink, Keyword::Scalar, &[Part::Name(self)])
    }
}

impl Print for Proc {
    ghost text = { λ p q. text_of (spec.procedure_lines p (syntax.procedure q)) };

    fn print<K: Sink>(&self, program: &Program, sink: &mut K) -> Result<(), Failed> {
        let name = [Part::Name(&self.name)];
        line(program, sink, Keyword::Proc, &name)?;
        closed(program, sink, &self.body, Keyword::EndProc, &name)
    }
}

// The word that declares indices of a kind.
fn kind_key(kind: Kind) -> Keyword
    ensures { result ≡ symbols.kind_key kind }
{
    match kind {
        Kind::Ao => Keyword::AoIndex,
        Kind::Mo => Keyword::MoIndex,
        Kind::Moa => Keyword::MoaIndex,
        Kind::Mob => Keyword::MobIndex,
        Kind::Index => Keyword::Index,
    }
}

// The word that declares arrays of a kind.
fn array_key(kind: ArrayKind) -> Keyword
    ensures { result ≡ symbols.array_key kind }
{
    match kind {
        ArrayKind::Static => Keyword::Static,
        ArrayKind::Temp => Keyword::Temp,
        ArrayKind::Local => Keyword::Local,
        ArrayKind::Distributed => Keyword::Distributed,
        ArrayKind::Served => Keyword::Served,
    }
}
