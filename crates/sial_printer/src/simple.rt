//! Statements of one line.

ghost use Rattle.std.specs.Prelude.{◌≡◌, ◌∷◌, []};
ghost use Rattle.sial_parser.specs.declared.word.Symbol.TheVariants.{Key};
ghost use Rattle.sial_syntax.specs.Tree as syntax;
ghost use Rattle.sial_syntax.specs.Tree.{tree};
ghost use Rattle.sip_files.specs.Sink.{Wrote};
ghost use Rattle.sial_printer.specs.Lines as spec;
ghost use Rattle.sial_printer.specs.Spelling.{text_of};
ghost use Rattle.sial_printer.specs.Symbols.{access_symbols, block};

use crate::line::{assignment, line};
use crate::part::Part;
use sial_parser::Keyword;
use sial_syntax::{Access, BlockRef, Form, Op, Program, Right, Target};
use sip_files::{Failed, Sink};

/// A statement of one line; nothing for one with bodies.
pub fn simple<K: Sink>(program: &Program, sink: &mut K, form: &Form) -> Result<(), Failed>
    requires { spec.IsSimple (syntax.plain_form form.now) }
    ensures { Wrote (K.written sink.old) (K.written sink.new) (K.faults sink.old) (K.faults sink.new) (K.kept sink.old) (K.kept sink.new) (text_of (spec.statement (tree program.now) (syntax.plain_form form.now))) result }
{
    match form {
        Form::Assign { target, op, right } => assign(program, sink, target, *op, right),
        Form::Call { proc } => line(program, sink, Keyword::Call, &[Part::Procedure(*proc)]),
        Form::Get { block } => line(program, sink, Keyword::Get, &[Part::Block(block)]),
        Form::Request { block } => line(program, sink, Keyword::Request, &[Part::Block(block)]),
        Form::Put { block, how, from } => write(program, sink, Keyword::Put, block, *how, from),
        Form::Prepare { block, how, from } => write(
            program,
            sink,
            Keyword::Prepare,
            block,
            *how,
            from,
        ),
        Form::Create { array } => line(program, sink, Keyword::Create, &[Part::Array(*array)]),
        Form::Delete { array } => line(program, sink, Keyword::Delete, &[Part::Array(*array)]),
        Form::Allocate { array, at } => {
            let slots = [Part::Array(*array), Part::Slots(at)];
            line(program, sink, Keyword::Allocate, &slots)
        }
        Form::Deallocate { array, at } => {
            let slots = [Part::Array(*array), Part::Slots(at)];
            line(program, sink, Keyword::Deallocate, &slots)
        }
        Form::Collective { into, from } => {
            let sum = [Part::Scalar(*into), Part::Op(Op::Add), Part::Scalar(*from)];
            line(program, sink, Keyword::Collective, &sum)
        }
        Form::SipBarrier => line(program, sink, Keyword::SipBarrier, &[]),
        Form::ServerBarrier => line(program, sink, Keyword::ServerBarrier, &[]),
        Form::Print { text } => line(program, sink, Keyword::Print, &[Part::Quoted(text)]),
        Form::PrintScalar { scalar } => {
            let printed = [Part::Key(Keyword::PrintScalar), Part::Scalar(*scalar)];
            line(program, sink, Keyword::Execute, &printed)
        }
        Form::Integrals { block } => {
            let filled = [Part::Key(Keyword::ComputeIntegrals), Part::Block(block)];
            line(program, sink, Keyword::Execute, &filled)
        }
        Form::Do { .. } | Form::DoIn { .. } | Form::Pardo { .. } | Form::If { .. } => Ok(()),
    }
}

// An assignment.
fn assign<K: Sink>(
    program: &Program,
    sink: &mut K,
    target: &Target,
    op: Op,
    right: &Right,
) -> Result<(), Failed>
    ensures { Wrote (K.written sink.old) (K.written sink.new) (K.faults sink.old) (K.faults sink.new) (K.kept sink.old) (K.kept sink.new) (text_of (spec.statement (tree program.now) (syntax.Assign target.now op right.now))) result }
{
    match right {
        Right::One(one) => {
            let parts = [Part::Op(op), Part::Operand(one)];
            assignment(program, sink, target, &parts)
        }
        Right::Two(one, bin, other) => {
            let parts = [
                Part::Op(op),
                Part::Operand(one),
                Part::Bin(*bin),
                Part::Operand(other),
            ];
            assignment(program, sink, target, &parts)
        }
    }
}

// A `put` or a `prepare`.
fn write<'a, K: Sink>(
    program: &Program,
    sink: &mut K,
    key: Keyword,
    into: &'a BlockRef,
    how: Access,
    from: &'a BlockRef,
) -> Result<(), Failed>
    ensures { Wrote (K.written sink.old) (K.written sink.new) (K.faults sink.old) (K.faults sink.new) (K.kept sink.old) (K.kept sink.new) (text_of ((Key key ∷ block (tree program.now) into.now (access_symbols how (block (tree program.now) from.now []))) ∷ [])) result }
{
    let into = Part::Block(into);
    let from = Part::Block(from);
    match how {
        Access::Store => line(program, sink, key, &[into, Part::Op(Op::Set), from]),
        Access::Add => line(program, sink, key, &[into, Part::Op(Op::Add), from]),
        Access::Max => line(
            program,
            sink,
            key,
            &[into, Part::Max, Part::Op(Op::Set), from],
        ),
        Access::Read => line(program, sink, key, &[into, from]),
    }
}
