//! Parts of lines.

ghost use Rattle.std.specs.Prelude.{◌≡◌, ◌∷◌, ◌++◌, [], decimal};
ghost use Rattle.sial_syntax.specs.Tree.{tree};
ghost use Rattle.sip_files.specs.Sink.{Wrote};
ghost use Rattle.sial_printer.specs.Parts as spec;
ghost use Rattle.sial_printer.specs.Spelling.{spelling};
ghost use Rattle.sial_printer.specs.Symbols as symbols;

use crate::lists::{block, dims, names, slots};
use crate::names::{array_name, index_name, procedure_name, scalar_name};
use crate::print::Print;
use crate::spelling::{bin_bytes, key_bytes, op_bytes, test_bytes};
use itoa::Buffer;
use sial_parser::Keyword;
use sial_syntax::{Bin, BlockRef, Bound, Op, Operand, Program, Slot, Target, Test, Text, Value};
use sip_files::{Failed, Sink};

/// A part of a line, behind its first one.
#[derive(Clone, Copy)]
pub enum Part<'a> {
    Key(Keyword),
    /// A name that is declared here, or that of a procedure or the program.
    Name(&'a Text),
    Index(u16),
    Array(u16),
    Scalar(u16),
    Procedure(u16),
    /// A printed text, with its marks.
    Quoted(&'a Text),
    Comma,
    Max,
    Op(Op),
    Bin(Bin),
    Test(Test),
    Bound(&'a Bound),
    Value(Value),
    Operand(&'a Operand),
    /// Names with commas between.
    Indices(&'a [u16]),
    /// Names in parentheses.
    Dims(&'a [u16]),
    Block(&'a BlockRef),
    /// Slots in parentheses.
    Slots(&'a [Slot]),
}

impl<'a> Print for Part<'a> {
    ghost text = { λ p x. spec.part_text p x };

    fn print<K: Sink>(&self, program: &Program, sink: &mut K) -> Result<(), Failed> {
        match self {
            Part::Key(key) => word(sink, key_bytes(*key)),
            Part::Name(name) => word(sink, name.as_slice()),
            Part::Index(index) => word(sink, index_name(program, *index)),
            Part::Array(array) => word(sink, array_name(program, *array)),
            Part::Scalar(scalar) => word(sink, scalar_name(program, *scalar)),
            Part::Procedure(procedure) => word(sink, procedure_name(program, *procedure)),
            Part::Quoted(text) => quoted(sink, text),
            Part::Comma => sink.write(b","),
            Part::Max => word(sink, b"max"),
            Part::Op(op) => word(sink, op_bytes(*op)),
            Part::Bin(bin) => word(sink, bin_bytes(*bin)),
            Part::Test(test) => word(sink, test_bytes(*test)),
            Part::Bound(end) => bound(sink, end),
            Part::Value(one) => value(program, sink, *one),
            Part::Operand(one) => operand(program, sink, one),
            Part::Indices(indices) => spaced_names(program, sink, indices),
            Part::Dims(indices) => dims(program, sink, indices),
            Part::Block(one) => spaced_block(program, sink, one),
            Part::Slots(at) => slots(program, sink, at),
        }
    }
}

// A blank and these bytes.
fn word<K: Sink>(sink: &mut K, bytes: &[u8]) -> Result<(), Failed>
    ensures { Wrote (K.written sink.old) (K.written sink.new) (K.faults sink.old) (K.faults sink.new) (K.kept sink.old) (K.kept sink.new) (32 ∷ bytes.now) result }
{
    sink.write(b" ")?;
    sink.write(bytes)
}

// A blank and a number.
fn number<K: Sink>(sink: &mut K, number: u64) -> Result<(), Failed>
    ensures { Wrote (K.written sink.old) (K.written sink.new) (K.faults sink.old) (K.faults sink.new) (K.kept sink.old) (K.kept sink.new) (32 ∷ decimal number) result }
{
    let mut buffer = Buffer::new();
    word(sink, buffer.format(number).as_bytes())
}

// A blank and a printed text with its marks.
fn quoted<K: Sink>(sink: &mut K, text: &Text) -> Result<(), Failed>
    ensures { Wrote (K.written sink.old) (K.written sink.new) (K.faults sink.old) (K.faults sink.new) (K.kept sink.old) (K.kept sink.new) (32 ∷ 34 ∷ text.now ++ 34 ∷ []) result }
{
    sink.write(b" \"")?;
    sink.write(text.as_slice())?;
    sink.write(b"\"")
}

// A blank and an end of a range.
fn bound<K: Sink>(sink: &mut K, end: &Bound) -> Result<(), Failed>
    ensures { Wrote (K.written sink.old) (K.written sink.new) (K.faults sink.old) (K.faults sink.new) (K.kept sink.old) (K.kept sink.new) (32 ∷ spelling (symbols.bound_symbol end.now)) result }
{
    match end {
        Bound::Number(one) => number(sink, *one),
        Bound::Named(name) => word(sink, name.as_slice()),
    }
}

// A blank and a value.
fn value<K: Sink>(program: &Program, sink: &mut K, value: Value) -> Result<(), Failed>
    ensures { Wrote (K.written sink.old) (K.written sink.new) (K.faults sink.old) (K.faults sink.new) (K.kept sink.old) (K.kept sink.new) (32 ∷ spelling (symbols.value_symbol (tree program.now) value)) result }
{
    match value {
        Value::Number(one) => number(sink, one),
        Value::Scalar(scalar) => word(sink, scalar_name(program, scalar)),
        Value::Index(index) => word(sink, index_name(program, index)),
    }
}

// A blank and an operand.
fn operand<K: Sink>(program: &Program, sink: &mut K, operand: &Operand) -> Result<(), Failed>
    ensures { Wrote (K.written sink.old) (K.written sink.new) (K.faults sink.old) (K.faults sink.new) (K.kept sink.old) (K.kept sink.new) (32 ∷ spec.operand_text (tree program.now) operand.now) result }
{
    match operand {
        Operand::Number(one) => number(sink, *one),
        Operand::Scalar(scalar) => word(sink, scalar_name(program, *scalar)),
        Operand::Block(one) => spaced_block(program, sink, one),
    }
}

// A blank and a block.
fn spaced_block<K: Sink>(program: &Program, sink: &mut K, one: &BlockRef) -> Result<(), Failed>
    ensures { Wrote (K.written sink.old) (K.written sink.new) (K.faults sink.old) (K.faults sink.new) (K.kept sink.old) (K.kept sink.new) (32 ∷ spec.block_text (tree program.now) one.now) result }
{
    sink.write(b" ")?;
    block(program, sink, one)
}

// A blank and names, if there are any.
fn spaced_names<K: Sink>(program: &Program, sink: &mut K, indices: &[u16]) -> Result<(), Failed>
    ensures { Wrote (K.written sink.old) (K.written sink.new) (K.faults sink.old) (K.faults sink.new) (K.kept sink.old) (K.kept sink.new) (spec.indices_text (tree program.now) indices.now) result }
{
    if indices.is_empty() {
        return Ok(());
    }
    sink.write(b" ")?;
    names(program, sink, indices)
}

/// A target, at the beginning of a line.
pub fn target<K: Sink>(program: &Program, sink: &mut K, target: &Target) -> Result<(), Failed>
    ensures { Wrote (K.written sink.old) (K.written sink.new) (K.faults sink.old) (K.faults sink.new) (K.kept sink.old) (K.kept sink.new) (spec.target_text (tree program.now) target.now) result }
{
    match target {
        Target::Scalar(scalar) => sink.write(scalar_name(program, *scalar)),
        Target::Block(one) => block(program, sink, one),
    }
}
