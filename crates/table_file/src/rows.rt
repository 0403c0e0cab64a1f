//! Instructions as rows: an operation's number, a mode, a line, a jump and three operands.

ghost use Rattle.std.specs.Prelude.{◌≡◌, ◌++◌};
ghost use Rattle.table_file.specs.Bytes as spec;
ghost use Rattle.table_file.specs.Rows.{row_bytes};

use crate::numbers::{bin_number, how_number, op_number, test_number};
use crate::parts::{
    array_part, block_part, first_indices, index_part, no_part, operand_part, other_indices,
    procedure_part, scalar_part, slots_part, target_part, text_part, value_part,
};
use byteorder::{BigEndian, ByteOrder};
use sial_syntax::{Access, BlockRef, Cond, Op, Right, Target};
use sip_tables::{Instruction, Operation};

/// An instruction's fields.
#[derive(Drop)]
pub struct Row {
    pub operation: u8,
    pub mode: u8,
    pub line: u32,
    pub jump: u32,
    pub a: [u8; 16],
    pub b: [u8; 16],
    pub c: [u8; 16],
}

// An operation with no operand.
fn bare(operation: u8, line: u32, jump: u32) -> Row
    ensures { row_bytes result ≡ spec.bare operation line jump }
{
    single(operation, line, jump, no_part())
}

// An operation with one operand.
fn single(operation: u8, line: u32, jump: u32, a: [u8; 16]) -> Row
    ensures { row_bytes result ≡ spec.single operation line jump a }
{
    double(operation, line, jump, a, no_part())
}

// An operation with two operands.
fn double(operation: u8, line: u32, jump: u32, a: [u8; 16], b: [u8; 16]) -> Row
    ensures { row_bytes result ≡ spec.row operation 0 line jump a b spec.no_part }
{
    Row {
        operation,
        mode: 0,
        line,
        jump,
        a,
        b,
        c: no_part(),
    }
}

// A test.
fn test(operation: u8, line: u32, jump: u32, cond: Cond) -> Row
    ensures { row_bytes result ≡ spec.test_row operation line jump cond }
{
    Row {
        operation,
        mode: test_number(cond.test),
        line,
        jump,
        a: value_part(cond.left),
        b: value_part(cond.right),
        c: no_part(),
    }
}

// An assignment.
fn assign(line: u32, target: &Target, op: Op, right: &Right) -> Row
    ensures { row_bytes result ≡ spec.assign_row line target.now op right.now }
{
    let (mode, b, c) = match right {
        Right::One(b) => (0, operand_part(b), no_part()),
        Right::Two(b, bin, c) => (bin_number(*bin), operand_part(b), operand_part(c)),
    };
    Row {
        operation: 14,
        mode: 16 * op_number(op) + mode,
        line,
        jump: 0,
        a: target_part(target),
        b,
        c,
    }
}

// A block that is put into another.
fn put(operation: u8, line: u32, block: &BlockRef, how: Access, from: &BlockRef) -> Row
    ensures { row_bytes result ≡ spec.put_row operation line block.now how from.now }
{
    Row {
        operation,
        mode: how_number(how),
        line,
        jump: 0,
        a: block_part(block),
        b: block_part(from),
        c: no_part(),
    }
}

/// The row of an instruction.
pub fn row_of(instruction: &Instruction) -> Row
    ensures { row_bytes result ≡ spec.instruction_bytes instruction.now }
{
    let line = instruction.line;
    match &instruction.operation {
        Operation::Stop => bare(1, line, 0),
        Operation::Return => bare(2, line, 0),
        Operation::Do { index, past } => single(3, line, *past, index_part(*index)),
        Operation::EndDo { head } => bare(4, line, *head),
        Operation::DoIn { sub, index, past } => {
            double(5, line, *past, index_part(*sub), index_part(*index))
        }
        Operation::If { cond, otherwise } => test(7, line, *otherwise, *cond),
        Operation::Else { past } => bare(8, line, *past),
        Operation::EndIf => bare(9, line, 0),
        Operation::Pardo { indices, end } => {
            let indices = indices.as_slice();
            double(
                10,
                line,
                *end,
                first_indices(indices),
                other_indices(indices),
            )
        }
        Operation::Where { cond } => test(11, line, 0, *cond),
        Operation::EndPardo { head } => bare(12, line, *head),
        Operation::Call { procedure, entry } => {
            single(13, line, *entry, procedure_part(*procedure))
        }
        Operation::Assign { target, op, right } => assign(line, target, *op, right),
        Operation::Get { block } => single(15, line, 0, block_part(block)),
        Operation::Put { block, how, from } => put(16, line, block, *how, from),
        Operation::Request { block } => single(17, line, 0, block_part(block)),
        Operation::Prepare { block, how, from } => put(18, line, block, *how, from),
        Operation::Create { array } => single(19, line, 0, array_part(*array)),
        Operation::Delete { array } => single(20, line, 0, array_part(*array)),
        Operation::Allocate { array, at } => single(21, line, 0, slots_part(*array, at.as_slice())),
        Operation::Deallocate { array, at } => {
            single(22, line, 0, slots_part(*array, at.as_slice()))
        }
        Operation::Collective { into, from } => {
            double(23, line, 0, scalar_part(*into), scalar_part(*from))
        }
        Operation::SipBarrier => bare(24, line, 0),
        Operation::ServerBarrier => bare(25, line, 0),
        Operation::Print { text } => single(26, line, 0, text_part(*text)),
        Operation::PrintScalar { scalar } => single(27, line, 0, scalar_part(*scalar)),
        Operation::Integrals { block } => single(28, line, 0, block_part(block)),
    }
}

/// The bytes of a row before its operands.
pub fn row_head(row: &Row) -> [u8; 12]
    ensures { result ≡ spec.row_head row.now.operation row.now.mode row.now.line row.now.jump }
{
    let mut head = [0u8; 12];
    head[0] = row.operation;
    head[1] = row.mode;
    BigEndian::write_u32(&mut head[4..], row.line);
    BigEndian::write_u32(&mut head[8..], row.jump);
    head
}
