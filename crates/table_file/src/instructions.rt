//! Instructions, read field by field.

ghost use Rattle.std.specs.Prelude.{◌≡◌};
ghost use Rattle.table_file.specs.Fields.{Gives};
ghost use Rattle.table_file.specs.Instructions as spec;

use crate::control::{
    branch, call, end_do, end_pardo, ending, loop_head, pardo_head, past_else, pieces_head,
    where_line,
};
use crate::fault::TableFault;
use crate::opcode::Opcode;
use crate::simple::{
    allocate, assignment, collection, create, deallocate, delete, get, integrals, prepare, print,
    print_scalar, put, request,
};
use sial_syntax::Text;
use sip_tables::{Instruction, Operation};
use std::alloc::Global;

/// The rest of an instruction behind its operation.
#[tactic(auto, unfolding(crate::specs::Instructions::instruction))]
pub fn instruction(
    alloc: Global,
    version: u16,
    texts: &[Text],
    opcode: Opcode,
    bytes: &[u8],
    at: usize,
) -> Result<(Instruction, usize), TableFault>
    ensures { Gives (λ x. x) result (spec.instruction version texts.now opcode bytes.now at) }
{
    match opcode {
        Opcode::Stop => ending(Operation::Stop, bytes, at),
        Opcode::Return => ending(Operation::Return, bytes, at),
        Opcode::Do => loop_head(bytes, at),
        Opcode::EndDo => end_do(bytes, at),
        Opcode::DoIn => pieces_head(bytes, at),
        Opcode::If => branch(bytes, at),
        Opcode::Else => past_else(bytes, at),
        Opcode::EndIf => ending(Operation::EndIf, bytes, at),
        Opcode::Pardo => pardo_head(alloc, bytes, at),
        Opcode::Where => where_line(bytes, at),
        Opcode::EndPardo => end_pardo(bytes, at),
        Opcode::Call => call(bytes, at),
        Opcode::Assign => assignment(alloc, bytes, at),
        Opcode::Get => get(alloc, bytes, at),
        Opcode::Put => put(alloc, version, bytes, at),
        Opcode::Request => request(alloc, bytes, at),
        Opcode::Prepare => prepare(alloc, version, bytes, at),
        Opcode::Create => create(bytes, at),
        Opcode::Delete => delete(bytes, at),
        Opcode::Allocate => allocate(alloc, bytes, at),
        Opcode::Deallocate => deallocate(alloc, bytes, at),
        Opcode::Collective => collection(bytes, at),
        Opcode::SipBarrier => ending(Operation::SipBarrier, bytes, at),
        Opcode::ServerBarrier => ending(Operation::ServerBarrier, bytes, at),
        Opcode::Print => print(texts, bytes, at),
        Opcode::PrintScalar => print_scalar(bytes, at),
        Opcode::Integrals => integrals(alloc, bytes, at),
    }
}
