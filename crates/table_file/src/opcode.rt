//! Operations by their numbers alone.

ghost use Rattle.std.specs.Prelude.{◌≡◌};
ghost use Rattle.table_file.specs.Opcodes as spec;

/// What an instruction does, without its operands.
#[derive(Clone, Copy)]
pub enum Opcode {
    Stop,
    Return,
    Do,
    EndDo,
    DoIn,
    If,
    Else,
    EndIf,
    Pardo,
    Where,
    EndPardo,
    Call,
    Assign,
    Get,
    Put,
    Request,
    Prepare,
    Create,
    Delete,
    Allocate,
    Deallocate,
    Collective,
    SipBarrier,
    ServerBarrier,
    Print,
    PrintScalar,
    Integrals,
}

/// The operation of a number.
pub fn opcode_of(number: u8) -> Option<Opcode>
    ensures { result ≡ spec.opcode_of number }
{
    match number {
        1 => Some(Opcode::Stop),
        2 => Some(Opcode::Return),
        3 => Some(Opcode::Do),
        4 => Some(Opcode::EndDo),
        5 => Some(Opcode::DoIn),
        7 => Some(Opcode::If),
        8 => Some(Opcode::Else),
        9 => Some(Opcode::EndIf),
        10 => Some(Opcode::Pardo),
        11 => Some(Opcode::Where),
        12 => Some(Opcode::EndPardo),
        13 => Some(Opcode::Call),
        14 => Some(Opcode::Assign),
        15 => Some(Opcode::Get),
        16 => Some(Opcode::Put),
        17 => Some(Opcode::Request),
        18 => Some(Opcode::Prepare),
        19 => Some(Opcode::Create),
        20 => Some(Opcode::Delete),
        21 => Some(Opcode::Allocate),
        22 => Some(Opcode::Deallocate),
        23 => Some(Opcode::Collective),
        24 => Some(Opcode::SipBarrier),
        25 => Some(Opcode::ServerBarrier),
        26 => Some(Opcode::Print),
        27 => Some(Opcode::PrintScalar),
        28 => Some(Opcode::Integrals),
        _ => None,
    }
}

/// Whether an operation begins a statement.
pub fn begins_statement(opcode: Opcode) -> bool
    ensures { result ≡ spec.begins_statement opcode }
{
    match opcode {
        Opcode::Stop => false,
        Opcode::Return => false,
        Opcode::EndDo => false,
        Opcode::Else => false,
        Opcode::EndIf => false,
        Opcode::Where => false,
        Opcode::EndPardo => false,
        _ => true,
    }
}
