//! How reserved words and signs are spelled.

ghost use Rattle.std.specs.Prelude.{◌≡◌};
ghost use Rattle.sial_printer.specs.Spelling.{key_spelling, sign_spelling};
ghost use Rattle.sial_printer.specs.Symbols as spec;

use sial_parser::Keyword;
use sial_syntax::{Bin, Op, Test};

/// The spelling of a reserved word.
pub fn key_bytes(key: Keyword) -> &'static [u8]
    ensures { result.now ≡ key_spelling key }
{
    match key {
        Keyword::Sial => b"sial",
        Keyword::EndSial => b"endsial",
        Keyword::AoIndex => b"aoindex",
        Keyword::MoIndex => b"moindex",
        Keyword::MoaIndex => b"moaindex",
        Keyword::MobIndex => b"mobindex",
        Keyword::Index => b"index",
        Keyword::SubIndex => b"subindex",
        Keyword::Of => b"of",
        Keyword::Scalar => b"scalar",
        Keyword::Static => b"static",
        Keyword::Temp => b"temp",
        Keyword::Local => b"local",
        Keyword::Distributed => b"distributed",
        Keyword::Served => b"served",
        Keyword::Proc => b"proc",
        Keyword::EndProc => b"endproc",
        Keyword::Do => b"do",
        Keyword::In => b"in",
        Keyword::EndDo => b"enddo",
        Keyword::Pardo => b"pardo",
        Keyword::Where => b"where",
        Keyword::EndPardo => b"endpardo",
        Keyword::If => b"if",
        Keyword::Else => b"else",
        Keyword::EndIf => b"endif",
        Keyword::Call => b"call",
        Keyword::Get => b"get",
        Keyword::Put => b"put",
        Keyword::Request => b"request",
        Keyword::Prepare => b"prepare",
        Keyword::Create => b"create",
        Keyword::Delete => b"delete",
        Keyword::Allocate => b"allocate",
        Keyword::Deallocate => b"deallocate",
        Keyword::Collective => b"collective",
        Keyword::SipBarrier => b"sip_barrier",
        Keyword::ServerBarrier => b"server_barrier",
        Keyword::Print => b"print",
        Keyword::Execute => b"execute",
        Keyword::PrintScalar => b"print_scalar",
        Keyword::ComputeIntegrals => b"compute_integrals",
    }
}

/// The sign of an assignment.
pub fn op_bytes(op: Op) -> &'static [u8]
    ensures { result.now ≡ sign_spelling (spec.op_sign op) }
{
    match op {
        Op::Set => b"=",
        Op::Add => b"+=",
        Op::Subtract => b"-=",
        Op::Scale => b"*=",
    }
}

/// The sign between two operands.
pub fn bin_bytes(bin: Bin) -> &'static [u8]
    ensures { result.now ≡ sign_spelling (spec.bin_sign bin) }
{
    match bin {
        Bin::Plus => b"+",
        Bin::Minus => b"-",
        Bin::Times => b"*",
        Bin::Outer => b"^",
    }
}

/// The sign of a comparison.
pub fn test_bytes(test: Test) -> &'static [u8]
    ensures { result.now ≡ sign_spelling (spec.test_sign test) }
{
    match test {
        Test::Less => b"<",
        Test::LessEqual => b"<=",
        Test::Greater => b">",
        Test::GreaterEqual => b">=",
        Test::Equal => b"==",
        Test::NotEqual => b"!=",
    }
}
