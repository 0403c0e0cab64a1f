//! Reserved words.

ghost use Rattle.std.specs.Prelude.{◌≡◌};
ghost use Rattle.sial_parser.specs.Words.{entry_of, keywords};

use crate::spelling::look_up;

/// A reserved word.
#[derive(Clone, Copy)]
pub enum Keyword {
    Sial,
    EndSial,
    AoIndex,
    MoIndex,
    MoaIndex,
    MobIndex,
    Index,
    SubIndex,
    Of,
    Scalar,
    Static,
    Temp,
    Local,
    Distributed,
    Served,
    Proc,
    EndProc,
    Do,
    In,
    EndDo,
    Pardo,
    Where,
    EndPardo,
    If,
    Else,
    EndIf,
    Call,
    Get,
    Put,
    Request,
    Prepare,
    Create,
    Delete,
    Allocate,
    Deallocate,
    Collective,
    SipBarrier,
    ServerBarrier,
    Print,
    Execute,
    PrintScalar,
    ComputeIntegrals,
}

const KEYWORDS: [(&[u8], Keyword); 42] = [
    (b"sial", Keyword::Sial),
    (b"endsial", Keyword::EndSial),
    (b"aoindex", Keyword::AoIndex),
    (b"moindex", Keyword::MoIndex),
    (b"moaindex", Keyword::MoaIndex),
    (b"mobindex", Keyword::MobIndex),
    (b"index", Keyword::Index),
    (b"subindex", Keyword::SubIndex),
    (b"of", Keyword::Of),
    (b"scalar", Keyword::Scalar),
    (b"static", Keyword::Static),
    (b"temp", Keyword::Temp),
    (b"local", Keyword::Local),
    (b"distributed", Keyword::Distributed),
    (b"served", Keyword::Served),
    (b"proc", Keyword::Proc),
    (b"endproc", Keyword::EndProc),
    (b"do", Keyword::Do),
    (b"in", Keyword::In),
    (b"enddo", Keyword::EndDo),
    (b"pardo", Keyword::Pardo),
    (b"where", Keyword::Where),
    (b"endpardo", Keyword::EndPardo),
    (b"if", Keyword::If),
    (b"else", Keyword::Else),
    (b"endif", Keyword::EndIf),
    (b"call", Keyword::Call),
    (b"get", Keyword::Get),
    (b"put", Keyword::Put),
    (b"request", Keyword::Request),
    (b"prepare", Keyword::Prepare),
    (b"create", Keyword::Create),
    (b"delete", Keyword::Delete),
    (b"allocate", Keyword::Allocate),
    (b"deallocate", Keyword::Deallocate),
    (b"collective", Keyword::Collective),
    (b"sip_barrier", Keyword::SipBarrier),
    (b"server_barrier", Keyword::ServerBarrier),
    (b"print", Keyword::Print),
    (b"execute", Keyword::Execute),
    (b"print_scalar", Keyword::PrintScalar),
    (b"compute_integrals", Keyword::ComputeIntegrals),
];

/// The reserved word that is spelled so.
pub fn keyword_of(word: &[u8]) -> Option<Keyword>
    ensures { result ≡ entry_of keywords word.now }
{
    look_up(KEYWORDS.as_slice(), word)
}
