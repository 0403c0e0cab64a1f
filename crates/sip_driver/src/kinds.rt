//! What the line of a fault tells of it: its place, and the name of its kind.

ghost use Rattle.std.specs.Prelude.{◌≡◌};
ghost use Rattle.sip_driver.specs.Kinds as spec;
ghost use Rattle.sip_driver.specs.Seen.{told_of};

use index_spaces::SpaceKind;
use input_text::InputFault;
use scalar_discipline::RuleFault;
use shape_check::ShapeFault;
use sial_lexer::LexKind;
use sial_parser::ParseFault;
use table_file::TableFault;
use table_verify::VerifyFault;

/// A fault's place, which is a line, a byte of a table file or an instruction, and the name of its kind.
#[derive(Clone, Copy)]
pub struct Told {
    pub place: u64,
    pub kind: &'static [u8],
}

// A kind at a place.
fn at_place(place: u64, kind: &'static [u8]) -> Told
    ensures { told_of result ≡ spec.at place kind.now }
{
    Told { place, kind }
}

// A kind at a line.
fn at(line: u32, kind: &'static [u8]) -> Told
    ensures { told_of result ≡ spec.at line kind.now }
{
    at_place(line as u64, kind)
}

/// A fault of a program's text.
pub fn syntax_told(fault: ParseFault) -> Told
    ensures { told_of result ≡ spec.syntax_told fault }
{
    match fault {
        ParseFault::Lex(lex) => at(lex.line, lex_kind(lex.kind)),
        ParseFault::Expected { line } => at(line, b"Expected"),
        ParseFault::Undeclared { line } => at(line, b"Undeclared"),
        ParseFault::Twice { line } => at(line, b"Twice"),
        ParseFault::EndName { line } => at(line, b"EndName"),
        ParseFault::TooMany { line, .. } => at(line, b"TooMany"),
        ParseFault::TooDeep { line } => at(line, b"TooDeep"),
        ParseFault::OutOfMemory => at(0, b"OutOfMemory"),
    }
}

// The name of a lexer's kind.
fn lex_kind(kind: LexKind) -> &'static [u8]
    ensures { result.now ≡ spec.lex_kind_of kind }
{
    match kind {
        LexKind::BadByte => b"BadByte",
        LexKind::Fraction => b"Fraction",
        LexKind::TooWide => b"TooWide",
        LexKind::OpenText => b"OpenText",
        LexKind::TooLong => b"TooLong",
        LexKind::OutOfMemory => b"OutOfMemory",
    }
}

/// A fault of a table file; one without a place stands at 0.
pub fn file_told(fault: TableFault) -> Told
    ensures { told_of result ≡ spec.file_told fault }
{
    match fault {
        TableFault::Magic => at_place(0, b"Magic"),
        TableFault::Version => at_place(0, b"Version"),
        TableFault::Short { at } => at_place(at, b"Short"),
        TableFault::Field { at } => at_place(at, b"Field"),
        TableFault::Rest { at } => at_place(at, b"Rest"),
        TableFault::TooMany { at } => at_place(at, b"TooMany"),
        TableFault::OutOfMemory => at_place(0, b"OutOfMemory"),
    }
}

/// A fault of the tables of a file, at an instruction.
pub fn tables_told(fault: VerifyFault) -> Told
    ensures { told_of result ≡ spec.tables_told fault }
{
    match fault {
        VerifyFault::Nest { instruction } => at(instruction, b"Nest"),
        VerifyFault::Target { instruction } => at(instruction, b"Target"),
        VerifyFault::Id { instruction } => at(instruction, b"Id"),
        VerifyFault::OutOfMemory => at(0, b"OutOfMemory"),
    }
}

/// A broken shape rule.
pub fn shape_told(fault: ShapeFault) -> Told
    ensures { told_of result ≡ spec.shape_told fault }
{
    match fault {
        ShapeFault::Unbound { line } => at(line, b"Unbound"),
        ShapeFault::Rebound { line } => at(line, b"Rebound"),
        ShapeFault::Repeated { line } => at(line, b"Repeated"),
        ShapeFault::WrongKind { line } => at(line, b"WrongKind"),
        ShapeFault::WrongIndices { line } => at(line, b"WrongIndices"),
        ShapeFault::NotWritable { line } => at(line, b"NotWritable"),
        ShapeFault::OutOfMemory => at(0, b"OutOfMemory"),
    }
}

/// A broken side rule.
pub fn side_told(fault: RuleFault) -> Told
    ensures { told_of result ≡ spec.side_told fault }
{
    match fault {
        RuleFault::PardoInPardo { line } => at(line, b"PardoInPardo"),
        RuleFault::SharedWriteOutside { line } => at(line, b"SharedWriteOutside"),
        RuleFault::SyncInside { line } => at(line, b"SyncInside"),
        RuleFault::PrintInside { line } => at(line, b"PrintInside"),
        RuleFault::StaticWriteInside { line } => at(line, b"StaticWriteInside"),
        RuleFault::MixedLocal { line } => at(line, b"MixedLocal"),
        RuleFault::MixedScalar { line } => at(line, b"MixedScalar"),
        RuleFault::PartialRead { line } => at(line, b"PartialRead"),
        RuleFault::Recursion { line } => at(line, b"Recursion"),
        RuleFault::CallTooDeep { line } => at(line, b"CallTooDeep"),
        RuleFault::OutOfMemory => at(0, b"OutOfMemory"),
    }
}

/// A fault of an input's text.
pub fn input_told(fault: InputFault) -> Told
    ensures { told_of result ≡ spec.input_told fault }
{
    match fault {
        InputFault::BadLine { line } => at(line, b"BadLine"),
        InputFault::TooWide { line } => at(line, b"TooWide"),
        InputFault::Twice { line } => at(line, b"Twice"),
        InputFault::TooMany { line } => at(line, b"TooMany"),
        InputFault::OutOfMemory => at(0, b"OutOfMemory"),
    }
}

/// The name of the kind of what doesn't fit.
pub fn space_kind(kind: SpaceKind) -> &'static [u8]
    ensures { result.now ≡ spec.space_kind_of kind }
{
    match kind {
        SpaceKind::NoConstant => b"NoConstant",
        SpaceKind::NoSegment => b"NoSegment",
        SpaceKind::NotWithin => b"NotWithin",
        SpaceKind::BlockTooWide => b"BlockTooWide",
        SpaceKind::TooManyBlocks => b"TooManyBlocks",
        SpaceKind::BadStart => b"BadStart",
        SpaceKind::OutOfMemory => b"OutOfMemory",
    }
}
