//! Why a program isn't granted.

use index_spaces::SpaceFault;
use input_text::InputFault;
use scalar_discipline::RuleFault;
use shape_check::ShapeFault;
use sial_parser::ParseFault;
use table_file::TableFault;
use table_verify::VerifyFault;

/// What is wrong with the file of a program.
#[derive(Clone, Copy, Drop)]
pub enum SyntaxFault {
    /// It is a text, and has a fault.
    Text(ParseFault),
    /// It is a table file, and reading it stops.
    File(TableFault),
    /// It is a table file, and its tables are those of no program.
    Tables(VerifyFault),
}

/// Why no program was granted, in the order in which the reasons are looked for.
#[derive(Drop)]
pub enum Refusal {
    /// The program's file wasn't read.
    NoProgram,
    /// The program's file is that of no program.
    NoTree(SyntaxFault),
    /// The program breaks a shape rule.
    Shape(ShapeFault),
    /// The program breaks a side rule.
    Sides(RuleFault),
    /// The input's file wasn't read.
    NoInput,
    /// The input's text has a fault.
    BadInput(InputFault),
    /// The input doesn't fit the program.
    Unfit(SpaceFault),
    /// No memory was found.
    OutOfMemory,
}
