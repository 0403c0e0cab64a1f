//! What the lines so far give.

ghost use Rattle.std.specs.Prelude.{◌≡◌, IfOk, OnOk};
ghost use Rattle.input_text.specs.Adding as given;
ghost use Rattle.input_text.specs.LineReading as spec;
ghost use Rattle.input_text.specs.Seen.{IsTied, seen};
ghost use Rattle.input_text.specs.declared.said.Said.TheVariants as said;

use crate::block_lines::BlockLines;
use crate::fault::InputFault;
use crate::has::{has_constant, has_lengths, has_piece};
use crate::numbers::Numbers;
use crate::pushing::push;
use crate::said::Said;
use crate::scalar_lines::ScalarLines;
use crate::values::{Value, Values, has_wide, numbers_of};
use sial_syntax::{Kind, Text};
use sip_input::{BlockLine, Constant, Input, PieceLength, ScalarLine, SegmentLengths};
use std::alloc::{AllocError, Global};

const MOST_CONSTANTS: usize = 256;

const MOST_SEGMENTS: usize = 4096;

const MOST_STARTS: usize = 65_536;

/// What the lines so far give.
#[derive(Drop)]
pub struct Building {
    constants: Vec<Constant>,
    segments: Vec<SegmentLengths>,
    pieces: Vec<PieceLength>,
    scalars: ScalarLines,
    blocks: BlockLines,
}

impl Building {
    /// Nothing.
    pub fn new(alloc: Global) -> Building
        ensures nothing { seen result ≡ given.nothing }
        ensures tied { IsTied result }
    {
        Building {
            constants: Vec::new(alloc),
            segments: Vec::new(alloc),
            pieces: Vec::new(alloc),
            scalars: ScalarLines::new(alloc),
            blocks: BlockLines::new(alloc),
        }
    }

    /// The input.
    pub fn into_input(self) -> Input
        ensures { given.given_by result ≡ seen self }
    {
        Input {
            constants: self.constants,
            segments: self.segments,
            pieces: self.pieces,
            scalars: self.scalars.into_lines(),
            blocks: self.blocks.into_lines(),
        }
    }

    /// Adds what a line says.
    pub fn add(&mut self, alloc: Global, line: u32, said: Said) -> Result<(), InputFault>
        requires { IsTied self.old }
        ensures exact { spec.Gives (λ _. seen self.new) result (spec.add (seen self.old) line said) }
        ensures tied { OnOk result (IsTied self.new) }
    {
        match said {
            Said::Nothing => Ok(()),
            Said::Constant { name, value } => self.add_constant(line, name, value),
            Said::Segments { kind, lengths } => self.add_segments(line, kind, lengths),
            Said::Subsegment { kind, size } => self.add_subsegment(line, kind, size),
            Said::Scalar { name, value } => self.add_scalar(alloc, line, name, value),
            Said::Block {
                name,
                segments,
                elements,
            } => self.add_block(alloc, line, name, segments, elements),
        }
    }

    fn add_constant(&mut self, line: u32, name: Text, value: Option<u64>) -> Result<(), InputFault>
        requires { IsTied self.old }
        ensures exact { spec.Gives (λ _. seen self.new) result (spec.add (seen self.old) line (said.Constant name value)) }
        ensures tied { OnOk result (IsTied self.new) }
    {
        let Some(value) = value else {
            return Err(InputFault::TooWide { line });
        };
        if has_constant(self.constants.as_slice(), name.as_slice()) {
            return Err(InputFault::Twice { line });
        }
        if self.constants.len() >= MOST_CONSTANTS {
            return Err(InputFault::TooMany { line });
        }
        push(&mut self.constants, Constant { name, value })?;
        Ok(())
    }

    fn add_segments(&mut self, line: u32, kind: Kind, lengths: Numbers) -> Result<(), InputFault>
        requires { IsTied self.old }
        ensures exact { spec.Gives (λ _. seen self.new) result (spec.add (seen self.old) line (said.Segments kind lengths)) }
        ensures tied { OnOk result (IsTied self.new) }
    {
        if has_lengths(self.segments.as_slice(), kind) {
            return Err(InputFault::Twice { line });
        }
        let lengths = lengths.into_vec();
        if lengths.len() > MOST_SEGMENTS {
            return Err(InputFault::TooMany { line });
        }
        push(&mut self.segments, SegmentLengths { kind, lengths })?;
        Ok(())
    }

    fn add_subsegment(&mut self, line: u32, kind: Kind, size: u32) -> Result<(), InputFault>
        requires { IsTied self.old }
        ensures exact { spec.Gives (λ _. seen self.new) result (spec.add (seen self.old) line (said.Subsegment kind size)) }
        ensures tied { OnOk result (IsTied self.new) }
    {
        if has_piece(self.pieces.as_slice(), kind) {
            return Err(InputFault::Twice { line });
        }
        push(&mut self.pieces, PieceLength { kind, length: size })?;
        Ok(())
    }

    fn add_scalar(
        &mut self,
        alloc: Global,
        line: u32,
        name: Text,
        value: Value,
    ) -> Result<(), InputFault>
        requires { IsTied self.old }
        ensures exact { spec.Gives (λ _. seen self.new) result (spec.add (seen self.old) line (said.Scalar name value)) }
        ensures tied { OnOk result (IsTied self.new) }
    {
        if value.is_wide() {
            return Err(InputFault::TooWide { line });
        }
        let value = value.number();
        let new = self.scalars.add(alloc, ScalarLine { line, name, value })?;
        if new {
            Ok(())
        } else {
            Err(InputFault::Twice { line })
        }
    }

    fn add_block(
        &mut self,
        alloc: Global,
        line: u32,
        name: Text,
        segments: Numbers,
        elements: Values,
    ) -> Result<(), InputFault>
        requires { IsTied self.old }
        ensures exact { spec.Gives (λ _. seen self.new) result (spec.add (seen self.old) line (said.Block name segments elements)) }
        ensures tied { OnOk result (IsTied self.new) }
    {
        if has_wide(elements.as_slice()) {
            return Err(InputFault::TooWide { line });
        }
        let full = self.blocks.len() >= MOST_STARTS;
        let block = block_line(alloc, line, name, segments, elements)?;
        let new = self.blocks.add(alloc, block)?;
        if !new {
            return Err(InputFault::Twice { line });
        }
        if full {
            Err(InputFault::TooMany { line })
        } else {
            Ok(())
        }
    }
}

// A line of a block, with the numbers that its values are.
fn block_line(
    alloc: Global,
    line: u32,
    name: Text,
    segments: Numbers,
    elements: Values,
) -> Result<BlockLine, AllocError>
    ensures { IfOk result (λ b. given.start_of b ≡ given.start_at line name segments elements) }
{
    let elements = numbers_of(alloc, elements.as_slice())?;
    Ok(BlockLine {
        line,
        name,
        segments: segments.into_vec(),
        elements,
    })
}
