//! Start values of blocks.

ghost use Rattle.std.specs.Prelude.{◌≡◌, ◌++◌, ◌∷◌, [], true, not, length, IfOk};
ghost use Rattle.input_text.specs.Adding.{has_block, start_of};
ghost use Rattle.input_text.specs.Seen as spec;

use indexmap::IndexSet;
use sip_input::BlockLine;
use std::alloc::{AllocError, Global};

/// Which block a line is for.
#[derive(PartialEq, Eq, Hash, Drop)]
pub struct BlockName {
    name: Vec<u8>,
    segments: Vec<u32>,
}

/// The lines of blocks in order, with the set of their names.
#[derive(Drop)]
pub struct BlockLines {
    lines: Vec<BlockLine>,
    names: IndexSet<BlockName>,
}

impl BlockLines {
    /// No line.
    pub fn new(alloc: Global) -> BlockLines
        ensures none { spec.starts result ≡ [] }
        ensures keyed { spec.AreKeyed result }
    {
        BlockLines {
            lines: Vec::new(alloc),
            names: IndexSet::new(alloc),
        }
    }

    /// Adds a line, where its block has none yet; says whether it was added.
    pub fn add(&mut self, alloc: Global, line: BlockLine) -> Result<bool, AllocError>
        requires { spec.AreKeyed self.old }
        ensures new { IfOk result (λ new. new ≡ not (has_block (spec.starts self.old) line.name line.segments.items)) }
        ensures lines { IfOk result (λ new. new ≡ true → spec.starts self.new ≡ spec.starts self.old ++ start_of line ∷ []) }
        ensures keyed { IfOk result (λ new. new ≡ true → spec.AreKeyed self.new) }
    {
        let name = name_of(alloc, &line)?;
        let new = self.names.insert(name)?;
        if new {
            self.lines.push(line)?;
        }
        Ok(new)
    }

    /// How many lines there are.
    pub fn len(&self) -> usize
        ensures { result ≡ length (spec.starts self.now) }
    {
        self.lines.len()
    }

    /// The lines.
    pub fn into_lines(self) -> Vec<BlockLine>
        ensures { result ≡ self.lines }
    {
        self.lines
    }
}

// The block that a line is for.
fn name_of(alloc: Global, line: &BlockLine) -> Result<BlockName, AllocError>
    ensures { IfOk result (λ name. spec.key_of name ≡ spec.block_key (start_of line.now)) }
{
    Ok(BlockName {
        name: Vec::from_slice(alloc, line.name.as_slice())?,
        segments: Vec::from_slice(alloc, line.segments.as_slice())?,
    })
}
