//! Texts and code that grow.

ghost use Rattle.std.specs.Prelude.{◌≡◌, ◌++◌, ◌∷◌, [], IfOk, OnOk, length, slice_set, ◌<◌};
ghost use Rattle.sip_tables.specs.Code.{instruction};
ghost use Rattle.table_compiler.specs.Grown.{Adds, Names, printing};

use crate::numbers::number;
use sial_syntax::Text;
use sip_files::OutOfMemory;
use sip_tables::{Instruction, Operation};
use std::alloc::Global;

/// Texts and code so far.
#[derive(Drop)]
pub struct Flat {
    pub texts: Vec<Text>,
    pub code: Vec<Instruction>,
}

impl Flat {
    /// Nothing yet.
    pub fn new(alloc: Global) -> Flat
        ensures texts { result.texts.items ≡ [] }
        ensures code { result.code.items ≡ [] }
    {
        Flat {
            texts: Vec::new(alloc),
            code: Vec::new(alloc),
        }
    }

    /// The number of the next instruction.
    pub fn place(&self) -> Result<u32, OutOfMemory>
        ensures { IfOk result (λ n. n ≡ length self.now.code.items) }
    {
        number(self.code.len())
    }

    /// Puts an instruction behind the others.
    pub fn put(&mut self, line: u32, operation: Operation) -> Result<(), OutOfMemory>
        ensures { OnOk result (Adds self.old self.new [] (instruction line operation ∷ [])) }
    {
        self.code.push(Instruction { line, operation })?;
        Ok(())
    }

    /// Puts a text behind the others, and gives its number.
    pub fn name(&mut self, alloc: Global, text: &Text) -> Result<u32, OutOfMemory>
        ensures number { IfOk result (λ n. n ≡ length self.old.texts.items) }
        ensures texts { OnOk result (Names self.old self.new (text.now ∷ [])) }
    {
        let place = number(self.texts.len())?;
        self.texts.push(Text::from_slice(alloc, text.as_slice())?)?;
        Ok(place)
    }

    /// Puts an instruction behind the others whose operation comes later, and gives its number.
    pub fn reserve(&mut self, line: u32) -> Result<u32, OutOfMemory>
        ensures number { IfOk result (λ n. n ≡ length self.old.code.items) }
        ensures added { OnOk result (Adds self.old self.new [] (instruction line Operation.Stop ∷ [])) }
    {
        let place = self.place()?;
        self.put(line, Operation::Stop)?;
        Ok(place)
    }

    /// Puts a printed text behind the other texts, and its instruction behind the others.
    pub fn print(&mut self, alloc: Global, line: u32, text: &Text) -> Result<(), OutOfMemory>
        ensures { OnOk result (Adds self.old self.new (text.now ∷ []) (printing line self.old ∷ [])) }
    {
        let text = self.name(alloc, text)?;
        self.put(line, Operation::Print { text })
    }

    /// Puts an operation in place of that of an instruction.
    pub fn set(&mut self, at: u32, line: u32, operation: Operation)
        requires { at < length self.old.code.items }
        ensures texts { self.new.texts.items ≡ self.old.texts.items }
        ensures code { self.new.code.items ≡ slice_set self.old.code.items at (instruction line operation) }
    {
        self.code[at as usize] = Instruction { line, operation };
    }
}
