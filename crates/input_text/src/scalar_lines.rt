//! Start values of scalars.

ghost use Rattle.std.specs.Prelude.{◌≡◌, ◌++◌, ◌∷◌, [], true, not, IfOk};
ghost use Rattle.input_text.specs.Adding.{has_scalar};
ghost use Rattle.input_text.specs.Seen as spec;

use indexmap::IndexSet;
use sip_input::ScalarLine;
use std::alloc::{AllocError, Global};

/// The lines of scalars in order, with the set of their names.
#[derive(Drop)]
pub struct ScalarLines {
    lines: Vec<ScalarLine>,
    names: IndexSet<Vec<u8>>,
}

impl ScalarLines {
    /// No line.
    pub fn new(alloc: Global) -> ScalarLines
        ensures none { result.lines.items ≡ [] }
        ensures named { spec.AreNamed result }
    {
        ScalarLines {
            lines: Vec::new(alloc),
            names: IndexSet::new(alloc),
        }
    }

    /// Adds a line, where its scalar has none yet; says whether it was added.
    pub fn add(&mut self, alloc: Global, line: ScalarLine) -> Result<bool, AllocError>
        requires { spec.AreNamed self.old }
        ensures new { IfOk result (λ new. new ≡ not (has_scalar self.old.lines.items line.name)) }
        ensures lines { IfOk result (λ new. new ≡ true → self.new.lines.items ≡ self.old.lines.items ++ line ∷ []) }
        ensures named { IfOk result (λ new. new ≡ true → spec.AreNamed self.new) }
    {
        let name = Vec::from_slice(alloc, line.name.as_slice())?;
        let new = self.names.insert(name)?;
        if new {
            self.lines.push(line)?;
        }
        Ok(new)
    }

    /// The lines.
    pub fn into_lines(self) -> Vec<ScalarLine>
        ensures { result ≡ self.lines }
    {
        self.lines
    }
}
