//! Names and what they are declared as.

ghost use Rattle.std.specs.Prelude.{◌≡◌, ◌++◌, ◌∷◌, [], None, IfOk, OnOk};
ghost use Rattle.sial_parser.specs.Names as spec;
ghost use Rattle.sial_parser.specs.Scope as scope;

use crate::thing::Thing;
use indexmap::IndexMap;
use std::alloc::{AllocError, Global};

/// The declared names in order, each with what it is declared as.
#[derive(Drop)]
pub struct Names {
    things: IndexMap<Vec<u8>, Thing>,
}

impl Names {
    /// No name.
    pub fn new(alloc: Global) -> Names
        ensures { spec.seen result ≡ [] }
    {
        Names {
            things: IndexMap::new(alloc),
        }
    }

    /// What a name is declared as.
    pub fn thing(&self, name: &[u8]) -> Option<Thing>
        ensures { result ≡ scope.thing_of (spec.seen self.now) name.now }
    {
        self.things.get(name).copied()
    }

    /// Declares a name that isn't declared yet.
    pub fn declare(&mut self, alloc: Global, name: &[u8], thing: Thing) -> Result<(), AllocError>
        requires { scope.IsFree (spec.seen self.old) name.now }
        ensures { OnOk result (spec.seen self.new ≡ spec.seen self.old ++ record { name = name.now; thing = thing } ∷ []) }
    {
        let key = Vec::from_slice(alloc, name)?;
        self.things.insert(key, thing)?;
        Ok(())
    }

    /// The same names once more.
    pub fn copied(&self, alloc: Global) -> Result<Names, AllocError>
        ensures { IfOk result (λ names. spec.seen names ≡ spec.seen self.now) }
    {
        let mut names = Names::new(alloc);
        for (name, thing) in self.things.iter() {
            names.declare(alloc, name.as_slice(), *thing)?;
        }
        Ok(names)
    }
}
