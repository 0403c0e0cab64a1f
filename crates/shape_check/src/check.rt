//! The shape rules of a whole program.

ghost use Rattle.std.specs.Prelude.{◌≡◌, IfErr, IfOk, OnOk, None};
ghost use Rattle.sial_syntax.specs.Shapes.{shape_fault};
ghost use Rattle.sial_syntax.specs.Tree.{tree};
ghost use Rattle.shape_check.specs.Known.{IsKnown, tree_of};
ghost use Rattle.shape_check.specs.Refused.{IsCause, seen};
ghost use Rattle.shape_check.specs.Walk.{first_of};

use crate::declarations::{first_of_arrays, first_of_indices};
use crate::declared::Declared;
use crate::fault::ShapeFault;
use crate::kinds::kinds;
use crate::walk::{first_in, first_of_procedures};
use sial_syntax::Program;
use std::alloc::{AllocError, Global};

/// Grants a program that keeps the shape rules, and refuses any other by its first fault. The tree need not be proper.
pub fn shapes(alloc: Global, program: &Program) -> Result<(), ShapeFault>
    ensures granted { OnOk result (shape_fault (tree program.now) ≡ None) }

    // The first by line, and on one line by the rule's number.
    ensures fault { IfErr result (IsCause (tree program.now)) }
{
    match first_fault(alloc, program)? {
        Some(fault) => Err(fault),
        None => Ok(()),
    }
}

// The first fault of a program.
fn first_fault(alloc: Global, program: &Program) -> Result<Option<ShapeFault>, AllocError>
    ensures { IfOk result (λ found. seen found ≡ first_of (tree program.now)) }
{
    let kinds = kinds(alloc, program.indices.as_slice())?;
    let declared = Declared {
        program,
        kinds: kinds.as_slice(),
    };
    first_of_all(alloc, &declared)
}

// The first fault of declarations, body and procedures.
fn first_of_all(alloc: Global, declared: &Declared) -> Result<Option<ShapeFault>, AllocError>
    requires { IsKnown declared.now }
    ensures { IfOk result (λ found. seen found ≡ first_of (tree_of declared.now)) }
{
    let program = declared.program;
    let first = first_of_indices(declared, program.indices.as_slice(), None);
    let first = first_of_arrays(declared, program.arrays.as_slice(), first);
    let first = first_in(alloc, declared, &[], program.body.as_slice(), first)?;
    first_of_procedures(alloc, declared, program.procs.as_slice(), first)
}
