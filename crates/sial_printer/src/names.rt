//! Names by their numbers.

ghost use Rattle.std.specs.Prelude.{◌≡◌};
ghost use Rattle.sial_syntax.specs.Tree.{tree};
ghost use Rattle.sial_printer.specs.Symbols as spec;

use sial_syntax::Program;

/// The name of an index; none where there is none of that number.
pub fn index_name(program: &Program, index: u16) -> &[u8]
    ensures { result.now ≡ spec.index_name (tree program.now) index }
{
    match program.indices.get(index as usize) {
        Some(index) => index.name.as_slice(),
        None => &[],
    }
}

/// The name of an array.
pub fn array_name(program: &Program, array: u16) -> &[u8]
    ensures { result.now ≡ spec.array_name (tree program.now) array }
{
    match program.arrays.get(array as usize) {
        Some(array) => array.name.as_slice(),
        None => &[],
    }
}

/// The name of a scalar.
pub fn scalar_name(program: &Program, scalar: u16) -> &[u8]
    ensures { result.now ≡ spec.scalar_name (tree program.now) scalar }
{
    match program.scalars.get(scalar as usize) {
        Some(name) => name.as_slice(),
        None => &[],
    }
}

/// The name of a procedure.
pub fn procedure_name(program: &Program, procedure: u16) -> &[u8]
    ensures { result.now ≡ spec.procedure_name (tree program.now) procedure }
{
    match program.procs.get(procedure as usize) {
        Some(procedure) => procedure.name.as_slice(),
        None => &[],
    }
}
