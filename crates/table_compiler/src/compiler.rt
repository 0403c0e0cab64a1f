//! The compiler.

ghost use Rattle.std.specs.Prelude.{◌≡◌, [], IfOk, OnOk, map};
ghost use Rattle.sial_syntax.specs.Tree.{procedure as spec_procedure, tree};
ghost use Rattle.sip_tables.specs.Code.{entries_of};
ghost use Rattle.sip_tables.specs.Flatten.{flatten};
ghost use Rattle.table_compiler.specs.Grown.{AddsProcedure, AddsProcedures, AddsProgram};

use crate::declared::{Declared, declare};
use crate::entries::entries;
use crate::flat::Flat;
use crate::numbers::plus;
use crate::sizes::sizes;
use crate::statements::body;
use sial_syntax::{Proc, Program};
use sip_files::OutOfMemory;
use sip_tables::{Operation, Tables};
use std::alloc::Global;

/// The tables of a program, in time linear in it.
pub fn compile(alloc: Global, program: &Program) -> Result<Tables, OutOfMemory>
    ensures value { IfOk result (λ t. t ≡ flatten (tree program.now)) }
{
    let entries = procedure_entries(alloc, program)?;
    let mut flat = Flat::new(alloc);
    let declared = declare(alloc, entries.as_slice(), &mut flat, program)?;
    code(alloc, entries.as_slice(), &mut flat, program)?;
    Ok(tables(declared, flat))
}

// The tables of entries, texts and code.
fn tables(declared: Declared, flat: Flat) -> Tables
    ensures texts { result.texts ≡ flat.texts.items }
    ensures indices { result.indices ≡ declared.indices.items }
    ensures arrays { result.arrays ≡ declared.arrays.items }
    ensures scalars { result.scalars ≡ declared.scalars.items }
    ensures procedures { result.procedures ≡ declared.procedures.items }
    ensures code { result.code ≡ flat.code.items }
{
    let Declared {
        indices,
        arrays,
        scalars,
        procedures,
    } = declared;
    let Flat { texts, code } = flat;
    Tables::new(texts, indices, arrays, scalars, procedures, code)
}

// The numbers of the procedures' first instructions: the first of them stands behind the program's stop.
fn procedure_entries(alloc: Global, program: &Program) -> Result<Vec<u32>, OutOfMemory>
    ensures { IfOk result (λ v. v.items ≡ entries_of (tree program.now)) }
{
    let first = plus(sizes(program.body.as_slice())?, 1)?;
    entries(alloc, first, program.procs.as_slice())
}

// The texts and the code of statements: the program's body, its stop, and its procedures.
fn code(
    alloc: Global,
    entries: &[u32],
    flat: &mut Flat,
    program: &Program,
) -> Result<(), OutOfMemory>
    requires entries { entries.now ≡ entries_of (tree program.now) }
    requires empty { flat.old.code.items ≡ [] }
    ensures { OnOk result (AddsProgram flat.old flat.new (tree program.now)) }
{
    body(alloc, entries, flat, program.body.as_slice())?;
    flat.put(0, Operation::Stop)?;
    procedures_code(alloc, entries, flat, program.procs.as_slice())?;
    Ok(())
}

// The texts and the code of procedures.
fn procedures_code(
    alloc: Global,
    entries: &[u32],
    flat: &mut Flat,
    procedures: &[Proc],
) -> Result<(), OutOfMemory>
    ensures { OnOk result (AddsProcedures entries.now flat.old flat.new (map spec_procedure procedures.now)) }
{
    for procedure in procedures {
        procedure_code(alloc, entries, flat, procedure)?;
    }
    Ok(())
}

// The texts and the code of a procedure, with its return.
#[tactic(auto, using(crate::proofs::ProgramLemmas::procedure_adds))]
fn procedure_code(
    alloc: Global,
    entries: &[u32],
    flat: &mut Flat,
    procedure: &Proc,
) -> Result<(), OutOfMemory>
    ensures { OnOk result (AddsProcedure entries.now flat.old flat.new (spec_procedure procedure.now)) }
{
    body(alloc, entries, flat, procedure.body.as_slice())?;
    flat.put(0, Operation::Return)
}
