//! Whole programs.

ghost use Rattle.std.specs.Prelude.{◌≡◌, [], IfErr, IfOk, IsTrue, map};
ghost use Rattle.std.specs.List.{enumerate_from};
ghost use Rattle.sial_syntax.specs.Proper.{IsProper};
ghost use Rattle.sial_syntax.specs.Tree.{Tree, procedure as spec_procedure, tree};
ghost use Rattle.sip_tables.specs.Flatten.{flatten};
ghost use Rattle.table_verify.specs.Answers.{Answers};
ghost use Rattle.table_verify.specs.FirstFaults.{Tells};
ghost use Rattle.table_verify.specs.Names.{each};
ghost use Rattle.table_verify.specs.Passing.{all_numbers, verified};
ghost use Rattle.table_verify.specs.Reading as spec;
ghost use Rattle.table_verify.specs.Rest.{Gives, seen};

use crate::closings::{return_from, stop};
use crate::declared::{arrays, indices, procedures, scalars};
use crate::fault::VerifyFault;
use crate::first::refusal;
use crate::passing::passes;
use crate::read_fault::ReadFault;
use crate::rest::{Rest, next, text};
use crate::statements::{Whole, body};
use sial_syntax::{Proc, Program, Text};
use sip_tables::{ProcedureEntry, Tables};
use std::alloc::{AllocError, Global};

const MOST_NESTING: u32 = 32;

/// The program whose tables these are, in time linear in them; where they are those of no proper program, their first fault.
#[tactic(auto, using(crate::proofs::Passed::ok_found, crate::proofs::Passed::ok_proper, crate::proofs::Passed::ok_only, crate::proofs::Passed::err_only))]
pub fn unflatten(alloc: Global, tables: &Tables) -> Result<Program, VerifyFault>
    // What is given is a proper program, and these are its tables.
    ensures found { IfOk result (λ p. flatten (tree p) ≡ tables.now) }
    ensures proper { IfOk result (λ p. IsProper (tree p)) }

    // A proper program that has these tables is given, unless memory runs out.
    ensures only { (p : Tree) → IsProper p → flatten p ≡ tables.now → Answers p result }

    // What is told otherwise is the first fault of the tables.
    ensures first { IfErr result (λ told. Tells tables.now told) }
{
    match verify(alloc, tables) {
        Ok(program) => Ok(program),
        Err(ReadFault::NotAProgram) => Err(refusal(alloc, tables)),
        Err(ReadFault::OutOfMemory) => Err(VerifyFault::OutOfMemory),
    }
}

// A program that was read, if it passes.
#[tactic(auto, unfolding(crate::specs::Passing::verified))]
fn verify(alloc: Global, tables: &Tables) -> Result<Program, ReadFault>
    ensures exact { Gives tree result (verified tables.now) }
    ensures numbers { IfOk result (λ p. IsTrue (all_numbers (tree p))) }
{
    let program = read(alloc, tables)?;
    if passes(&program)? {
        Ok(program)
    } else {
        Err(ReadFault::NotAProgram)
    }
}

// A program with the code and the texts of these tables, if there is one.
#[tactic(auto, unfolding(crate::specs::Reading::read))]
fn read(alloc: Global, tables: &Tables) -> Result<Program, ReadFault>
    ensures { Gives tree result (spec.read tables.now) }
{
    let entries = entries(alloc, tables.procedures())?;
    let whole = Whole {
        entries: entries.as_slice(),
        len: tables.code_len(),
    };
    let (heads, rest) = heads(alloc, tables)?;
    let (program, rest) = bodies(alloc, whole, heads, rest)?;
    if code_is_over(rest) && texts_are_over(rest) {
        Ok(program)
    } else {
        Err(ReadFault::NotAProgram)
    }
}

// The numbers of the procedures' first instructions.
fn entries(alloc: Global, procedures: &[ProcedureEntry]) -> Result<Vec<u32>, AllocError>
    ensures { IfOk result (λ v. v.items ≡ spec.entries_in procedures.now) }
{
    let mut entries = Vec::new(alloc);
    for procedure in procedures {
        entries.push(procedure.entry)?;
    }
    Ok(entries)
}

/// The program's name and what it declares, with no statement yet.
#[tactic(auto, unfolding(crate::specs::Reading::heads))]
pub fn heads(alloc: Global, tables: &Tables) -> Result<(Program, Rest<'_>), ReadFault>
    ensures { Gives (λ x. (tree x.0, seen x.1)) result (spec.heads tables.now) }
{
    let start = Rest {
        code: tables.code(),
        texts: tables.texts(),
        at: 0,
        text: 0,
    };
    let Some((name, rest)) = text(start) else {
        return Err(ReadFault::NotAProgram);
    };
    let name = Text::from_slice(alloc, name.as_slice())?;
    let (indices, rest) = indices(alloc, tables.indices(), rest)?;
    let (arrays, rest) = arrays(alloc, tables.arrays(), rest)?;
    let (scalars, rest) = scalars(alloc, tables.scalars(), rest)?;
    let (procs, rest) = procedures(alloc, tables.procedures(), rest)?;
    Ok((
        Program {
            name,
            indices,
            arrays,
            scalars,
            procs,
            body: Vec::new(alloc),
        },
        rest,
    ))
}

// The statements of a program of which all else is known.
#[tactic(auto, unfolding(crate::specs::Reading::bodies))]
fn bodies<'a>(
    alloc: Global,
    whole: Whole<'_>,
    heads: Program,
    rest: Rest<'a>,
) -> Result<(Program, Rest<'a>), ReadFault>
    ensures { Gives (λ x. (tree x.0, seen x.1)) result (spec.bodies whole.entry.entries.now whole.entry.len (tree heads) (seen rest.entry)) }
{
    let (body, rest) = body(alloc, whole, MOST_NESTING, rest)?;
    let rest = stop(rest)?;
    let (procs, rest) = filled(alloc, whole, heads.procs.as_slice(), rest)?;
    let mut program = heads;
    program.body = body;
    program.procs = procs;
    Ok((program, rest))
}

// The procedures of these names, each with its statements.
fn filled<'a>(
    alloc: Global,
    whole: Whole<'_>,
    named: &[Proc],
    start: Rest<'a>,
) -> Result<(Vec<Proc>, Rest<'a>), ReadFault>
    ensures { Gives (λ x. (map spec_procedure x.0.items, seen x.1)) result
        (each (spec.filled whole.entry.entries.now whole.entry.len) [] (enumerate_from 0 (map spec_procedure named.now)) (seen start.entry)) }
{
    let mut filled = Vec::new(alloc);
    let mut rest = start;
    for (number, name) in named.iter().enumerate() {
        let (read, behind) = procedure(alloc, whole, number, name, rest)?;
        filled.push(read)?;
        rest = behind;
    }
    Ok((filled, rest))
}

// A numbered procedure with its statements, if its first instruction comes next.
fn procedure<'a>(
    alloc: Global,
    whole: Whole<'_>,
    number: usize,
    named: &Proc,
    rest: Rest<'a>,
) -> Result<(Proc, Rest<'a>), ReadFault>
    ensures { Gives (λ x. (spec_procedure x.0, seen x.1)) result
        (spec.filled whole.entry.entries.now whole.entry.len (number, spec_procedure named.now) (seen rest.entry)) }
{
    let entry = whole.entries.get(number).copied().unwrap_or(0);
    if entry as usize == rest.at {
        procedure_of(alloc, whole, &named.name, rest)
    } else {
        Err(ReadFault::NotAProgram)
    }
}

// The statements of a procedure, and its return.
#[tactic(auto, unfolding(crate::specs::Reading::procedure_of))]
fn procedure_of<'a>(
    alloc: Global,
    whole: Whole<'_>,
    name: &Text,
    rest: Rest<'a>,
) -> Result<(Proc, Rest<'a>), ReadFault>
    ensures { Gives (λ x. (spec_procedure x.0, seen x.1)) result (spec.procedure_of whole.entry.entries.now whole.entry.len name.now (seen rest.entry)) }
{
    let (body, rest) = body(alloc, whole, MOST_NESTING, rest)?;
    let rest = return_from(rest)?;
    let name = Text::from_slice(alloc, name.as_slice())?;
    Ok((Proc { name, body }, rest))
}

// Whether no instruction is left.
fn code_is_over(rest: Rest<'_>) -> bool
    ensures { result ≡ spec.is_over (seen rest.entry).code }
{
    match next(rest) {
        Some(_) => false,
        None => true,
    }
}

// Whether no text is left.
fn texts_are_over(rest: Rest<'_>) -> bool
    ensures { result ≡ spec.is_over (seen rest.entry).texts }
{
    match text(rest) {
        Some(_) => false,
        None => true,
    }
}
