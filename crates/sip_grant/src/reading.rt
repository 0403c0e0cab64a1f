//! The program of a file, which is its text or the file of its tables.

ghost use Rattle.std.specs.Prelude.{◌≡◌, true, false, IfOk, IfErr};
ghost use Rattle.sial_syntax.specs.Proper.{IsProper};
ghost use Rattle.sial_syntax.specs.Tree.{tree};
ghost use Rattle.sip_grant.specs.Refusals.{BlamesProgram};
ghost use Rattle.sip_grant.specs.Sources as spec;
ghost use Rattle.sip_grant.specs.Sources.{IsSourceOf};
ghost use Rattle.table_file.specs.Fits.{IsFileOf};

use crate::refusal::{Refusal, SyntaxFault};
use sial_parser::{ParseFault, parse};
use sial_syntax::Program;
use sip_tables::Tables;
use std::alloc::Global;
use table_file::{TableFault, decode};
use table_verify::{VerifyFault, unflatten};

/// The program of a text, or that of a table file.
pub fn read_source(alloc: Global, bytes: &[u8]) -> Result<Program, Refusal>
    ensures found { IfOk result (λ p. IsSourceOf bytes.now (tree p)) }
    ensures proper { IfOk result (λ p. IsProper (tree p)) }
    ensures blames { IfErr result (BlamesProgram bytes.now) }
{
    if is_table(bytes) {
        of_file(alloc, bytes)
    } else {
        of_text(alloc, bytes)
    }
}

// Whether a file is a table file.
fn is_table(bytes: &[u8]) -> bool
    ensures { result ≡ spec.is_table bytes.now }
{
    bytes.starts_with(b"SIPT")
}

// The program of a text.
#[tactic(auto, using(crate::proofs::SourceLemmas::source_of_text, crate::proofs::SourceLemmas::text_blames))]
fn of_text(alloc: Global, text: &[u8]) -> Result<Program, Refusal>
    requires is_text { spec.is_table text.now ≡ false }
    ensures found { IfOk result (λ p. IsSourceOf text.now (tree p)) }
    ensures proper { IfOk result (λ p. IsProper (tree p)) }
    ensures blames { IfErr result (BlamesProgram text.now) }
{
    match parse(alloc, text) {
        Ok(program) => Ok(program),
        Err(ParseFault::OutOfMemory) => Err(Refusal::OutOfMemory),
        Err(fault) => Err(Refusal::NoTree(SyntaxFault::Text(fault))),
    }
}

// The program of a table file.
#[tactic(auto, using(crate::proofs::SourceLemmas::file_blames))]
fn of_file(alloc: Global, bytes: &[u8]) -> Result<Program, Refusal>
    requires is_file { spec.is_table bytes.now ≡ true }
    ensures found { IfOk result (λ p. IsSourceOf bytes.now (tree p)) }
    ensures proper { IfOk result (λ p. IsProper (tree p)) }
    ensures blames { IfErr result (BlamesProgram bytes.now) }
{
    match decode(alloc, bytes) {
        Ok(tables) => of_tables(alloc, bytes, &tables),
        Err(TableFault::OutOfMemory) => Err(Refusal::OutOfMemory),
        Err(fault) => Err(Refusal::NoTree(SyntaxFault::File(fault))),
    }
}

// The program of the tables of a file.
#[tactic(auto, using(crate::proofs::SourceLemmas::source_of_tables, crate::proofs::SourceLemmas::tables_blame))]
fn of_tables(alloc: Global, bytes: &[u8], tables: &Tables) -> Result<Program, Refusal>
    requires is_file { spec.is_table bytes.now ≡ true }
    requires file { IsFileOf bytes.now tables.now }
    ensures found { IfOk result (λ p. IsSourceOf bytes.now (tree p)) }
    ensures proper { IfOk result (λ p. IsProper (tree p)) }
    ensures blames { IfErr result (BlamesProgram bytes.now) }
{
    match unflatten(alloc, tables) {
        Ok(program) => Ok(program),
        Err(VerifyFault::OutOfMemory) => Err(Refusal::OutOfMemory),
        Err(fault) => Err(Refusal::NoTree(SyntaxFault::Tables(fault))),
    }
}
