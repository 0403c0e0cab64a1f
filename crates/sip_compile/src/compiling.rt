//! A program, compiled.

ghost use Rattle.std.specs.Prelude.{◌≡◌, OnOk, IfErr};
ghost use Rattle.sip_files.specs.Loading.{Loading};
ghost use Rattle.sip_files.specs.Writing.{others_of};
ghost use Rattle.sip_compile.specs.Compiling.{Compiles, FailsToCompile};
ghost use Rattle.sip_compile.specs.Filing.{CountsFiles, WritesAlone};

use crate::fault::CompileFault;
use crate::filing::file_tables;
use sip_files::Files;
use sip_grant::load_program;
use std::alloc::Global;
use table_compiler::compile;

/// Loads a program, and writes the file of its tables in place of what its name had.
#[tactic(auto, using(crate::proofs::FilingLemmas::counts_loads, crate::proofs::FilingLemmas::counts_both))]
pub fn compile_program<F: Files>(
    alloc: Global,
    files: &mut F,
    program: &str,
    table: &str,
) -> Result<(), CompileFault>
    ensures compiled { OnOk result (Compiles (Loading F.load_gives F.told F.faults F.overlong) (WritesAlone F.faults F.overlong) F.told
        files.old files.new program.now table.now) }
    ensures fault { IfErr result (FailsToCompile (Loading F.load_gives F.told F.faults F.overlong) (WritesAlone F.faults F.overlong) F.told F.faults
        files.old files.new program.now table.now) }

    // Other files stay.
    ensures others { others_of (F.told files.new) table.now ≡ others_of (F.told files.old) table.now }
    ensures counts { CountsFiles (F.faults files.old) (F.faults files.new) }
    ensures loans { F.loans files.new ≡ F.loans files.old }
{
    let ruled = match load_program(alloc, files, program) {
        Ok(ruled) => ruled,
        Err(refusal) => return Err(CompileFault::Refused(refusal)),
    };
    let tables = match compile(alloc, &ruled.program) {
        Ok(tables) => tables,
        Err(_) => return Err(CompileFault::OutOfMemory),
    };
    match file_tables(files, table, &tables) {
        Ok(()) => Ok(()),
        Err(_) => Err(CompileFault::NotWritten),
    }
}
