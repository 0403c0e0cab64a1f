//! A program, its tables and its file.

ghost use Rattle.table_laws.specs.FileLaws.{OneFile, ProgramsHaveFiles};

/// The tables of a proper program have a file, and no other program has the same.
pub fn programs_have_files()
    ensures file { ProgramsHaveFiles }
    ensures one { OneFile }
{}
