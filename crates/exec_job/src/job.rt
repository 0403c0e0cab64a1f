//! A job.

ghost use Rattle.std.specs.Prelude.{◌≡◌, ◌<◌, ◌≤◌, Some, IfOk, length, map, slice_get};
ghost use Rattle.code_places.specs.Standing.{HasAt};
ghost use Rattle.index_spaces.specs.Placed.{bare};
ghost use Rattle.index_spaces.specs.Starting.{given_of};
ghost use Rattle.sial_meaning.specs.Setting.{array_kind, dims_of, scalar_class, scalar_name, side_of};
ghost use Rattle.sial_meaning.specs.Sound.{IsSound};
ghost use Rattle.sip_setting.specs.Given.{given};
ghost use Rattle.sip_setting.specs.Seen.{setting_of};
ghost use Rattle.sip_tables.specs.Flatten.{flatten};

use index_spaces::{Spaces, StartBlock};
use sial_syntax::{ArrayKind, IndexDecl, ScalarClass, Side};
use sip_files::OutOfMemory;
use sip_setting::Granted;
use sip_tables::{Instruction, Tables};
use std::alloc::Global;
use std::marker::Model;
use table_compiler::compile;

/// A granted program with its tables, its classes, its spaces and its start values. Contracts see what was granted; the setting that it stands for is `setting_of` it.
#[derive(Drop)]
pub struct Job {
    granted: Granted,
    tables: Tables,
}

impl Model for Job {
    ghost use Rattle.exec_job.specs.Keeping.{KeepsTables};
    ghost use Rattle.sip_setting.specs.declared.granted.Granted.{Granted};
    ghost use Rattle.std.specs.Coded.{codes};
    ghost use Rattle.sip_setting.specs.contracts.granted.Granted as kept;

    ghost Value = { Granted };

    ghost coded = { Prim.hlevel (codes, kept.the_row.coded) };

    ghost view = { λ j. j.granted };

    ghost invariant = { λ j. KeepsTables j.granted j.tables };
}

impl Job {
    ghost use Rattle.exec_job.specs.Keeping.{IsRunnable};

    /// Compiles a program that the rules granted.
    pub fn open(alloc: Global, granted: Granted) -> Result<Job, OutOfMemory>
        requires { IsRunnable granted }
        ensures { IfOk result (λ job. job ≡ granted) }
    {
        let tables = compile(alloc, &granted.program)?;
        Ok(Job { granted, tables })
    }

    /// What the indices run over, and where the blocks of the arrays stand.
    pub fn spaces(&self) -> &Spaces
        ensures spaces { result.now.spaces ≡ (setting_of self.now).spaces }
        ensures arrays { result.now.arrays ≡ map bare (setting_of self.now).program.arrays }
        ensures sound { IsSound (setting_of self.now) }
    {
        &self.granted.spaces
    }

    /// An instruction by its number.
    pub fn instruction(&self, at: u32) -> &Instruction
        requires { at < length (flatten (setting_of self.now).program).code }
        ensures { HasAt (setting_of self.now).program at result.now }
    {
        self.tables.instruction(at as usize)
    }

    /// How many instructions there are.
    pub fn code_len(&self) -> usize
        ensures { result ≡ length (flatten (setting_of self.now).program).code }
    {
        self.tables.code_len()
    }

    /// The declarations of the indices.
    pub fn indices(&self) -> &[IndexDecl]
        ensures value { result.now ≡ (setting_of self.now).program.indices }
        ensures sound { IsSound (setting_of self.now) }
    {
        self.granted.program.indices.as_slice()
    }

    /// How many indices there are.
    pub fn indices_len(&self) -> usize
        ensures count { result ≡ length (setting_of self.now).program.indices }
        ensures few { result ≤ 256 }
    {
        self.granted.program.indices.len()
    }

    /// How many scalars there are.
    pub fn scalars_len(&self) -> usize
        ensures count { result ≡ length (setting_of self.now).program.scalars }
        ensures few { result ≤ 256 }
    {
        self.granted.program.scalars.len()
    }

    /// How many arrays there are.
    pub fn arrays_len(&self) -> usize
        ensures count { result ≡ length (setting_of self.now).program.arrays }
        ensures few { result ≤ 256 }
    {
        self.granted.program.arrays.len()
    }

    /// The kind of an array; one that isn't declared is a temp.
    pub fn array_kind(&self, array: u16) -> ArrayKind
        ensures { result ≡ array_kind (setting_of self.now) array }
    {
        match self.granted.program.arrays.get(array as usize) {
            Some(array) => array.kind,
            None => ArrayKind::Temp,
        }
    }

    /// The declared indices of an array; one that isn't declared has none.
    pub fn dims(&self, array: u16) -> &[u16]
        ensures { result.now ≡ dims_of (setting_of self.now) array }
    {
        match self.granted.program.arrays.get(array as usize) {
            Some(array) => array.dims.as_slice(),
            None => &[],
        }
    }

    /// The class of a scalar.
    pub fn scalar_class(&self, scalar: u16) -> ScalarClass
        ensures { result ≡ scalar_class (setting_of self.now) scalar }
    {
        let classes = self.granted.classes.scalars.as_slice();
        classes
            .get(scalar as usize)
            .copied()
            .unwrap_or(ScalarClass::Replicated)
    }

    /// The side of the pardos on which a local array is used.
    pub fn side(&self, array: u16) -> Side
        ensures { result ≡ side_of (setting_of self.now) array }
    {
        let sides = self.granted.classes.locals.as_slice();
        sides.get(array as usize).copied().unwrap_or(Side::Unused)
    }

    /// The name of a scalar.
    pub fn scalar_name(&self, scalar: u16) -> &[u8]
        ensures { result.now ≡ scalar_name (setting_of self.now) scalar }
    {
        match self.granted.program.scalars.get(scalar as usize) {
            Some(name) => name.as_slice(),
            None => &[],
        }
    }

    /// A text by its number.
    pub fn text(&self, number: u32) -> &[u8]
        requires { number < length (flatten (setting_of self.now).program).texts }
        ensures { slice_get (flatten (setting_of self.now).program).texts number ≡ Some result.now }
    {
        self.tables.text(number as usize).as_slice()
    }

    /// The number with which each scalar begins.
    pub fn start_numbers(&self) -> &[u64]
        ensures { result.now ≡ (setting_of self.now).numbers }
    {
        self.granted.start.scalars.as_slice()
    }

    /// The blocks that begin with other elements than zeros.
    pub fn start_blocks(&self) -> &[StartBlock]
        ensures { map given (map given_of result.now) ≡ (setting_of self.now).blocks }
    {
        self.granted.start.blocks.as_slice()
    }
}
