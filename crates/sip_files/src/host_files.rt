//! The host's files, by the runtime's few calls.

ghost use Rattle.std.specs.Prelude.{◌≡◌, ◌<◌, ◌≤◌, [], Ok, true, vec_len, OnOk, OnErr, IsErrOf};

use crate::call::Call;
use crate::counts::Counts;
use crate::fault::{Failed, LoadFault};
use crate::files::Files;
use crate::reading::{fault_of, read_whole};
use crate::writing::write_whole;
use std::fs::{self, File};
use std::marker::Model;

/// The host's files. They tell no content, and count each error.
#[derive(Drop)]
pub struct HostFiles<'a, R: std::rt::Files> {
    runtime: &'a R,
    faults: Counts,
    came: u64,
    overlong: u64,
}

impl<'a, R: std::rt::Files> Model for HostFiles<'a, R> {
    ghost use Rattle.sip_files.specs.Counts.{HostCounts};

    ghost Value = { HostCounts };

    ghost view = { λ f. record { faults = f.faults; came = f.came; overlong = f.overlong } };
}

impl<'a, R: std::rt::Files> HostFiles<'a, R> {
    ghost use Rattle.sip_files.specs.Counts.{count_of, no_faults, with_one_more};
    ghost use Rattle.sip_files.specs.Files.{CountsOnly};

    /// No call failed yet.
    pub fn new(runtime: &'a R) -> HostFiles<'a, R>
        ensures { result ≡ record { faults = no_faults; came = 0; overlong = 0 } }
    {
        HostFiles {
            runtime,
            faults: Counts::default(),
            came: 0,
            overlong: 0,
        }
    }

    // An answer, counted where it is a failure of this kind of call.
    fn counted(&mut self, call: Call, answer: Result<(), Failed>) -> Result<(), Failed>
        ensures ok { OnOk result (self.new ≡ self.old) }
        ensures err { OnErr result (self.new ≡ record self.old { faults = with_one_more self.old.faults call }) }
        ensures same { result ≡ answer }
        ensures only { CountsOnly call (count_of self.old.faults) (count_of self.new.faults) }
    {
        if answer.is_err() {
            self.faults.raise(call);
        }
        answer
    }
}

impl<'a, R: std::rt::Files> Files for HostFiles<'a, R> {
    ghost use Rattle.std.specs.Prelude.{[], None};
    ghost use Rattle.sip_files.specs.Counts.{count_of};
    ghost use Rattle.sip_files.specs.Files.{one_more};

    ghost told = { λ _. None };

    ghost faults = { λ f. count_of f.faults };

    ghost overlong = { λ f. f.overlong };

    ghost loans = { λ _. [] };

    // Each load is counted.
    ghost load_gives = { λ old _ _ _ _ new. new.came ≡ one_more old.came };

    fn load(&mut self, name: &str, into: &mut Vec<u8>, most: u64) -> Result<(), LoadFault> {
        let answer = read_file(self.runtime, name, into, most);
        self.came = self.came.saturating_add(1);
        match answer {
            Err(LoadFault::Failed) => self.faults.raise(Call::Load),
            Err(LoadFault::TooLong) => self.overlong = self.overlong.saturating_add(1),
            _ => {}
        }
        answer
    }

    fn clear(&mut self, name: &str) -> Result<(), Failed> {
        let answer = clear_file(self.runtime, name);
        self.counted(Call::Clear, answer)
    }

    fn append(&mut self, name: &str, bytes: &[u8]) -> Result<(), Failed> {
        let answer = append_to_file(self.runtime, name, bytes);
        self.counted(Call::Append, answer)
    }
}

// Makes a file of the host have no bytes.
fn clear_file<R: std::rt::Files>(runtime: &R, name: &str) -> Result<(), Failed> {
    match fs::create(runtime, name) {
        Ok(_) => Ok(()),
        Err(_) => Err(Failed),
    }
}

// Adds bytes at the end of a file of the host.
fn append_to_file<R: std::rt::Files>(runtime: &R, name: &str, bytes: &[u8]) -> Result<(), Failed> {
    match File::options()
        .append(true)
        .create(true)
        .open(runtime, name)
    {
        Ok(mut file) => write_whole(&mut file, bytes),
        Err(_) => Err(Failed),
    }
}

// Reads a file of the host.
fn read_file<R: std::rt::Files>(
    runtime: &R,
    name: &str,
    into: &mut Vec<u8>,
    most: u64,
) -> Result<(), LoadFault>
    requires { into.old.items ≡ [] }
    ensures within { OnOk result (vec_len into.new ≤ most) }
    ensures long { IsErrOf result LoadFault.TooLong → most < vec_len into.new }
    ensures missing { IsErrOf result LoadFault.Missing → ⊥ }
{
    match fs::open(runtime, name) {
        Ok(file) => read_whole(file, into, most),
        Err(error) => Err(fault_of(&error)),
    }
}
