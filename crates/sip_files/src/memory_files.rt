//! Files in memory, with planned faults.

ghost use Rattle.std.specs.Prelude.{◌≡◌, ◌↔◌, ◌<◌, ◌≤◌, [], ◌++◌, Some, None, false, length, option_map, IsSomeAnd, IsTrue, IsErr, OnOk, OnErr, IsErrOf};
ghost use Rattle.std.specs.FinMap as map;
ghost use Rattle.sip_files.specs.Files.{Rose, CountsOnly, IsPartOf, failed_after};
ghost use Rattle.sip_files.specs.Plan.{is_next};
ghost use Rattle.sip_files.specs.Sink.{GainsPart};
ghost use Rattle.sip_files.specs.Writing.{bytes_in, bytes_of, others_of, cleared, appended};
ghost use Rattle.sip_files.specs.MemoryFiles.{no_files, with_planned, faults_of, after_load, after_met, after_refused, after_writing};

use crate::call::Call;
use crate::fault::{Failed, LoadFault, OutOfMemory};
use crate::files::Files;
use crate::folder::Folder;
use crate::plan::Plan;
use std::alloc::Global;
use std::marker::Model;

/// Files in memory. They tell their content, and fail where that was planned.
#[derive(Drop)]
pub struct MemoryFiles {
    files: Folder,
    load: Plan,
    clear: Plan,
    append: Plan,
    read_at: Plan,
    write_at: Plan,
    overlong: u64,
    refused: u64,
}

impl Model for MemoryFiles {
    ghost use Rattle.sip_files.specs.MemoryFiles.{FilesInMemory};
    ghost use Rattle.std.specs.Coded.{codes};
    ghost use Rattle.sip_files.specs.Files.{folder_code};

    ghost Value = { FilesInMemory };

    ghost coded = { Prim.hlevel (codes, folder_code) };

    ghost view = { λ m. record { files = m.files; plans = record { load = m.load; clear = m.clear; append = m.append; read_at = m.read_at; write_at = m.write_at }; overlong = m.overlong; refused = m.refused } };
}

impl MemoryFiles {
    /// No file, and nothing planned.
    pub fn new(alloc: Global) -> MemoryFiles
        ensures { result ≡ no_files }
    {
        MemoryFiles {
            files: Folder::new(alloc),
            load: Plan::new(alloc),
            clear: Plan::new(alloc),
            append: Plan::new(alloc),
            read_at: Plan::new(alloc),
            write_at: Plan::new(alloc),
            overlong: 0,
            refused: 0,
        }
    }

    /// Gives a name these bytes, in place of what it had.
    pub fn put(&mut self, name: &str, bytes: &[u8]) -> Result<(), OutOfMemory>
        ensures ok { OnOk result (self.new ≡ record self.old { files = map.insert self.old.files name.now bytes.now }) }
        ensures err { OnErr result (self.new ≡ self.old) }
    {
        self.files.put(name.as_bytes(), bytes)
    }

    /// Lets the call of this kind and number fail, counted from 1 since `new`; it then changes nothing.
    pub fn fail(&mut self, call: Call, nth: u64) -> Result<(), OutOfMemory>
        ensures ok { OnOk result (self.new ≡ record self.old { plans = with_planned self.old.plans call nth }) }
        ensures err { OnErr result (self.new ≡ self.old) }
    {
        match call {
            Call::Load => self.load.add(nth),
            Call::Clear => self.clear.add(nth),
            Call::Append => self.append.add(nth),
            Call::ReadAt => self.read_at.add(nth),
            Call::WriteAt => self.write_at.add(nth),
        }
    }

    /// The bytes of a name.
    pub fn held(&self, name: &str) -> Option<&[u8]>
        ensures { option_map (λ bytes. bytes.now) result ≡ map.get self.now.files name.now }
    {
        self.files.get(name.as_bytes())
    }

    /// How many growths found no memory, each a counted fault.
    pub fn refused(&self) -> u64
        ensures { result ≡ self.now.refused }
    {
        self.refused
    }
}

impl Files for MemoryFiles {
    ghost use Rattle.sip_files.specs.declared.call.Call.TheVariants.{Load, Clear, Append};

    ghost told = { λ m. Some m.files };

    ghost faults = { faults_of };

    ghost overlong = { λ m. m.overlong };

    ghost loans = { λ _. [] };

    ghost load_gives = { λ old _ _ answer _ new. new ≡ after_load old answer };

    #[tactic(auto, using(crate::proofs::FilesLemmas::empty_is_part))]
    fn load(&mut self, name: &str, into: &mut Vec<u8>, most: u64) -> Result<(), LoadFault>
        requires { into.old.items ≡ [] }

        ensures ok { OnOk result (map.get self.old.files name.now ≡ Some into.new.items) }
        ensures within { OnOk result (length into.new.items ≤ most) }
        ensures err { OnErr result (into.new.items ≡ []) }
        ensures part { OnErr result (IsPartOf into.new.items (map.get self.old.files name.now)) }
        ensures missing { IsErrOf result LoadFault.Missing → map.get self.old.files name.now ≡ None }
        ensures long { IsErrOf result LoadFault.TooLong → IsSomeAnd (map.get self.old.files name.now) (λ held. most < length held) }

        // The load fails exactly where that was planned, and nothing but counts changes.
        ensures planned { IsErrOf result LoadFault.Failed ↔ IsTrue (is_next self.old.plans.load) }
        ensures failed { faults_of self.new Load ≡ failed_after (faults_of self.old Load) result }
        ensures after { self.new ≡ after_load self.old result }
        ensures counts { CountsOnly Load (faults_of self.old) (faults_of self.new) }
    {
        if self.load.meet() {
            return Err(LoadFault::Failed);
        }
        let Some(held) = self.files.get(name.as_bytes()) else {
            return Err(LoadFault::Missing);
        };
        if held.len() as u64 > most {
            self.overlong = self.overlong.saturating_add(1);
            return Err(LoadFault::TooLong);
        }
        into.extend_from_slice(held)?;
        Ok(())
    }

    #[tactic(auto, using(crate::proofs::WritingLemmas::remove_insert))]
    fn clear(&mut self, name: &str) -> Result<(), Failed>
        ensures ok { OnOk result (Some self.new.files ≡ cleared (Some self.old.files) name.now) }
        ensures others { others_of (Some self.new.files) name.now ≡ others_of (Some self.old.files) name.now }
        ensures cause { OnErr result (Rose (faults_of self.old Clear) (faults_of self.new Clear)) }
        ensures counts { CountsOnly Clear (faults_of self.old) (faults_of self.new) }
        ensures overlong { self.new.overlong ≡ self.old.overlong }

        // A call fails exactly where that was planned or its growth found no memory, and then it changes no file.
        ensures planned { IsTrue (is_next self.old.plans.clear) → IsErr result }
        ensures after { OnOk result (self.new ≡ after_writing self.old Clear (map.insert self.old.files name.now [])) }
        ensures after_planned { IsTrue (is_next self.old.plans.clear) → self.new ≡ after_met self.old Clear }
        ensures after_refused { is_next self.old.plans.clear ≡ false → OnErr result (self.new ≡ after_refused self.old Clear) }
    {
        if self.clear.meet() {
            return Err(Failed);
        }
        if self.files.put(name.as_bytes(), b"").is_err() {
            self.refused = self.refused.saturating_add(1);
            self.clear.refuse();
            return Err(Failed);
        }
        Ok(())
    }

    #[tactic(auto, using(crate::proofs::WritingLemmas::remove_insert, crate::proofs::WritingLemmas::same_gains))]
    fn append(&mut self, name: &str, bytes: &[u8]) -> Result<(), Failed>
        ensures ok { OnOk result (Some self.new.files ≡ appended (Some self.old.files) name.now bytes.now) }
        ensures part { OnErr result (GainsPart (bytes_of (Some self.old.files) name.now) (bytes_of (Some self.new.files) name.now) bytes.now) }
        ensures others { others_of (Some self.new.files) name.now ≡ others_of (Some self.old.files) name.now }
        ensures cause { OnErr result (Rose (faults_of self.old Append) (faults_of self.new Append)) }
        ensures counts { CountsOnly Append (faults_of self.old) (faults_of self.new) }
        ensures overlong { self.new.overlong ≡ self.old.overlong }

        // A call fails exactly where that was planned or its growth found no memory, and then it changes no file.
        ensures planned { IsTrue (is_next self.old.plans.append) → IsErr result }
        ensures after { OnOk result (self.new ≡ after_writing self.old Append (map.insert self.old.files name.now (bytes_in self.old.files name.now ++ bytes.now))) }
        ensures after_planned { IsTrue (is_next self.old.plans.append) → self.new ≡ after_met self.old Append }
        ensures after_refused { is_next self.old.plans.append ≡ false → OnErr result (self.new ≡ after_refused self.old Append) }
    {
        if self.append.meet() {
            return Err(Failed);
        }
        if self.files.append(name.as_bytes(), bytes).is_err() {
            self.refused = self.refused.saturating_add(1);
            self.append.refuse();
            return Err(Failed);
        }
        Ok(())
    }
}
