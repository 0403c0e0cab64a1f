//! Bytes by name, in memory.

ghost use Rattle.std.specs.Prelude.{◌≡◌, ◌++◌, option_map, position, OnOk, OnErr};
ghost use Rattle.std.specs.FinMap as map;
ghost use Rattle.sip_files.specs.Entries.{has_name};
ghost use Rattle.sip_files.specs.Writing.{bytes_in};

use crate::fault::OutOfMemory;
use std::alloc::Global;
use std::marker::Model;

/// Bytes by name, as the finite map that they are. No two entries have one name.
#[derive(Drop)]
pub struct Folder {
    alloc: Global,
    entries: Vec<Entry>,
}

// A name with its bytes.
#[derive(Drop)]
struct Entry {
    name: Vec<u8>,
    bytes: Vec<u8>,
}

impl Model for Folder {
    ghost use Rattle.sip_files.specs.Files.{Folder as Files, folder_code};
    ghost use Rattle.sip_files.specs.Entries.{folder_of};

    ghost Value = { Files };

    ghost coded = { folder_code };

    ghost view = { λ f. folder_of f.entries.items };
}

impl Folder {
    /// No name has bytes.
    pub fn new(alloc: Global) -> Folder
        ensures { result ≡ map.empty }
    {
        Folder {
            alloc,
            entries: Vec::new(alloc),
        }
    }

    /// The bytes of a name.
    pub fn get(&self, name: &[u8]) -> Option<&[u8]>
        ensures { option_map (λ bytes. bytes.now) result ≡ map.get self.now name.now }
    {
        match place_of(self.entries.as_slice(), name) {
            Some(at) => Some(self.entries[at].bytes.as_slice()),
            None => None,
        }
    }

    /// Gives a name these bytes in place of what it had.
    pub fn put(&mut self, name: &[u8], bytes: &[u8]) -> Result<(), OutOfMemory>
        ensures ok { OnOk result (self.new ≡ map.insert self.old name.now bytes.now) }
        ensures err { OnErr result (self.new ≡ self.old) }
    {
        let bytes = Vec::from_slice(self.alloc, bytes)?;
        match place_of(self.entries.as_slice(), name) {
            Some(at) => {
                let entry = &mut self.entries[at];
                entry.bytes = bytes;
            }
            None => {
                let name = Vec::from_slice(self.alloc, name)?;
                self.entries.push(Entry { name, bytes })?;
            }
        }
        Ok(())
    }

    /// Adds bytes at the end of what a name has; a name that isn't there has none.
    pub fn append(&mut self, name: &[u8], bytes: &[u8]) -> Result<(), OutOfMemory>
        ensures ok { OnOk result (self.new ≡ map.insert self.old name.now (bytes_in self.old name.now ++ bytes.now)) }
        ensures err { OnErr result (self.new ≡ self.old) }
    {
        match place_of(self.entries.as_slice(), name) {
            Some(at) => {
                let entry = &mut self.entries[at];
                entry.bytes.extend_from_slice(bytes)?;
                Ok(())
            }
            None => self.put(name, bytes),
        }
    }
}

fn place_of(entries: &[Entry], name: &[u8]) -> Option<usize>
    ensures { result ≡ position (has_name name.now) entries.now }
{
    entries
        .iter()
        .position(|entry| name == entry.name.as_slice())
}
