//! A sink at the end of a file.

ghost use Rattle.sip_files.specs.Kept.{at_end_of};
ghost use Rattle.sip_files.specs.Writing.{bytes_of};

use crate::fault::Failed;
use crate::files::Files;
use crate::sink::Sink;

/// A sink that adds to one file of some files. It is made by its literal for one call, and let go before the files are
/// used again.
///
/// Its bytes are those of the file, its count that of failed appends.
#[derive(Drop)]
pub struct FileSink<'a, F: Files> {
    /// The files.
    pub files: &'a mut F,
    /// The file that is added to.
    pub name: &'a str,
}

impl<'a, F: Files> Sink for FileSink<'a, F> {
    ghost use Rattle.sip_files.specs.declared.call.Call.TheVariants.{Append};

    ghost written = { λ s. bytes_of (F.told s.files.now) s.name.now };

    ghost faults = { λ s. F.faults s.files.now Append };

    ghost kept = { λ s. at_end_of s.files.ghost_name (F.loans s.files.now) s.name.now (F.told s.files.now) (F.faults s.files.now) (F.overlong s.files.now) };

    fn write(&mut self, bytes: &[u8]) -> Result<(), Failed> {
        self.files.append(self.name, bytes)
    }
}
