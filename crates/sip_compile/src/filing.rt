//! Tables, written to a file.

ghost use Rattle.std.specs.Prelude.{◌≡◌, OnOk, OnErr};
ghost use Rattle.sip_files.specs.Files.{CountsOnly, Rose};
ghost use Rattle.sip_files.specs.Sink.{Gains, GainsPart};
ghost use Rattle.sip_files.specs.Writing.{bytes_of, others_of};
ghost use Rattle.sip_files.specs.declared.call.Call.TheVariants.{Append};
ghost use Rattle.table_file.specs.Bytes.{bytes};
ghost use Rattle.sip_compile.specs.Filing.{CountsWrites, Holds, IsUnfiled};

use sip_files::{Failed, FileSink, Files};
use sip_tables::Tables;
use table_file::encode;

/// Writes the file of some tables in place of what the name had.
pub fn file_tables<F: Files>(files: &mut F, name: &str, tables: &Tables) -> Result<(), Failed>
    ensures filed { OnOk result (Holds (F.told files.new) name.now (bytes tables.now)) }
    ensures unfiled { OnErr result (IsUnfiled (F.told files.new) name.now (bytes tables.now) (F.faults files.old) (F.faults files.new)) }

    ensures others { others_of (F.told files.new) name.now ≡ others_of (F.told files.old) name.now }
    ensures counts { CountsWrites (F.faults files.old) (F.faults files.new) }
    ensures overlong { F.overlong files.new ≡ F.overlong files.old }
    ensures loans { F.loans files.new ≡ F.loans files.old }
{
    match files.clear(name) {
        Ok(()) => add_tables(files, name, tables),
        Err(failed) => Err(failed),
    }
}

// Adds the file of some tables at the end of a file.
fn add_tables<F: Files>(files: &mut F, name: &str, tables: &Tables) -> Result<(), Failed>
    ensures ok { OnOk result (Gains (bytes_of (F.told files.old) name.now) (bytes_of (F.told files.new) name.now) (bytes tables.now)) }
    ensures part { OnErr result (GainsPart (bytes_of (F.told files.old) name.now) (bytes_of (F.told files.new) name.now) (bytes tables.now)) }
    ensures cause { OnErr result (Rose (F.faults files.old Append) (F.faults files.new Append)) }

    ensures others { others_of (F.told files.new) name.now ≡ others_of (F.told files.old) name.now }
    ensures counts { CountsOnly Append (F.faults files.old) (F.faults files.new) }
    ensures overlong { F.overlong files.new ≡ F.overlong files.old }
    ensures loans { F.loans files.new ≡ F.loans files.old }
{
    let mut sink = FileSink { files, name };
    encode(tables, &mut sink)
}
