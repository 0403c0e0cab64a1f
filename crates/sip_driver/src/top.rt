//! The top call.

ghost use Rattle.std.specs.Prelude.{◌≡◌, ◌≢◌, ◌≤◌, ◌⊎◌};
ghost use Rattle.sip_compile.specs.Filing.{WritesAlone};
ghost use Rattle.sip_files.specs.Loading.{Loading};
ghost use Rattle.sip_driver.specs.Headline.{Done, Compiled, IsUsage, Unread, RefusesUnreadable, Unparsed, NotFirst, Misshapen, Missided};
ghost use Rattle.sip_driver.specs.Headline.{Misread, Unfit, NotWritten, NotFiled, NoMemory, IsAnswer, KeepsOthers, CountsOf};
ghost use Rattle.sip_driver.specs.Says.{Says, line_of};

use crate::compiling::compile_command;
use crate::running::run_command;
use crate::say::say;
use crate::status::Status;
use crate::words::{Asked, read_asked};
use sip_files::{Files, Sink};
use sip_words::WordsFault;
use std::alloc::Global;

/// Does what the words ask for: `sip run <program> <input>` runs a program of the first profile over its input, if the rules grant both,
/// and `sip compile <program> <table>` writes the table of a program that keeps the rules.
///
/// The output gains the printed lines, each as it comes; a refusal has its one line on `err`.
pub fn sip<F: Files, K: Sink>(
    alloc: Global,
    words: &[String],
    files: &mut F,
    out: &mut K,
    err: &mut K,
) -> Status
    // By status, as the headline says it.
    ensures done { result.0 ≡ 0
        → Done words.now (Loading F.load_gives F.told F.faults F.overlong) files.old files.new K.written out.old out.new
        ⊎ Compiled words.now (Loading F.load_gives F.told F.faults F.overlong) (WritesAlone F.faults F.overlong) F.told files.old files.new K.written out.old out.new }
    ensures usage { result.0 ≡ 1 → IsUsage words.now }
    ensures unread { result.0 ≡ 2 → Unread words.now (Loading F.load_gives F.told F.faults F.overlong)
        files.old files.new (Says K.written K.faults err.old err.new) }
    ensures unreadable { RefusesUnreadable result.0 words.now (F.told files.old)
        (Unparsed words.now (Loading F.load_gives F.told F.faults F.overlong) files.old files.new (Says K.written K.faults err.old err.new))
        (Misshapen words.now (Loading F.load_gives F.told F.faults F.overlong) files.old files.new (Says K.written K.faults err.old err.new)
        ⊎ Missided words.now (Loading F.load_gives F.told F.faults F.overlong) files.old files.new (Says K.written K.faults err.old err.new)) }
    ensures syntax { result.0 ≡ 3
        → Unparsed words.now (Loading F.load_gives F.told F.faults F.overlong) files.old files.new (Says K.written K.faults err.old err.new)
        ⊎ NotFirst words.now (Loading F.load_gives F.told F.faults F.overlong) files.old files.new (Says K.written K.faults err.old err.new) }
    ensures rule { result.0 ≡ 4
        → Misshapen words.now (Loading F.load_gives F.told F.faults F.overlong) files.old files.new (Says K.written K.faults err.old err.new)
        ⊎ Missided words.now (Loading F.load_gives F.told F.faults F.overlong) files.old files.new (Says K.written K.faults err.old err.new) }
    ensures input { result.0 ≡ 5
        → Misread words.now (Loading F.load_gives F.told F.faults F.overlong) files.old files.new (Says K.written K.faults err.old err.new)
        ⊎ Unfit words.now (Loading F.load_gives F.told F.faults F.overlong) files.old files.new (Says K.written K.faults err.old err.new) }
    ensures not_written { result.0 ≡ 10
        → NotWritten words.now (Loading F.load_gives F.told F.faults F.overlong) files.old files.new K.written K.faults out.old out.new (Says K.written K.faults err.old err.new)
        ⊎ NotFiled words.now (Loading F.load_gives F.told F.faults F.overlong) (WritesAlone F.faults F.overlong) F.told F.faults files.old files.new K.written out.old out.new (Says K.written K.faults err.old err.new) }
    ensures memory { result.0 ≡ 13 → NoMemory words.now (Loading F.load_gives F.told F.faults F.overlong)
        files.old files.new K.written out.old out.new }
    ensures answers { IsAnswer result.0 }

    // Other words touch no file, and all refusals leave told files and the output as they were.
    ensures usage_files { result.0 ≡ 1 → files.new ≡ files.old }
    ensures refused_files { result.0 ≢ 0 → result.0 ≢ 10 → F.told files.new ≡ F.told files.old }
    ensures refused_kept { result.0 ≢ 0 → result.0 ≢ 10 → result.0 ≢ 13 → K.written out.new ≡ K.written out.old }

    // The line of a status that tells no more than the status; the other lines stand above.
    ensures line { result.0 ≢ 2 → result.0 ≢ 3 → result.0 ≢ 4 → result.0 ≢ 5 → result.0 ≢ 10
        → Says K.written K.faults err.old err.new (line_of result.0) }

    ensures others { KeepsOthers words.now (F.told files.old) (F.told files.new) }
    ensures counts { CountsOf words.now (F.faults files.old) (F.faults files.new) }
    ensures loans { F.loans files.new ≡ F.loans files.old }
    ensures out_never_falls { K.faults out.old ≤ K.faults out.new }
    ensures out_kept { K.kept out.new ≡ K.kept out.old }
    ensures err_never_falls { K.faults err.old ≤ K.faults err.new }
    ensures err_kept { K.kept err.new ≡ K.kept err.old }
{
    match read_asked(alloc, words) {
        Ok(Asked::Run { program, input }) => run_command(alloc, program, input, files, out, err),
        Ok(Asked::Compile { program, table }) => compile_command(alloc, program, table, files, err),
        Err(WordsFault::Usage) => {
            say(err, b"sip: usage\n");
            Status::USAGE
        }
        Err(WordsFault::OutOfMemory) => {
            say(err, b"sip: memory\n");
            Status::OUT_OF_MEMORY
        }
    }
}
