//! A program of the first profile, run.

ghost use Rattle.std.specs.Prelude.{◌≡◌, ◌≤◌, OnOk, OnErr, IsErrOf};
ghost use Rattle.sial_syntax.specs.Tree.{tree};
ghost use Rattle.sip_files.specs.Files.{Rose};
ghost use Rattle.sip_files.specs.Sink.{Gains, GainsPart};
ghost use Rattle.sip_setting.specs.Printing.{printed_text};
ghost use Rattle.sip_setting.specs.Seen.{setting_of};
ghost use Rattle.first_profile.specs.FirstTree.{IsFirstTree};
ghost use Rattle.first_profile.specs.Ready.{IsReady};

use crate::fault::RunFault;
use crate::start::start;
use crate::statements::run_body;
use sip_files::Sink;
use sip_setting::Granted;
use std::alloc::Global;

/// Runs a granted program from its start, and writes each line of its sequential meaning as it is printed.
pub fn run<K: Sink>(alloc: Global, granted: &Granted, out: &mut K) -> Result<(), RunFault>
    requires first { IsFirstTree (tree granted.now.program) }
    requires ready { IsReady (setting_of granted.now) }

    ensures ok { OnOk result (Gains (K.written out.old) (K.written out.new) (printed_text (setting_of granted.now))) }
    ensures err { OnErr result (GainsPart (K.written out.old) (K.written out.new) (printed_text (setting_of granted.now))) }
    ensures cause { IsErrOf result RunFault.NotWritten → Rose (K.faults out.old) (K.faults out.new) }

    ensures never_falls { K.faults out.old ≤ K.faults out.new }
    ensures kept { K.kept out.new ≡ K.kept out.old }
{
    let mut machine = start(alloc, granted)?;
    let body = granted.program.body.as_slice();
    run_body(alloc, granted, None, body, &mut machine, out)
}
