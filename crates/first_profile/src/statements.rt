//! The statements of the first profile, one after another.

ghost use Rattle.std.specs.Prelude.{◌≡◌, ◌<◌, length, OnOk};
ghost use Rattle.sial_syntax.specs.Tree.{block, plain_form, Do};
ghost use Rattle.sip_setting.specs.Printing.{text_of};
ghost use Rattle.sip_setting.specs.Seen.{setting_of};
ghost use Rattle.first_profile.specs.FirstTree.{IsBody, IsForm};
ghost use Rattle.first_profile.specs.Fits.{Fits, IsWithin};
ghost use Rattle.first_profile.specs.Ran.{Ran};
ghost use Rattle.first_profile.specs.Ready.{IsFirstSetting};
ghost use Rattle.first_profile.specs.Running.{body_numbers, form_numbers, body_prints, form_prints};

use crate::assign::assign;
use crate::fault::RunFault;
use crate::machine::Machine;
use crate::print::print_scalar;
use sial_syntax::{Form, Stmt};
use sip_files::Sink;
use sip_setting::Granted;
use std::alloc::Global;

/// Runs statements, in the loop over an index or outside.
#[cycle(running)]
pub fn run_body<K: Sink>(
    alloc: Global,
    granted: &Granted,
    within: Option<u16>,
    stmts: &[Stmt],
    machine: &mut Machine,
    out: &mut K,
) -> Result<(), RunFault>
    requires setting { IsFirstSetting (setting_of granted.now) }
    requires fits { Fits (setting_of granted.now) machine.old }
    requires within { IsWithin (setting_of granted.now) machine.old within }
    requires body { IsBody (setting_of granted.now).program within (block stmts.now) }

    ensures numbers { OnOk result (machine.new ≡ body_numbers (setting_of granted.now) (block stmts.now) machine.old) }
    ensures ran { Ran (K.written out.old) (K.written out.new) (K.faults out.old) (K.faults out.new) (K.kept out.old) (K.kept out.new)
        (text_of (body_prints (setting_of granted.now) (block stmts.now) machine.old)) result }
{
    for stmt in stmts {
        run_form(alloc, granted, within, &stmt.form, machine, out)?;
    }
    Ok(())
}

#[cycle(running)]
fn run_form<K: Sink>(
    alloc: Global,
    granted: &Granted,
    within: Option<u16>,
    form: &Form,
    machine: &mut Machine,
    out: &mut K,
) -> Result<(), RunFault>
    requires setting { IsFirstSetting (setting_of granted.now) }
    requires fits { Fits (setting_of granted.now) machine.old }
    requires within { IsWithin (setting_of granted.now) machine.old within }
    requires form { IsForm (setting_of granted.now).program within (plain_form form.now) }

    ensures numbers { OnOk result (machine.new ≡ form_numbers (setting_of granted.now) (plain_form form.now) machine.old) }
    ensures ran { Ran (K.written out.old) (K.written out.new) (K.faults out.old) (K.faults out.new) (K.kept out.old) (K.kept out.new)
        (text_of (form_prints (setting_of granted.now) (plain_form form.now) machine.old)) result }
{
    match form {
        Form::Do { index, body } => run_loop(alloc, granted, *index, body.as_slice(), machine, out),
        Form::Assign { target, op, right } => {
            Ok(assign(alloc, granted, within, target, *op, right, machine)?)
        }
        Form::PrintScalar { scalar } => Ok(print_scalar(granted, machine, *scalar, out)?),
        _ => Ok(()),
    }
}

#[cycle(running)]
fn run_loop<K: Sink>(
    alloc: Global,
    granted: &Granted,
    index: u16,
    stmts: &[Stmt],
    machine: &mut Machine,
    out: &mut K,
) -> Result<(), RunFault>
    requires setting { IsFirstSetting (setting_of granted.now) }
    requires fits { Fits (setting_of granted.now) machine.old }
    requires index { index < length (setting_of granted.now).program.indices }
    requires body { IsBody (setting_of granted.now).program (Some index) (block stmts.now) }

    ensures numbers { OnOk result (machine.new ≡ form_numbers (setting_of granted.now) (Do index (block stmts.now)) machine.old) }
    ensures ran { Ran (K.written out.old) (K.written out.new) (K.faults out.old) (K.faults out.new) (K.kept out.old) (K.kept out.new)
        (text_of (form_prints (setting_of granted.now) (Do index (block stmts.now)) machine.old)) result }
{
    let (first, count) = granted.spaces.range(index);
    for turn in 0..count {
        machine.set_value(index, first + turn);
        run_body(alloc, granted, Some(index), stmts, machine, out)?;
    }
    machine.set_value(index, 0);
    Ok(())
}
