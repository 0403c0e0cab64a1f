//! Planned faults of one kind of call.

ghost use Rattle.std.specs.Prelude.{◌≡◌, ◌+◌, ◌≤◌, ◌==◌, false, OnOk, OnErr};
ghost use Rattle.std.specs.List.{list_any};
ghost use Rattle.sip_files.specs.Plan.{unplanned, with_number, is_next, after_call, after_refusal};

use crate::fault::OutOfMemory;
use std::alloc::Global;
use std::marker::Model;

/// Which calls of one kind are to fail, how many came, and how many failed.
#[derive(Drop)]
pub struct Plan {
    numbers: Vec<u64>,
    calls: u64,
    faults: u64,
}

impl Model for Plan {
    ghost use Rattle.sip_files.specs.Plan.{Planned};

    ghost Value = { Planned };

    ghost view = { λ p. record { numbers = p.numbers.items; calls = p.calls; faults = p.faults } };
}

impl Plan {
    /// Nothing is planned, and no call came.
    pub fn new(alloc: Global) -> Plan
        ensures { result ≡ unplanned }
    {
        Plan {
            numbers: Vec::new(alloc),
            calls: 0,
            faults: 0,
        }
    }

    /// Lets the call of this number fail, counted from 1.
    pub fn add(&mut self, number: u64) -> Result<(), OutOfMemory>
        ensures ok { OnOk result (self.new ≡ with_number self.old number) }
        ensures err { OnErr result (self.new ≡ self.old) }
    {
        self.numbers.push(number)?;
        Ok(())
    }

    /// Counts a call, and answers whether it is to fail.
    pub fn meet(&mut self) -> bool
        ensures value { result ≡ is_next self.old }
        ensures after { self.new ≡ after_call self.old }
        ensures never_falls { self.old.faults ≤ self.new.faults }
        ensures uncounted { result ≡ false → self.new.faults ≡ self.old.faults }
    {
        let calls = self.calls;
        let fails = is_planned(self.numbers.as_slice(), calls);
        self.calls = calls.saturating_add(1);
        if fails {
            self.faults = self.faults.saturating_add(1);
        }
        fails
    }

    /// Counts a call that failed for another reason.
    pub fn refuse(&mut self)
        ensures after { self.new ≡ after_refusal self.old }
        ensures never_falls { self.old.faults ≤ self.new.faults }
    {
        self.faults = self.faults.saturating_add(1);
    }
}

// Whether the call after so many is planned.
fn is_planned(numbers: &[u64], calls: u64) -> bool
    ensures { result ≡ list_any (λ number. number == calls + 1) numbers.now }
{
    numbers
        .iter()
        .any(|number| number.checked_sub(1) == Some(calls))
}
