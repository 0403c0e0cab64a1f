//! A sink in memory, with planned faults.

ghost use Rattle.std.specs.Prelude.{◌≡◌, Some, false, IsTrue, IsErr, OnOk, OnErr};
ghost use Rattle.sip_files.specs.Kept.{stands_alone};
ghost use Rattle.sip_files.specs.Sink.{Wrote};
ghost use Rattle.sip_files.specs.Plan.{with_number, is_next};
ghost use Rattle.sip_files.specs.MemorySink.{nothing_written, after_write, after_planned, after_refused};

use crate::fault::{Failed, OutOfMemory};
use crate::plan::Plan;
use crate::sink::Sink;
use std::alloc::Global;
use std::marker::Model;

/// A sink in memory. It tells its content, and fails where that was planned.
#[derive(Drop)]
pub struct MemorySink {
    bytes: Vec<u8>,
    plan: Plan,
    refused: u64,
}

impl Model for MemorySink {
    ghost use Rattle.sip_files.specs.MemorySink.{SinkInMemory};

    ghost Value = { SinkInMemory };

    ghost view = { λ s. record { bytes = s.bytes.items; plan = s.plan; refused = s.refused } };
}

impl MemorySink {
    /// Nothing is written, and nothing planned.
    pub fn new(alloc: Global) -> MemorySink
        ensures { result ≡ nothing_written }
    {
        MemorySink {
            bytes: Vec::new(alloc),
            plan: Plan::new(alloc),
            refused: 0,
        }
    }

    /// Lets the write of this number fail, counted from 1 since `new`; it then changes nothing.
    pub fn fail_at(&mut self, nth: u64) -> Result<(), OutOfMemory>
        ensures ok { OnOk result (self.new ≡ record self.old { plan = with_number self.old.plan nth }) }
        ensures err { OnErr result (self.new ≡ self.old) }
    {
        self.plan.add(nth)
    }

    /// How many growths found no memory, each a counted fault.
    pub fn refused(&self) -> u64
        ensures { result ≡ self.now.refused }
    {
        self.refused
    }

    /// All that was written.
    pub fn bytes(&self) -> &[u8]
        ensures { result.now ≡ self.now.bytes }
    {
        self.bytes.as_slice()
    }
}

impl Sink for MemorySink {
    ghost written = { λ s. Some s.bytes };

    ghost faults = { λ s. s.plan.faults };

    ghost kept = { λ _. stands_alone };

    fn write(&mut self, bytes: &[u8]) -> Result<(), Failed>
        ensures wrote { Wrote (Some self.old.bytes) (Some self.new.bytes) self.old.plan.faults self.new.plan.faults stands_alone stands_alone bytes.now result }

        // A write fails exactly where that was planned or its growth found no memory, and then it adds nothing.
        ensures planned { IsTrue (is_next self.old.plan) → IsErr result }
        ensures ok { OnOk result (self.new ≡ after_write self.old bytes.now) }
        ensures after_planned { IsTrue (is_next self.old.plan) → self.new ≡ after_planned self.old }
        ensures after_refused { is_next self.old.plan ≡ false → OnErr result (self.new ≡ after_refused self.old) }
    {
        if self.plan.meet() {
            return Err(Failed);
        }
        if self.bytes.extend_from_slice(bytes).is_err() {
            self.refused = self.refused.saturating_add(1);
            self.plan.refuse();
            return Err(Failed);
        }
        Ok(())
    }
}
