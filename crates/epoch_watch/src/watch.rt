//! Epochs and marks of both classes.

ghost use Rattle.std.specs.Prelude.{◌≡◌, ◌<◌, ◌∷◌, [], ◌+◌, ◌-◌, ◌^◌, ◌++◌, List, None, Some, length, slice_set, IfOk, IfErr, OnOk, OnErr};
ghost use Rattle.access_marks.specs.Marks.{mark_at};
ghost use Rattle.epoch_watch.specs.Watching.{Watches, found_of, marks_of, touch, with_marks};
ghost use Rattle.sial_meaning.specs.Access.{Touch, clash_of, first_clash, mark_after};
ghost use Rattle.sial_meaning.specs.State.{Epochs, epoch_of, next_epoch};

use crate::conflict::Conflict;
use access_marks::Marks;
use sial_meaning::Clash;
use sial_syntax::{Access, Class};
use sip_files::OutOfMemory;
use std::alloc::Global;
use std::marker::Model;

/// Watches the accesses of a run: the mark of each shared block, the epoch of each class, and how many accesses there were.
/// No call after `open` takes memory.
#[derive(Drop)]
pub struct Watch {
    distributed: Marks,
    served: Marks,
    distributed_epoch: u64,
    served_epoch: u64,
    accesses: u64,
}

impl Model for Watch {
    ghost use Rattle.epoch_watch.specs.Watching.{Watched};

    ghost Value = { Watched };

    ghost view = { λ w. record {
      distributed = w.distributed;
      served = w.served;
      epochs = record { distributed = w.distributed_epoch; served = w.served_epoch };
      accesses = w.accesses;
    } };
}

impl Watch {
    /// Both classes are in their first epoch, and nothing was touched.
    pub fn open(alloc: Global, distributed: u32, served: u32) -> Result<Watch, OutOfMemory>
        ensures stands { IfOk result (λ w. Watches w (record { distributed = 1; served = 1 }) []) }
        ensures distributed { IfOk result (λ w. length w.distributed ≡ distributed) }
        ensures served { IfOk result (λ w. length w.served ≡ served) }
    {
        Ok(Watch {
            distributed: Marks::open(alloc, distributed)?,
            served: Marks::open(alloc, served)?,
            distributed_epoch: 1,
            served_epoch: 1,
            accesses: 0,
        })
    }

    /// How many accesses were noted.
    pub fn accesses(&self) -> u64
        ensures { result ≡ self.now.accesses }
    {
        self.accesses
    }

    /// The present epoch of a class, counted from 1.
    pub fn epoch(&self, class: Class) -> u64
        ensures { result ≡ epoch_of self.now.epochs class }
    {
        match class {
            Class::Distributed => self.distributed_epoch,
            Class::Served => self.served_epoch,
        }
    }

    /// Notes an access in the present epoch of its class, or tells the earlier one that it clashes with: the first to its block
    /// in this epoch.
    pub fn note(
        &mut self,
        class: Class,
        block: u32,
        kind: Access,
        line: u32,
    ) -> Result<(), Conflict>
        requires block { block < length (marks_of self.old class) }
        requires few { self.old.accesses < 2 ^ 64 - 1 }

        ensures ok { OnOk result ((epochs : Epochs) (log : List Touch) → Watches self.old epochs log → Watches self.new epochs (log ++ touch epochs class block kind line ∷ [])) }
        ensures err { IfErr result (λ conflict. (epochs : Epochs) (log : List Touch)
            → Watches self.old epochs log → first_clash [] (log ++ touch epochs class block kind line ∷ []) ≡ Some (found_of conflict)) }

        // A conflict changes nothing.
        ensures unchanged { OnErr result (self.new ≡ self.old) }

        // An access is one more, and there are as many blocks as before.
        ensures count { OnOk result (self.new.accesses ≡ self.old.accesses + 1) }
        ensures epochs { self.new.epochs ≡ self.old.epochs }
        ensures distributed { length self.new.distributed ≡ length self.old.distributed }
        ensures served { length self.new.served ≡ length self.old.served }
    {
        let epoch = self.epoch(class);
        match self.mark(class, block, kind, line) {
            Ok(()) => {
                self.accesses += 1;
                Ok(())
            }
            Err(clash) => Err(Conflict {
                class,
                block,
                epoch,
                clash,
            }),
        }
    }

    // Marks a block of a class for an access.
    fn mark(&mut self, class: Class, block: u32, kind: Access, line: u32) -> Result<(), Clash>
        requires { block < length (marks_of self.old class) }

        ensures granted { OnOk result (clash_of (mark_at (marks_of self.old class) block) (epoch_of self.old.epochs class) kind line ≡ None) }
        ensures noted { OnOk result (self.new ≡ with_marks self.old class (slice_set (marks_of self.old class) block (Some (mark_after (mark_at (marks_of self.old class) block) (epoch_of self.old.epochs class) kind line)))) }
        ensures clash { IfErr result (λ c. clash_of (mark_at (marks_of self.old class) block) (epoch_of self.old.epochs class) kind line ≡ Some c) }
        ensures err { OnErr result (self.new ≡ self.old) }
    {
        match class {
            Class::Distributed => self
                .distributed
                .note(block, self.distributed_epoch, kind, line),
            Class::Served => self.served.note(block, self.served_epoch, kind, line),
        }
    }

    /// Ends an epoch of a class.
    pub fn end_epoch(&mut self, class: Class)
        requires { epoch_of self.old.epochs class < 2 ^ 64 - 1 }

        ensures stands { (epochs : Epochs) (log : List Touch) → Watches self.old epochs log → Watches self.new (next_epoch epochs class) log }
        ensures epochs { self.new.epochs ≡ next_epoch self.old.epochs class }
        ensures accesses { self.new.accesses ≡ self.old.accesses }
        ensures distributed { self.new.distributed ≡ self.old.distributed }
        ensures served { self.new.served ≡ self.old.served }
    {
        match class {
            Class::Distributed => self.distributed_epoch += 1,
            Class::Served => self.served_epoch += 1,
        }
    }
}
