//! The marks of all blocks of a class.

ghost use Rattle.std.specs.Prelude.{◌≡◌, ◌<◌, Some, None, length, replicate, slice_index_or, slice_set, OnOk, OnErr, IfOk, IfErr};
ghost use Rattle.sial_meaning.specs.Access.{clash_of, mark_after};
ghost use Rattle.access_marks.specs.Marks.{mark_at, mark_of};

use sial_meaning::{Clash, stand_together};
use sial_syntax::Access;
use sip_files::OutOfMemory;
use std::alloc::Global;
use std::marker::Model;

/// The mark of each block of a class, none at the start; 16 bytes a block. No call after `open` takes memory.
#[derive(Drop)]
pub struct Marks {
    slots: Vec<Slot>,
}

// The first access of the last epoch that touched a block; no kind where nothing touched it.
#[derive(Clone, Copy)]
pub struct Slot {
    pub epoch: u64,
    pub line: u32,
    pub kind: Option<Access>,
}

impl Model for Marks {
    ghost use Rattle.std.specs.Prelude.{List, Option, map};
    ghost use Rattle.sial_meaning.specs.Access.{Mark};
    ghost use Rattle.access_marks.specs.Marks.{mark_of};

    ghost Value = { List (Option Mark) };

    ghost view = { λ m. map mark_of m.slots.items };
}

impl Marks {
    /// No block has a mark.
    pub fn open(alloc: Global, blocks: u32) -> Result<Marks, OutOfMemory>
        ensures { IfOk result (λ marks. marks ≡ replicate blocks None) }
    {
        Ok(Marks {
            slots: vec![in alloc; Slot::EMPTY; blocks as usize]?,
        })
    }

    /// Notes an access, or says with which earlier one it clashes.
    pub fn note(&mut self, block: u32, epoch: u64, kind: Access, line: u32) -> Result<(), Clash>
        requires { block < length self.old }

        ensures granted { OnOk result (clash_of (mark_at self.old block) epoch kind line ≡ None) }
        ensures noted { OnOk result (self.new ≡ slice_set self.old block (Some (mark_after (mark_at self.old block) epoch kind line))) }

        // A clash changes nothing.
        ensures clash { IfErr result (λ c. clash_of (mark_at self.old block) epoch kind line ≡ Some c) }
        ensures err { OnErr result (self.new ≡ self.old) }
    {
        let slot = self.slots[block as usize];
        if let Some(clash) = slot.clash(epoch, kind, line) {
            return Err(clash);
        }
        self.slots[block as usize] = slot.after(epoch, kind, line);
        Ok(())
    }
}

impl Slot {
    // no mark
    const EMPTY: Slot = Slot {
        epoch: 0,
        line: 0,
        kind: None,
    };

    fn clash(self, epoch: u64, kind: Access, line: u32) -> Option<Clash>
        ensures { result ≡ clash_of (mark_of self) epoch kind line }
    {
        let earlier = self.kind?;
        if self.epoch != epoch || stand_together(earlier, kind) {
            return None;
        }
        Some(Clash {
            later: kind,
            later_line: line,
            earlier,
            earlier_line: self.line,
        })
    }

    fn after(self, epoch: u64, kind: Access, line: u32) -> Slot
        ensures { mark_of result ≡ Some (mark_after (mark_of self) epoch kind line) }
    {
        if self.kind.is_some() && self.epoch == epoch {
            return self;
        }
        Slot {
            epoch,
            line,
            kind: Some(kind),
        }
    }
}
