//! The dimensions of `allocate` and `deallocate`.

ghost use Rattle.std.specs.Prelude.{◌≡◌, List, IfOk};
ghost use Rattle.sial_syntax.specs.declared.operand.Slot.{Slot};

use sial_syntax::Slot;
use std::alloc::{AllocError, Global};
use std::marker::Model;

/// Slots, which contracts see as their list.
#[derive(Drop)]
pub struct Slots {
    slots: Vec<Slot>,
}

impl Model for Slots {
    ghost use Rattle.std.specs.Prelude.{List};
    ghost use Rattle.sial_syntax.specs.declared.operand.Slot.{Slot};

    ghost Value = { List Slot };

    ghost view = { λ s. s.slots.items };
}

impl Slots {
    /// These slots, with no memory taken.
    pub fn from_vec(slots: Vec<Slot>) -> Slots
        ensures { result ≡ slots.items }
    {
        Slots { slots }
    }

    /// A copy of these slots.
    pub fn from_slice(alloc: Global, slots: &[Slot]) -> Result<Slots, AllocError>
        ensures { IfOk result (λ s. s ≡ slots.now) }
    {
        Ok(Slots {
            slots: Vec::from_slice(alloc, slots)?,
        })
    }

    /// The slots.
    pub fn as_slice(&self) -> &[Slot]
        ensures { result.now ≡ self.now }
    {
        self.slots.as_slice()
    }
}
