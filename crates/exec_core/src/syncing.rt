//! What statements do to a worker that others take part in.

ghost use Rattle.std.specs.Prelude.{◌≡◌, slice_set, unwrap_or};
ghost use Rattle.block_pool.specs.Memory.{Memory};
ghost use Rattle.exec_core.specs.Moves.{Passes};
ghost use Rattle.exec_core.specs.Stands.{LocalStands, OfWorks};
ghost use Rattle.sial_meaning.specs.Next.{next_of};
ghost use Rattle.sial_meaning.specs.Number.{plus};
ghost use Rattle.sial_meaning.specs.Own.{scalar_of, with_created, with_scalar};
ghost use Rattle.sial_meaning.specs.Setting.{Setting};

use crate::local::Local;

impl Local {
    /// Goes past a statement that holds no other.
    pub fn pass(&mut self)
        ensures { (g : Setting) (p : Memory) → OfWorks g p self.old (λ rest own partials. Passes g p self.new own partials (next_of rest)) }
    {
        self.control.pass();
    }

    /// Notes that a distributed array is created, or that it is so no longer.
    pub fn set_created(&mut self, array: u16, created: bool)
        ensures { (g : Setting) (p : Memory) → OfWorks g p self.old (λ rest own partials. LocalStands g p self.new rest (with_created array created own) partials) }
    {
        self.flag(array, created);
    }

    // Changes a flag.
    fn flag(&mut self, array: u16, created: bool)
        ensures { self.new ≡ record self.old { created = slice_set self.old.created array created } }
    {
        if let Some(flag) = self.created.get_mut(array as usize) {
            *flag = created;
        }
    }

    /// Adds a number to a scalar that isn't partial; one that isn't set counts as 0.
    pub fn add_to(&mut self, scalar: u16, number: u64)
        ensures { (g : Setting) (p : Memory) → OfWorks g p self.old (λ rest own partials. LocalStands g p self.new rest (with_scalar scalar (plus (unwrap_or (scalar_of own scalar) 0) number) own) partials) }
    {
        let old = self.scalars.get(scalar).unwrap_or(0);
        self.scalars.set(scalar, old.wrapping_add(number));
    }
}
