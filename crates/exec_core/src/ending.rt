//! The end of a worker.

ghost use Rattle.std.specs.Prelude.{[]};
ghost use Rattle.block_seats.specs.Leaving.{Leaves};
ghost use Rattle.block_seats.specs.Seated.{SeatsStand};

use crate::local::Local;
use block_pool::Pool;

impl Local {
    /// Gives all slots back.
    pub fn close(self, pool: &mut Pool)
        requires { SeatsStand pool.old self.blocks.seats }
        ensures { Leaves pool.old pool.new self.blocks.seats.slots [] }
    {
        let Local {
            control: _,
            scalars: _,
            blocks,
            created: _,
        } = self;
        blocks.close(pool);
    }
}
