//! The end of a worker's own blocks.

ghost use Rattle.std.specs.Prelude.{[]};
ghost use Rattle.block_seats.specs.Leaving.{Leaves};
ghost use Rattle.block_seats.specs.Seated.{SeatsStand};

use crate::blocks::Blocks;
use block_pool::Pool;

impl Blocks {
    /// Gives all slots back.
    pub fn close(self, pool: &mut Pool)
        requires { SeatsStand pool.old self.seats }
        ensures { Leaves pool.old pool.new self.seats.slots [] }
    {
        let Blocks {
            seats,
            tuples: _,
            locals_at: _,
            temps_at: _,
        } = self;
        seats.close(pool);
    }
}
