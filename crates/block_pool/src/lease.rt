//! Leases: each names one slot of a pool, can't be copied and is spent at the pool.

use std::marker::Model;

/// A slot to read and write.
pub struct Owned {
    pub(crate) slot: usize,
}

/// A slot that waits for the words of a block.
pub struct Awaiting {
    pub(crate) slot: usize,
}

/// A slot with a block that was asked for.
pub struct Cached {
    pub(crate) slot: usize,
}

/// A slot whose words are on their way, and don't change.
pub struct Sending {
    pub(crate) slot: usize,
}

impl Model for Owned {
    ghost use Rattle.std.specs.Prelude.{ℕ};

    ghost Value = { ℕ };

    ghost view = { λ l. l.slot };
}

impl Model for Awaiting {
    ghost use Rattle.std.specs.Prelude.{ℕ};

    ghost Value = { ℕ };

    ghost view = { λ l. l.slot };
}

impl Model for Cached {
    ghost use Rattle.std.specs.Prelude.{ℕ};

    ghost Value = { ℕ };

    ghost view = { λ l. l.slot };
}

impl Model for Sending {
    ghost use Rattle.std.specs.Prelude.{ℕ};

    ghost Value = { ℕ };

    ghost view = { λ l. l.slot };
}
