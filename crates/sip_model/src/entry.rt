//! What the record says of one step.

/// One step: how many entries were enabled, which was taken, and what it did. An unused block is 2^32 - 1.
#[derive(Clone, Copy)]
pub struct Entry {
    /// How many entries were enabled.
    pub enabled: u32,
    /// The place of the one that was taken, counted from 0.
    pub place: u32,
    /// What was done: 1 to 8 by a worker, 16 to 25 a delivery, 32 a flush.
    pub action: u8,
    /// The worker, the sender or the server.
    pub actor: u8,
    /// The receiver of a delivery, else 0.
    pub peer: u8,
    /// The class of the block: 1 distributed, 2 served, 0 where there is none.
    pub class: u8,
    /// The block.
    pub block: u32,
    /// The block that was dropped or evicted; a served one has its highest bit set.
    pub dropped: u32,
    /// The origin of a put: its instance modulo 2^32,
    pub instance: u32,
    /// its iteration,
    pub iteration: u32,
    /// and its ordinal modulo 2^32.
    pub ordinal: u32,
}
