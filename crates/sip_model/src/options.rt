//! What a run is asked for beside its program.

use crate::numbers::Numbers;

/// How many workers and servers there are, how much they keep, and where distributed blocks live.
#[derive(Drop)]
pub struct Options {
    /// Workers, from 1 to 32.
    pub workers: u32,
    /// Servers, from 1 to 8.
    pub servers: u32,
    /// Blocks that a worker caches or awaits at the most, from 2 to 64.
    pub cache: u32,
    /// Puts of a worker that aren't acknowledged at the most, from 1 to 16.
    pub puts: u32,
    /// Blocks that a server caches at the most, from 1 to 64.
    pub server_cache: u32,
    /// The homes of distributed blocks in turn; none stands for all workers in turn.
    pub place: Numbers,
}
