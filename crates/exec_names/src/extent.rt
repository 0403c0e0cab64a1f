//! Where something lies.

ghost use Rattle.std.specs.Prelude.{◌<◌, ◌^◌};

/// The first position, counted from 1, and how many there are. A piece that isn't there may begin past 2^32.
#[derive(Clone, Copy)]
pub struct Extent {
    pub start: u64,
    pub len: u32,

    pub ghost near: { start < 2 ^ 63 },
}
