//! How a kernel's value meets the number that its target holds.

ghost use Rattle.std.specs.Prelude.{◌≡◌};
ghost use Rattle.kernel_permute.specs.How.{combined};

/// What becomes of the target's old number.
#[derive(Clone, Copy, Debug, PartialEq, Eq)]
pub enum How {
    /// The value replaces it.
    Set,
    /// The value is added to it.
    Add,
    /// The value is taken from it.
    Subtract,
}

impl How {
    /// The number that the target holds afterwards, modulo 2^64.
    pub fn combine(self, old: u64, value: u64) -> u64
        ensures { result ≡ combined self old value }
    {
        match self {
            How::Set => value,
            How::Add => old.wrapping_add(value),
            How::Subtract => old.wrapping_sub(value),
        }
    }
}
