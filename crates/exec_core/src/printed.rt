//! What statements print.

/// A line that a statement printed, if it printed one: a text of the tables by its number, or a scalar with its value.
#[derive(Clone, Copy)]
pub enum Printed {
    Nothing,
    Text { text: u32 },
    Scalar { scalar: u16, value: u64 },
}
