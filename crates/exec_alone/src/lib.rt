//! One worker that runs a program alone, an instruction at a time: it takes up the tuples of each pardo in their order.
#![tactic(auto)]

mod halt;
mod laws;
mod turns;

pub use halt::Halt;
pub use laws::turns_are_few;
pub use turns::Turns;
