//! What a SIAL program means when one worker runs it alone, and which programs every schedule agrees on.
#![tactic(auto)]

pub mod acceptance;
mod clash;
pub mod laws;
pub mod numbers;
pub mod read_back;
mod standing;
mod trap;
pub mod whole;

pub use clash::Clash;
pub use standing::stand_together;
pub use trap::{Trap, TrapKind};
