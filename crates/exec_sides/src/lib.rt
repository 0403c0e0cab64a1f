//! Right sides and assignments to blocks, by the kernels.
#![tactic(auto)]

mod assigning;
mod axes;
mod contracting;
mod copying;
mod indices;
mod laws;
mod parts;
mod positions;
mod scalars;
mod scaling;
mod seen;
mod side;
mod sums;
mod uniform;

pub use assigning::assign;
pub use laws::{instructions_name_once, old_numbers_are_forgotten};
pub use positions::integrals;
pub use scalars::number;
pub use seen::{Seen, Shape};
pub use side::{Side, Term};
