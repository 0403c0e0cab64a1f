//! What the indices of a program run over, and where the blocks of its arrays stand.
#![tactic(auto)]

mod arrays;
mod blocks;
mod boxes;
mod cuts;
mod elements;
mod extent;
mod fault;
mod given;
mod indices;
mod kinds;
mod laying;
mod names;
mod ranges;
mod readers;
mod resolving;
mod spaces;
mod span;
mod spanning;
mod start;
mod starts;
mod statements;
mod widths;
mod within;

pub use cuts::Cuts;
pub use extent::Extent;
pub use fault::{SpaceFault, SpaceKind};
pub use kinds::Kinds;
pub use resolving::resolve;
pub use spaces::Spaces;
pub use span::Span;
pub use start::{Start, StartBlock};
