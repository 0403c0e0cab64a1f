//! What indices and named blocks are now, by the numbers that the indices have.
#![tactic(auto)]

mod extent;
mod lying;
mod matching;
mod member;
mod naming;
mod supers;

pub use extent::Extent;
pub use lying::{extent_now, extents_now};
pub use matching::{matched_count, matched_number};
pub use member::{Member, are_members, member_of, members_of};
pub use naming::{block_number, value_of};
pub use supers::super_of;
