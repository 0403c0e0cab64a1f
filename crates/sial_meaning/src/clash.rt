//! Two accesses to one block that may not stand together.

use sial_syntax::Access;

/// The refused access and the first one to that block in that epoch, each with its text line.
#[derive(Clone, Copy, Debug, PartialEq, Eq)]
pub struct Clash {
    pub later: Access,
    pub later_line: u32,
    pub earlier: Access,
    pub earlier_line: u32,
}
