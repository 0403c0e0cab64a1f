//! Constants.

use sial_syntax::Text;

/// A number that the bounds of ranges may name.
#[derive(Drop)]
pub struct Constant {
    pub name: Text,
    pub value: u64,
}
