//! The tree of a SIAL program, and what its indices and arrays span.
#![tactic(auto)]

mod access;
mod array;
mod classes;
mod condition;
mod index;
pub mod laws;
mod operand;
mod program;
mod statement;
mod text;
mod tuple;

pub use access::{Access, Class};
pub use array::{ArrayDecl, ArrayKind};
pub use classes::{Classes, ScalarClass, Side};
pub use condition::{Cond, Test, Value};
pub use index::{Bound, IndexDecl, Kind, Range};
pub use operand::{Bin, BlockRef, Op, Operand, Right, Slot, Target};
pub use program::{Proc, Program};
pub use statement::{Form, Stmt};
pub use text::Text;
pub use tuple::Tuple;
