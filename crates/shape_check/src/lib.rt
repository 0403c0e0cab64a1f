//! The shape rules of a program: it is granted, or refused by its first fault.
#![tactic(auto)]

mod agreeing;
mod blocks;
mod broken;
mod check;
mod conditions;
mod declarations;
mod declared;
mod fault;
mod forms;
mod kinds;
mod lists;
mod slots;
mod statements;
mod walk;

pub use check::shapes;
pub use fault::ShapeFault;
