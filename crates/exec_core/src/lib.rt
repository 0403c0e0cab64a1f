//! One worker: its work, and what it holds of its own.
#![tactic(auto)]

mod ending;
mod fixed;
mod laws;
mod local;
mod locals;
mod naming;
mod needs;
mod opening;
mod pardo;
mod passing;
mod printed;
mod printing;
mod reading;
mod sending;
mod shared;
mod stepping;
mod syncing;
mod unsetting;

pub use laws::{good_work_runs_well, work_runs_well};
pub use local::Local;
pub use printed::Printed;
pub use shared::{Needs, SharedBlock};
