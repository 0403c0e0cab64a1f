//! The first access of a run that may not stand together with an earlier one, found without a log.
#![tactic(auto)]

mod conflict;
mod watch;

pub use conflict::Conflict;
pub use watch::Watch;
