//! The messages in flight.
#![tactic(auto)]

mod net;

pub use net::Net;
