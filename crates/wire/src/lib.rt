//! The wire of a group: the frames that its desks sent, the oldest first, each with its sender and the desks that took it.
#![tactic(auto)]

mod faults;
mod sent;
mod wire;

pub use faults::WireFault;
pub use sent::{MOST_CONTENT, Sent};
pub use wire::Wire;

#[cfg(test)]
mod tests;
