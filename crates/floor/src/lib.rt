//! The floor's faults, and the check of forming.
#![tactic(auto)]

mod faults;
mod forming;

pub use faults::FloorFault;
pub use forming::{BookKind, check_form};
