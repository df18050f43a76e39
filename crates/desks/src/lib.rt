//! What every layer shares: sets of desks, the parameters of a group, and what a refusal says.
#![tactic(auto)]

mod faults;
mod group;
mod set;

pub use faults::{FormFault, Layer, Parameter, Refusal, check_memory};
pub use group::{Group, GroupParameters};
pub use set::DeskSet;

/// The bytes of an item, the unit that desks publish and book.
pub const ITEM_SIZE: usize = 8;

#[cfg(test)]
mod tests;
