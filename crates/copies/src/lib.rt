//! A book as each desk's copy of figures over one ledger, for any kind of entry: what its items are read as, and what they
//! move.
#![tactic(auto)]

mod calls;
mod entry;
mod table;

pub use entry::{Entry, Hedging, Movement, Openings};
pub use table::Copies;
