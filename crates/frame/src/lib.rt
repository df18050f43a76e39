//! The frames that desks send each other: their kinds, what refuses one, and the reader and the writer of their bytes.
#![tactic(auto)]

mod faults;
mod frame;
mod kinds;
mod reader;
#[cfg(test)]
mod tests;
mod writer;

pub use faults::FrameFault;
pub use frame::{Body, Frame};
pub use kinds::{Kind, Kinds};
pub use reader::read;
pub use writer::write;
