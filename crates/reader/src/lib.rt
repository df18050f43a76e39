//! The commands of a script, and the reader that takes them from its bytes.
#![tactic(auto)]

pub use book::Opening;

mod command;
mod faults;
mod reader;

pub use command::{Command, Forming, Kind, Stage, UnknownLetter};
pub use faults::ScriptFault;
pub use reader::Reader;
