//! The lines that a script prints, and their text.
#![tactic(auto)]

mod lines;

pub use lines::{FigureLine, Line, NeedLine, print, write_line};
