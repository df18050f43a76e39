//! A whole script: its commands on one floor, and the account that it prints.
#![tactic(auto)]

mod books;
mod closing;
mod day;
mod form;
mod session;
mod whole;

pub use whole::{account_text, run};
