//! Scripts, and the accounts that they must print.
#![tactic(auto)]

#[cfg(test)]
mod tests;
