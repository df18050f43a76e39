//! The book of positions: lots filled and hedged, by instrument.
#![tactic(auto)]

ghost use Rattle.std.specs.Prelude.{◌≡◌, ℕ, pos};
ghost use Rattle.book.specs.Rules.{Laws};
ghost use Rattle.positions.specs.Model.{AllSound};
ghost use Rattle.positions.specs.Netted.{NetLimitParts};
ghost use Rattle.positions.specs.Positions.{positions, position_limit};
ghost use Rattle.positions.specs.Sample.{Sample};

use copies::Copies;

mod trade;

pub use trade::{Side, Trade};

/// Each desk's positions: figure i is the filled net of instrument i, figure 64 + i its hedged net.
pub type Positions<'a> = Copies<'a, Trade>;

/// No figure lies beyond it. For any number of desks the rules keep the laws of a book, and a sample meets what these ask;
/// with a limit on the group's net they would not.
pub fn limit() -> i64
    ensures value { result ≡ pos position_limit }
    ensures sound { AllSound }
    ensures lawful { (n : ℕ) → Laws n (positions n) }
    ensures net_limit { (n : ℕ) → NetLimitParts n }
    ensures sample { (n : ℕ) → Sample n }
{
    10_250_000
}

#[cfg(test)]
mod tests;
