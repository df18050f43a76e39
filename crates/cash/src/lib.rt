//! The book of cash: a balance for each desk, moved by payments.
#![tactic(auto)]

ghost use Rattle.std.specs.Prelude.{◌≡◌, ℕ, pos};
ghost use Rattle.book.specs.Rules.{Laws};
ghost use Rattle.cash.specs.Model.{AllSound};
ghost use Rattle.cash.specs.Cash.{cash, balance_limit};
ghost use Rattle.cash.specs.Sample.{Sample};
ghost use Rattle.cash.specs.Sums.{KeepsSum, PaysToTheLast};

use copies::Copies;

mod payment;

pub use payment::Payment;

/// Each desk's copy of all balances: figure d is the balance of desk d.
pub type Cash<'a> = Copies<'a, Payment>;

/// No balance lies beyond it. For any number of desks the rules keep the laws of a book, and a sample meets what these ask;
/// a payment keeps the sum of the balances, and a balance pays itself out to the last and no more.
pub fn limit() -> i64
    ensures value { result ≡ pos balance_limit }
    ensures sound { AllSound }
    ensures lawful { (n : ℕ) → Laws n (cash n) }
    ensures keeps_sum { (n : ℕ) → KeepsSum n }
    ensures pays_out { (n : ℕ) → PaysToTheLast n }
    ensures sample { Sample }
{
    2_024_000_000
}

#[cfg(test)]
mod tests;
