//! What a book is: its faults, its meaning and laws, and the calls that every book answers.
#![tactic(auto)]

ghost use Rattle.std.specs.Prelude.{◌≡◌, ℕ, ◌≤◌, List, length, ℤ, neg_ℤ, IfOk, None, unsigned_abs};
ghost use Rattle.desks.specs.Firsts.{first, unless};
ghost use Rattle.book.specs.Model.{BookModel};
ghost use Rattle.book.specs.Calls.{bytes_reply, form_tests, Made, Opens, malformed_reply, admits_reply, Enters, figure_reply, count_reply, need_reply, rules_of, Forms};

mod checks;
mod faults;
mod item;

pub use checks::{check_desk, check_desks, check_memory};
pub use faults::{BookFault, WrongField};
pub use item::{Item, Opening};

/// The copies of a book at the desks of a group. Each desk has figures, and enters items one by one; what an item is and does
/// to them is the book's own.
pub trait Book<'a>: Sized {
    ghost model: { BookModel Self };

    /// The bytes that it needs for that many desks.
    fn bytes(desks: u8) -> Result<usize, BookFault>
        ensures { result ≡ bytes_reply model desks };

    /// Whether it can be made.
    fn check(desks: u8, memory: &[u8]) -> Result<(), BookFault>
        ensures { result ≡ unless (first (form_tests model desks (length memory.now))) tt };

    /// A new book. Desks and memory are two parameters: the memory may be larger than the desks need.
    fn make(desks: u8, memory: &'a mut [u8]) -> Self
        requires { first (form_tests model desks (length memory.old)) ≡ None }
        ensures { Made model desks memory.old result };

    fn desks(&self) -> u8
        ensures { result ≡ model.desks self.now };

    /// How many figures a desk has.
    fn width(&self) -> u16
        ensures { result ≡ (rules_of model self.now).width };

    /// Sets one figure of every desk.
    fn open(&mut self, opening: Opening) -> Result<(), BookFault>
        ensures { Opens model self.old opening.figure opening.amount result self.new };

    /// The offset of the item's first wrong field; none if it is well-formed.
    fn malformed(&self, item: Item) -> Result<Option<u8>, BookFault>
        ensures { result ≡ malformed_reply model self.now item.origin item.bytes };

    /// Whether the desk may enter the item now.
    fn admits(&self, desk: u8, item: Item) -> Result<bool, BookFault>
        ensures { result ≡ admits_reply model self.now desk item.origin item.bytes };

    /// Enters the item at the desk.
    fn enter(&mut self, desk: u8, item: Item) -> Result<(), BookFault>
        ensures { Enters model self.old desk item.origin item.bytes result self.new };

    fn figure(&self, desk: u8, figure: u16) -> Result<i64, BookFault>
        ensures value { result ≡ figure_reply model self.now desk figure }
        ensures within { IfOk result (λ z. unsigned_abs z ≤ model.limit) };

    /// How many items the desk entered.
    fn count(&self, desk: u8) -> Result<u16, BookFault>
        ensures { result ≡ count_reply model self.now desk };
}

/// A book whose desks have a hedge need, which their figures determine.
pub trait Hedged<'a>: Book<'a> {
    ghost weigh: { List ℤ → ℤ };

    fn need(&self, desk: u8) -> Result<i64, BookFault>
        ensures { result ≡ need_reply Self.Book.model weigh self.now desk };
}

/// Forms a book on lent memory, or says why not.
pub fn form<'a, B: Book<'a>>(desks: u8, memory: &'a mut [u8]) -> Result<B, BookFault>
    ensures { Forms B.Book.model desks memory.old result }
{
    B::check(desks, memory)?;
    Ok(B::make(desks, memory))
}
