ghost use Rattle.std.specs.Prelude.{◌≡◌};
ghost use Rattle.desks.specs.Firsts.{first, unless};

use book::{BookFault, Item, Opening, WrongField};

/// What an item does to the figures of a desk: one figure gets the amount, and another pays it, where one is named.
#[derive(Clone, Copy, PartialEq, Eq, Debug)]
pub struct Movement {
    pub amount: i64,
    pub to: u16,
    pub from: Option<u16>,
}

/// The figures below this number take an opening, from the least amount to the most.
#[derive(Clone, Copy, PartialEq, Eq, Debug)]
pub struct Openings {
    pub below: u16,
    pub least: i32,
    pub most: i32,
}

impl Openings {
    ghost use Rattle.copies.specs.Entries.{range_tests};

    // Whether the figure takes an opening of that amount.
    pub(crate) fn check(self, opening: Opening) -> Result<(), BookFault>
        ensures { result ≡ unless (first (range_tests self opening.figure opening.amount)) tt }
    {
        if opening.figure >= self.below {
            return Err(BookFault::Figure(opening.figure));
        }
        if !(self.least..=self.most).contains(&opening.amount) {
            return Err(BookFault::Amount);
        }
        Ok(())
    }
}

/// What a well-formed item says.
pub trait Entry: Drop {
    ghost use Rattle.copies.specs.Entries.{EntryModel, openings_of, read_reply};

    ghost model: { EntryModel Self };

    /// How many figures a desk has, of that many desks.
    fn width(desks: u8) -> u16
        ensures { result ≡ (model.rules desks).width };

    /// The openings that a desk takes, of that many desks.
    fn openings(desks: u8) -> Openings
        ensures { result ≡ openings_of (model.rules desks) };

    /// Reads an item among that many desks; else says where its first wrong field is.
    fn read(desks: u8, item: Item) -> Result<Self, WrongField>
        ensures { result ≡ read_reply model desks item.origin item.bytes };

    /// What it moves, as an item of that origin.
    fn movement(self, origin: u8) -> Movement
        ensures { result ≡ model.movement self origin };
}

/// Entries of a book whose desks hedge: a desk needs what would bring the sum of its figures to 0.
pub trait Hedging: Entry {}
