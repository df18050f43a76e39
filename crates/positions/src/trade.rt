ghost use Rattle.std.specs.Prelude.{◌≡◌};
ghost use Rattle.desks.specs.Firsts.{first};
ghost use Rattle.book.specs.Items.{reading};
ghost use Rattle.positions.specs.Trades.{wrong_fields, trade_of, figure_of};

use book::{Item, WrongField};
use copies::{Entry, Hedging, Movement, Openings};
use desks::ITEM_SIZE;

/// Whether lots were filled for a client or hedged by the desk.
#[derive(Clone, Copy, PartialEq, Eq, Debug)]
pub enum Side {
    Fill,
    Hedge,
}

/// A well-formed item: so many lots of an instrument, sold where negative.
#[derive(Clone, Copy, PartialEq, Eq, Debug)]
pub struct Trade {
    pub side: Side,
    pub instrument: u8,
    pub lots: i32,
}

impl TryFrom<[u8; ITEM_SIZE]> for Trade {
    type Error = WrongField;

    ghost try_from_gives = { λ x r. r ≡ reading (first (wrong_fields x)) (trade_of x) };

    // Reads an item.
    fn try_from(item: [u8; ITEM_SIZE]) -> Result<Trade, WrongField> {
        // The pattern names each byte; a type for the fields of both books would be taken apart here again.
        let [kind, instrument, a, b, c, d, e, f] = item;
        let side = match kind {
            1 => Side::Fill,
            2 => Side::Hedge,
            _ => return Err(WrongField { offset: 0 }),
        };
        if instrument > 63 {
            return Err(WrongField { offset: 1 });
        }
        let lots = i32::from_be_bytes([a, b, c, d]);
        if lots == 0 || !(-10_000..=10_000).contains(&lots) {
            return Err(WrongField { offset: 2 });
        }
        if e != 0 || f != 0 {
            return Err(WrongField { offset: 6 });
        }
        Ok(Trade {
            side,
            instrument,
            lots,
        })
    }
}

impl Trade {
    /// The figure that it changes.
    pub fn figure(self) -> u16
        ensures { result ≡ figure_of self }
    {
        let instrument = u16::from(self.instrument);
        match self.side {
            Side::Fill => instrument,
            Side::Hedge => 64 + instrument,
        }
    }
}

impl Entry for Trade {
    ghost use Rattle.positions.specs.Entries.{trades};

    ghost model = { trades };

    fn width(_desks: u8) -> u16 {
        128
    }

    fn openings(_desks: u8) -> Openings {
        Openings {
            below: 64,
            least: -10_000,
            most: 10_000,
        }
    }

    fn read(_desks: u8, item: Item) -> Result<Trade, WrongField> {
        Trade::try_from(item.bytes)
    }

    fn movement(self, _origin: u8) -> Movement {
        Movement {
            amount: i64::from(self.lots),
            to: self.figure(),
            from: None,
        }
    }
}

impl Hedging for Trade {}
