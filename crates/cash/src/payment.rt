ghost use Rattle.std.specs.Prelude.{◌≡◌};
ghost use Rattle.desks.specs.Firsts.{first};
ghost use Rattle.book.specs.Items.{reading};
ghost use Rattle.cash.specs.Payments.{wrong_fields, payment_of};

use book::{Item, WrongField};
use copies::{Entry, Movement, Openings};

/// A well-formed item: an amount to another desk.
#[derive(Clone, Copy, PartialEq, Eq, Debug)]
pub struct Payment {
    pub payee: u8,
    pub amount: u32,
}

impl Entry for Payment {
    ghost use Rattle.cash.specs.Entries.{payments};

    ghost model = { payments };

    // A balance for each desk.
    fn width(desks: u8) -> u16 {
        u16::from(desks)
    }

    fn openings(desks: u8) -> Openings {
        Openings {
            below: u16::from(desks),
            least: 0,
            most: 1_000_000_000,
        }
    }

    fn read(desks: u8, item: Item) -> Result<Payment, WrongField>
        ensures { result ≡ reading (first (wrong_fields desks item.origin item.bytes)) (payment_of item.bytes) }
    {
        // The pattern names each byte; a type for the fields of both books would be taken apart here again.
        let [kind, payee, a, b, c, d, e, f] = item.bytes;
        if kind != 3 {
            return Err(WrongField { offset: 0 });
        }
        if payee >= desks || payee == item.origin {
            return Err(WrongField { offset: 1 });
        }
        let amount = u32::from_be_bytes([a, b, c, d]);
        if !(1..=1_000_000).contains(&amount) {
            return Err(WrongField { offset: 2 });
        }
        if e != 0 || f != 0 {
            return Err(WrongField { offset: 6 });
        }
        Ok(Payment { payee, amount })
    }

    // The payee gets what the origin pays.
    fn movement(self, origin: u8) -> Movement {
        Movement {
            amount: i64::from(self.amount),
            to: u16::from(self.payee),
            from: Some(u16::from(origin)),
        }
    }
}
