ghost use Rattle.std.specs.Prelude.{◌≡◌, ◌*◌};

use crate::entry::{Entry, Hedging, Movement};
use crate::table::Copies;
use book::{Book, BookFault, Hedged, Item, Opening, check_desk, check_desks, check_memory};
use ledger::Ledger;
use std::marker::PhantomData;

const MOST_ITEMS: u16 = 1024;

// The bytes that the figures of so many desks need.
fn bytes_for<E: Entry>(desks: u8) -> usize
    ensures { result ≡ E.model.bytes desks }
{
    usize::from(desks) * usize::from(E::width(desks)) * 8
}

impl<'a, E: Entry> Copies<'a, E> {
    ghost use Rattle.ledger.specs.Figures.{figures};
    ghost use Rattle.std.specs.Prelude.{◌^◌, ◌<◌, unsigned_abs};
    ghost use Rattle.book.specs.Rules.{total};
    ghost use Rattle.copies.specs.Carrying.{Ready, Carried};
    ghost use Rattle.copies.specs.Entries.{covered};
    ghost use Rattle.std.specs.Prelude.{[], ◌∷◌, nat_le};
    ghost use Rattle.desks.specs.Firsts.{first, unless};
    ghost use Rattle.book.specs.declared.faults.BookFault.TheVariants.{Desk};

    // Whether a desk is one of the group.
    fn check_desk(&self, desk: u8) -> Result<(), BookFault>
        ensures { result ≡ unless (first ((nat_le self.now.ledger.desks desk, Desk desk) ∷ [])) tt }
    {
        check_desk(self.ledger.desks(), desk)
    }

    // Whether the figure that pays has the amount, in that desk's copy; so it is where none pays. A match, since the check does
    // not find what `is_none_or` says of the figure.
    fn covers(&self, desk: u8, movement: Movement) -> bool
        ensures { result ≡ covered movement (figures self.now.ledger desk) }
    {
        match movement.from {
            Some(from) => movement.amount <= self.ledger.figure(desk, from),
            None => true,
        }
    }

    // Counts an item of the desk, and carries out what it moves. The ledger does all of it: it has the figures, and every sum is
    // within the bounds.
    fn carry_out(&mut self, desk: u8, movement: Movement)
        requires { Ready E.model.step self.old.ledger desk movement }
        ensures { Carried self.old.ledger desk movement self.new.ledger }
    {
        let _ = self.ledger.raise(desk);
        let _ = self.ledger.add(desk, movement.to, movement.amount);
        if let Some(from) = movement.from {
            let _ = self.ledger.add(desk, from, -movement.amount);
        }
    }

    // The sum of a desk's figures, and 0 where there is no such desk.
    fn net(&self, desk: u8) -> i64
        ensures value { result ≡ total (figures self.now.ledger desk) }
        ensures small { unsigned_abs result < 2 ^ 63 }
    {
        let mut net = 0;
        // No `sum()`: that each sum on the way fits is not proved of a chain of signed numbers.
        for figure in 0..self.ledger.width() {
            net += self.ledger.figure(desk, figure);
        }
        net
    }
}

impl<'a, E: Entry> Book<'a> for Copies<'a, E> {
    ghost use Rattle.std.specs.Prelude.{length};
    ghost use Rattle.desks.specs.Firsts.{first, unless};
    ghost use Rattle.book.specs.Calls.{bytes_reply, form_tests};
    ghost use Rattle.copies.specs.Model.{copies_model};

    ghost model = { copies_model E.Entry };

    fn bytes(desks: u8) -> Result<usize, BookFault>
        ensures { result ≡ bytes_reply (copies_model E.Entry) desks }
    {
        check_desks(desks)?;
        Ok(bytes_for::<E>(desks))
    }

    fn check(desks: u8, memory: &[u8]) -> Result<(), BookFault>
        ensures { result ≡ unless (first (form_tests (copies_model E.Entry) desks (length memory.now))) tt }
    {
        check_desks(desks)?;
        check_memory(memory.len(), bytes_for::<E>(desks))
    }

    fn make(desks: u8, memory: &'a mut [u8]) -> Copies<'a, E> {
        Copies {
            ledger: Ledger::new(desks, E::width(desks), memory),
            entries: PhantomData,
        }
    }

    fn desks(&self) -> u8 {
        self.ledger.desks()
    }

    fn width(&self) -> u16 {
        self.ledger.width()
    }

    fn open(&mut self, opening: Opening) -> Result<(), BookFault> {
        E::openings(self.ledger.desks()).check(opening)?;
        self.ledger
            .set_all(opening.figure, i64::from(opening.amount));
        Ok(())
    }

    fn malformed(&self, item: Item) -> Result<Option<u8>, BookFault> {
        self.check_desk(item.origin)?;
        let read = E::read(self.ledger.desks(), item);
        Ok(read.err().map(|wrong| wrong.offset))
    }

    fn admits(&self, desk: u8, item: Item) -> Result<bool, BookFault> {
        self.check_desk(desk)?;
        self.check_desk(item.origin)?;
        // A match, since the check does not find what `is_ok_and` says of the entry.
        match E::read(self.ledger.desks(), item) {
            Ok(entry) => Ok(self.covers(desk, entry.movement(item.origin))),
            Err(_) => Ok(false),
        }
    }

    fn enter(&mut self, desk: u8, item: Item) -> Result<(), BookFault> {
        self.check_desk(desk)?;
        self.check_desk(item.origin)?;
        let movement = E::read(self.ledger.desks(), item)?.movement(item.origin);
        if !self.covers(desk, movement) {
            return Err(BookFault::NotAdmitted(item.origin));
        }
        if self.ledger.count(desk) >= MOST_ITEMS {
            return Err(BookFault::Full(desk));
        }
        self.carry_out(desk, movement);
        Ok(())
    }

    fn figure(&self, desk: u8, figure: u16) -> Result<i64, BookFault> {
        self.check_desk(desk)?;
        if figure >= self.ledger.width() {
            return Err(BookFault::Figure(figure));
        }
        Ok(self.ledger.figure(desk, figure))
    }

    fn count(&self, desk: u8) -> Result<u16, BookFault> {
        self.check_desk(desk)?;
        Ok(self.ledger.count(desk))
    }
}

impl<'a, E: Hedging> Hedged<'a> for Copies<'a, E> {
    ghost use Rattle.copies.specs.Entries.{need_of};

    ghost weigh = { need_of };

    // What would bring the desk's net to 0.
    fn need(&self, desk: u8) -> Result<i64, BookFault> {
        self.check_desk(desk)?;
        Ok(-self.net(desk))
    }
}
