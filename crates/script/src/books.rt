ghost use Rattle.std.specs.Prelude.{◌≡◌, List, ℤ, if◌then◌else◌, None, Option, nat_lt};
ghost use Rattle.floor.specs.declared.forming.BookKind.TheVariants.{Positions as positions, Cash as cash};
ghost use Rattle.script.specs.Days.{needs_of_kind};

use book::{Book, Hedged};
use cash::Cash;
use positions::Positions;

// A book as a script closes it: with a hedge need, or without.
pub(crate) trait DayBook<'a>: Book<'a> {
    ghost needs: { List ℤ → Option ℤ };

    fn need_of(&self, desk: u8) -> Option<i64>
        ensures { result ≡ (if nat_lt desk (Self.Book.model.desks self.now) then needs (Self.Book.model.figures self.now desk) else None) };
}

impl<'a> DayBook<'a> for Positions<'a> {
    ghost needs = { needs_of_kind positions };

    fn need_of(&self, desk: u8) -> Option<i64> {
        self.need(desk).ok()
    }
}

impl<'a> DayBook<'a> for Cash<'a> {
    ghost needs = { needs_of_kind cash };

    fn need_of(&self, _desk: u8) -> Option<i64> {
        None
    }
}
