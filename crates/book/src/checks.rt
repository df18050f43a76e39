ghost use Rattle.std.specs.Prelude.{◌≡◌, [], ◌∷◌, nat_le, nat_lt};
ghost use Rattle.desks.specs.Firsts.{first, unless};
ghost use Rattle.desks.specs.Forming.{outside};
ghost use Rattle.desks.specs.declared.faults.Parameter.TheVariants.{Desks};
ghost use Rattle.desks.specs.declared.faults.FormFault.TheVariants.{Range, Memory};
ghost use Rattle.book.specs.declared.faults.BookFault.TheVariants.{Form, Desk};

use crate::faults::BookFault;
use desks::Parameter;

/// Whether a group may have that many desks.
pub fn check_desks(desks: u8) -> Result<(), BookFault>
    ensures { result ≡ unless (first ((outside 2 16 desks, Form (Range Desks)) ∷ [])) tt }
{
    Parameter::Desks.check(desks)?;
    Ok(())
}

/// Whether so many bytes of memory are enough.
pub fn check_memory(bytes: usize, needed: usize) -> Result<(), BookFault>
    ensures { result ≡ unless (first ((nat_lt bytes needed, Form (Memory needed)) ∷ [])) tt }
{
    desks::check_memory(bytes, needed)?;
    Ok(())
}

/// Whether a desk is one of so many.
pub fn check_desk(desks: u8, desk: u8) -> Result<(), BookFault>
    ensures { result ≡ unless (first ((nat_le desks desk, Desk desk) ∷ [])) tt }
{
    if desk >= desks {
        return Err(BookFault::Desk(desk));
    }
    Ok(())
}
