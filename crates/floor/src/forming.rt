ghost use Rattle.std.specs.Prelude.{◌≡◌, false, [], ◌∷◌, Ok};
ghost use Rattle.desks.specs.declared.faults.FormFault.TheVariants.{Range};
ghost use Rattle.desks.specs.declared.faults.Parameter.TheVariants.{BookCode};
ghost use Rattle.desks.specs.Firsts.{first, unless};
ghost use Rattle.desks.specs.Forming.{out_of_range, outside};
ghost use Rattle.floor.specs.Forming.{bytes_of, form_reply, kind_of};

use crate::faults::FloorFault;
use book::{Book, BookFault};
use cash::Cash;
use desks::{FormFault, GroupParameters, Parameter, check_memory};
use positions::Positions;

/// The books that a floor may have.
#[derive(Clone, Copy, PartialEq, Eq, Debug)]
pub enum BookKind {
    Positions,
    Cash,
}

// The kind of book that a code stands for: 1 is positions, 2 is cash.
impl TryFrom<u8> for BookKind {
    type Error = FormFault;

    ghost try_from_gives = { λ code r. r ≡ unless (first ((out_of_range BookCode code, Range BookCode) ∷ [])) (kind_of code) };

    fn try_from(code: u8) -> Result<BookKind, FormFault> {
        match code {
            1 => Ok(BookKind::Positions),
            2 => Ok(BookKind::Cash),
            _ => Err(FormFault::Range(Parameter::BookCode)),
        }
    }
}

impl BookKind {
    // The bytes that a floor of so many desks needs. Each kind is a type of its own, so this is where a kind becomes one.
    fn bytes(self, desks: u8) -> Result<usize, BookFault>
        requires { outside 2 16 desks ≡ false }
        ensures { result ≡ Ok (bytes_of self desks) }
    {
        match self {
            BookKind::Positions => <Positions<'_> as Book<'_>>::bytes(desks),
            BookKind::Cash => <Cash<'_> as Book<'_>>::bytes(desks),
        }
    }
}

/// Whether a floor can be formed on so many bytes of memory, and with which book. The book is still the code that was read: the
/// ranges before it are refused first.
pub fn check_form(
    parameters: GroupParameters,
    book: u8,
    memory: usize,
) -> Result<BookKind, FloorFault>
    ensures { result ≡ form_reply parameters book memory }
{
    parameters.check_ranges()?;
    let kind = BookKind::try_from(book)?;
    parameters.check_bounds()?;
    let needed = kind.bytes(parameters.group.desks)?;
    check_memory(memory, needed)?;
    Ok(kind)
}
