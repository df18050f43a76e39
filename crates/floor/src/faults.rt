ghost use Rattle.std.specs.Prelude.{◌≡◌};
ghost use Rattle.floor.specs.declared.faults.FloorFault.TheVariants.{Form, Book};
ghost use Rattle.floor.specs.Refusals.{floor_refusal};

use book::BookFault;
use desks::{FormFault, Layer, Refusal};

/// Why a floor declines a call. A fault of the book is kept whole.
#[derive(Clone, Copy, PartialEq, Eq, Debug)]
pub enum FloorFault {
    /// It cannot be formed.
    Form(FormFault),
    /// The book declines.
    Book(BookFault),
}

// Lifted by hand, since a derived `From` has no contract.
impl From<FormFault> for FloorFault {
    ghost from_gives = { λ f r. r ≡ Form f };

    fn from(fault: FormFault) -> FloorFault {
        FloorFault::Form(fault)
    }
}

impl From<BookFault> for FloorFault {
    ghost from_gives = { λ f r. r ≡ Book f };

    fn from(fault: BookFault) -> FloorFault {
        FloorFault::Book(fault)
    }
}

// Its number, layer and place.
impl From<FloorFault> for Refusal {
    ghost from_gives = { λ f r. r ≡ floor_refusal f };

    fn from(fault: FloorFault) -> Refusal {
        match fault {
            FloorFault::Form(form) => form.refusal(Layer::Floor),
            FloorFault::Book(book) => book.into(),
        }
    }
}
