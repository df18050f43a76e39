ghost use Rattle.std.specs.Prelude.{◌≡◌};
ghost use Rattle.book.specs.declared.faults.BookFault.TheVariants.{Form, Malformed};
ghost use Rattle.book.specs.Refusals.{book_refusal};

use desks::{FormFault, ITEM_SIZE, Layer, Refusal};

/// An item is not well-formed: its first wrong field begins at this offset, a number that a refusal prints as it is.
#[derive(Clone, Copy, PartialEq, Eq, Debug)]
pub struct WrongField {
    pub offset: u8,
}

/// Why a book declines a call.
#[derive(Clone, Copy, PartialEq, Eq, Debug)]
pub enum BookFault {
    /// It cannot be formed.
    Form(FormFault),
    /// No desk of the group has this number.
    Desk(u8),
    /// No figure has this number, or it takes no opening.
    Figure(u16),
    /// The item's first wrong field begins at this offset.
    Malformed(u8),
    /// The amount of an opening is outside its range.
    Amount,
    /// The item of this origin is not admitted.
    NotAdmitted(u8),
    /// The book of this desk has all the items it may have.
    Full(u8),
}

// Lifted by hand, since a derived `From` has no contract.
impl From<FormFault> for BookFault {
    ghost from_gives = { λ f r. r ≡ Form f };

    fn from(fault: FormFault) -> BookFault {
        BookFault::Form(fault)
    }
}

impl From<WrongField> for BookFault {
    ghost from_gives = { λ f r. r ≡ Malformed f.offset };

    fn from(fault: WrongField) -> BookFault {
        BookFault::Malformed(fault.offset)
    }
}

// Its number, layer and place.
impl From<BookFault> for Refusal {
    ghost from_gives = { λ f r. r ≡ book_refusal f };

    fn from(fault: BookFault) -> Refusal {
        let layer = Layer::Book;
        match fault {
            BookFault::Form(form) => form.refusal(layer),
            BookFault::Desk(desk) => layer.refusal(5, usize::from(desk)),
            BookFault::Figure(figure) => layer.refusal(5, usize::from(figure)),
            BookFault::Malformed(offset) => layer.refusal(6, usize::from(offset)),
            BookFault::Amount => layer.refusal(6, ITEM_SIZE),
            BookFault::NotAdmitted(origin) => layer.refusal(25, usize::from(origin)),
            BookFault::Full(desk) => layer.refusal(30, usize::from(desk)),
        }
    }
}
