ghost use Rattle.std.specs.Prelude.{◌≡◌, ◌≤◌};
ghost use Rattle.ledger.specs.Bounds.{Within, Counted};
ghost use Rattle.ledger.specs.Figures.{Whole};
ghost use Rattle.book.specs.Model.{most_items};

use crate::entry::Entry;
use ledger::Ledger;
use std::marker::PhantomData;

/// Each desk's copy of the figures, which entries of one kind change.
#[derive(Debug, Drop)]
pub struct Copies<'a, E: Entry> {
    pub(crate) ledger: Ledger<'a>,
    pub(crate) entries: PhantomData<E>,
    ghost whole: { Whole ledger },
    ghost sized: { (2 ≤ ledger.desks) × (ledger.width ≡ (E.model.rules ledger.desks).width) },
    ghost counted: { Counted most_items ledger },
    ghost within: { Within E.model.opening E.model.step ledger },
}
