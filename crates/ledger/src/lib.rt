//! The figures and counts of a group of desks, over lent memory: figure i of desk d is a signed number, high byte first, in the
//! cell of eight bytes at d * width + i.
#![tactic(auto)]

ghost use Rattle.std.specs.Prelude.{◌≡◌, ◌+◌, ◌*◌, is_ok};
ghost use Rattle.desks.specs.Firsts.{first, unless};
ghost use Rattle.ledger.specs.declared.LedgerFault.TheVariants.{Cell};

use cells::{CellFault, Cells};

/// Why a figure or a count stays as it is.
#[derive(Clone, Copy, PartialEq, Eq, Debug)]
pub enum LedgerFault {
    /// The ledger has no such desk.
    Desk,
    /// A desk has no such figure.
    Figure,
    /// The memory does not hold the figure.
    Cell(CellFault),
    /// The sum is no 64-bit number.
    Sum,
    /// There is no count for the desk.
    Uncounted,
    /// The count is the largest.
    Full,
}

impl From<CellFault> for LedgerFault {
    ghost from_gives = { λ f r. r ≡ Cell f };

    fn from(fault: CellFault) -> LedgerFault {
        LedgerFault::Cell(fault)
    }
}

/// The counts are the first `desks` of an array as long as a group can be: there is no heap.
#[derive(Debug, Drop)]
pub struct Ledger<'a> {
    cells: Cells<'a>,
    desks: u8,
    width: u16,
    counts: [u16; 16],
    pub ghost cut: { cells.width ≡ 8 },
}

impl<'a> Ledger<'a> {
    ghost use Rattle.ledger.specs.Figures.{value_of, figure_at, count_at};
    ghost use Rattle.ledger.specs.Faults.{desk_tests, place_tests, set_tests, add_tests, count_tests, raise_tests};
    ghost use Rattle.ledger.specs.Changes.{Made, Set, SetAll, Raised, Added};

    // The signed number that eight bytes write, high byte first, and 0 where there are not eight.
    fn value(bytes: &[u8]) -> i64
        ensures { result ≡ value_of bytes.now }
    {
        <[u8; 8]>::try_from(bytes).map_or(0, i64::from_be_bytes)
    }

    /// A ledger over the memory, all 0.
    pub fn new(desks: u8, width: u16, memory: &'a mut [u8]) -> Ledger<'a>
        ensures { Made desks width memory.entry result }
    {
        Ledger {
            cells: Cells::new(memory, 8),
            desks,
            width,
            counts: [0; 16],
        }
    }

    pub fn desks(&self) -> u8
        ensures { result ≡ self.now.desks }
    {
        self.desks
    }

    pub fn width(&self) -> u16
        ensures { result ≡ self.now.width }
    {
        self.width
    }

    // A desk that the ledger has, as an index.
    fn index(&self, desk: u8) -> Result<usize, LedgerFault>
        ensures { result ≡ unless (first (desk_tests self.now desk)) desk }
    {
        if desk >= self.desks {
            return Err(LedgerFault::Desk);
        }
        Ok(usize::from(desk))
    }

    // The cell of a figure. Desk and figure are no type of their own: counts have a desk alone, `set_all` a figure alone.
    fn place(&self, desk: u8, figure: u16) -> Result<usize, LedgerFault>
        ensures { result ≡ unless (first (place_tests self.now desk figure)) (desk * self.now.width + figure) }
    {
        let row = self.index(desk)?;
        if figure >= self.width {
            return Err(LedgerFault::Figure);
        }
        Ok(row * usize::from(self.width) + usize::from(figure))
    }

    /// A figure of a desk, and 0 where there is none: a sum of figures, or what must be covered, has no other case.
    pub fn figure(&self, desk: u8, figure: u16) -> i64
        ensures { result ≡ figure_at self.now desk figure }
    {
        let Ok(place) = self.place(desk, figure) else {
            return 0;
        };
        self.cells.get(place).map_or(0, Self::value)
    }

    /// One figure is the value from here on. On a fault nothing changes.
    pub fn set(&mut self, desk: u8, figure: u16, value: i64) -> Result<(), LedgerFault>
        ensures reply { result ≡ unless (first (set_tests self.old desk figure)) tt }
        ensures change { Set self.old desk figure value (is_ok result) self.new }
    {
        let place = self.place(desk, figure)?;
        self.cells.put(place, &value.to_be_bytes())?;
        Ok(())
    }

    /// One figure changes by so much. On a fault nothing changes.
    pub fn add(&mut self, desk: u8, figure: u16, change: i64) -> Result<(), LedgerFault>
        ensures reply { result ≡ unless (first (add_tests self.old desk figure change)) tt }
        ensures change { Added self.old desk figure change (is_ok result) self.new }
    {
        let sum = self
            .figure(desk, figure)
            .checked_add(change)
            .ok_or(LedgerFault::Sum)?;
        self.set(desk, figure, sum)
    }

    /// The same figure for every desk whose figure the memory holds.
    pub fn set_all(&mut self, figure: u16, value: i64)
        ensures { SetAll self.old figure value self.new }
    {
        for desk in 0..self.desks {
            let _ = self.set(desk, figure, value);
        }
    }

    // The count of a desk that has one.
    fn counted(&self, desk: u8) -> Result<u16, LedgerFault>
        ensures { result ≡ unless (first (count_tests self.now desk)) (count_at self.now desk) }
    {
        let index = self.index(desk)?;
        self.counts
            .get(index)
            .copied()
            .ok_or(LedgerFault::Uncounted)
    }

    /// The count of a desk, and 0 where there is none.
    pub fn count(&self, desk: u8) -> u16
        ensures { result ≡ count_at self.now desk }
    {
        self.counted(desk).unwrap_or(0)
    }

    /// The count of a desk goes up by one. On a fault nothing changes.
    pub fn raise(&mut self, desk: u8) -> Result<(), LedgerFault>
        ensures reply { result ≡ unless (first (raise_tests self.old desk)) tt }
        ensures change { Raised self.old desk (is_ok result) self.new }
    {
        let next = self.counted(desk)?.checked_add(1).ok_or(LedgerFault::Full)?;
        self.counts[usize::from(desk)] = next;
        Ok(())
    }
}
