//! Lent bytes cut into cells of equal width: cell i is the `width` bytes from i * width on, there if it ends within the bytes.
#![tactic(auto)]

ghost use Rattle.std.specs.Prelude.{◌≡◌, length, replicate, is_ok};
ghost use Rattle.std.specs.Option.{option_copied};
ghost use Rattle.desks.specs.Firsts.{first, unless};
ghost use Rattle.cells.specs.Cell.{range_of, cell, put_tests, Put, Cleared};

use std::ops::Range;

/// Why bytes are not put into a cell.
#[derive(Clone, Copy, PartialEq, Eq, Debug)]
pub enum CellFault {
    /// They are not as many as a cell is wide.
    Width,
    /// The cell is not there.
    Absent,
}

/// The bytes are lent. The width is no parameter of the type: `new` takes any, also one that is read as the program runs.
#[derive(Debug, Drop)]
pub struct Cells<'a> {
    bytes: &'a mut [u8],
    width: usize,
}

impl<'a> Cells<'a> {
    /// Cells over the bytes, which are all 0 from here on.
    pub fn new(bytes: &'a mut [u8], width: usize) -> Cells<'a>
        ensures sized { result.width ≡ width }
        ensures zero { result.bytes.now ≡ replicate (length bytes.old) 0 }
        ensures memory { result.bytes.ghost_name ≡ bytes.entry.ghost_name }
    {
        bytes.fill(0);
        Cells { bytes, width }
    }

    pub fn width(&self) -> usize
        ensures { result ≡ self.now.width }
    {
        self.width
    }

    // Where the bytes of cell i lie, if it is there.
    fn range(&self, i: usize) -> Option<Range<usize>>
        ensures { result ≡ range_of self.now i }
    {
        let start = i.checked_mul(self.width)?;
        let end = start.checked_add(self.width)?;
        (end <= self.bytes.len()).then_some(start..end)
    }

    /// The bytes of cell i.
    pub fn get(&self, i: usize) -> Option<&[u8]>
        ensures { option_copied result ≡ cell self.now i }
    {
        Some(&self.bytes[self.range(i)?])
    }

    /// Cell i holds x from here on. On a fault nothing changes.
    pub fn put(&mut self, i: usize, x: &[u8]) -> Result<(), CellFault>
        ensures reply { result ≡ unless (first (put_tests self.old i x.now)) tt }
        ensures change { Put self.old i x.now (is_ok result) self.new }
    {
        if x.len() != self.width {
            return Err(CellFault::Width);
        }
        let range = self.range(i).ok_or(CellFault::Absent)?;
        self.bytes[range].copy_from_slice(x);
        Ok(())
    }

    /// Every byte 0.
    pub fn clear(&mut self)
        ensures { Cleared self.old self.new }
    {
        self.bytes.fill(0);
    }
}
