ghost use Rattle.std.specs.Prelude.{◌≡◌, ℕ, Decides};
ghost use Rattle.desks.specs.Sets.{has_desk, size_of, beyond, Beyond, Joined};

/// A set of desks: bit d stands for desk d. It has no model, since definitions of every layer speak of the bits.
#[derive(Clone, Copy, PartialEq, Eq, Debug)]
pub struct DeskSet {
    bits: u16,
}

impl DeskSet {
    pub fn new(bits: u16) -> DeskSet
        ensures { result.bits ≡ bits }
    {
        DeskSet { bits }
    }

    /// Whether a desk is in it.
    pub fn has(self, desk: u8) -> bool
        ensures { result ≡ has_desk self.bits desk }
    {
        desk < 16 && (self.bits >> desk) % 2 == 1
    }

    /// The set with one desk more. A number that is no desk's adds none.
    pub fn with(self, desk: u8) -> DeskSet
        ensures { Joined self.bits desk result.bits }
    {
        if desk < 16 {
            DeskSet {
                bits: self.bits | 1 << desk,
            }
        } else {
            self
        }
    }

    /// How many desks are in it. By `as`: `u8::from` takes no 32 bits, and no more than 16 are counted.
    pub fn size(self) -> u8
        ensures { result ≡ size_of self.bits }
    {
        self.bits.count_ones() as u8
    }

    /// Whether it has a desk that is not below that number.
    pub fn reaches(self, desks: u8) -> bool
        ensures value { result ≡ beyond self.bits desks }
        ensures meaning { Decides result (Beyond self.bits desks) }
    {
        desks < 16 && self.bits >> desks != 0
    }
}
