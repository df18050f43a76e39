ghost use Rattle.std.specs.Prelude.{◌≡◌, not, Some, [], ◌∷◌, nat_lt};
ghost use Rattle.desks.specs.Firsts.{first, unless};
ghost use Rattle.desks.specs.Forming.{out_of_range};
ghost use Rattle.desks.specs.Refusals.{letter_of, place_of, form_refusal};
ghost use Rattle.desks.specs.declared.faults.FormFault.TheVariants.{Range, Memory};

use std::fmt;

/// The layer that refuses.
#[derive(Clone, Copy, PartialEq, Eq, Debug)]
pub enum Layer {
    Frame,
    Carrier,
    Book,
    Floor,
    Script,
}

impl Layer {
    /// The letter that a refusal prints. By `From` the call would not say what the character is.
    pub fn letter(self) -> char
        ensures { result ≡ letter_of self }
    {
        match self {
            Layer::Frame => 'F',
            Layer::Carrier => 'C',
            Layer::Book => 'B',
            Layer::Floor => 'D',
            Layer::Script => 'S',
        }
    }

    /// Its refusal of that number, at that place.
    pub fn refusal(self, number: u8, place: usize) -> Refusal
        ensures { result ≡ record { number = number; layer = self; place = place } }
    {
        Refusal {
            number,
            layer: self,
            place,
        }
    }
}

impl fmt::Display for Layer {
    ghost output = { λ layer. Some (letter_of layer ∷ []) };

    fn fmt<W: fmt::Write>(&self, f: &mut fmt::Formatter<W>) -> fmt::Result {
        write!(f, "{}", self.letter())
    }
}

/// What a refusal says: its number, the layer that gives it, and the place that it names. The number is what is printed; which
/// refusal it is stands in the layer's own enum of faults, and an enum of all numbers would name each fault twice.
#[derive(Clone, Copy, PartialEq, Eq, Debug)]
pub struct Refusal {
    pub number: u8,
    pub layer: Layer,
    pub place: usize,
}

/// A parameter of forming that has a range of its own.
#[derive(Clone, Copy, PartialEq, Eq, Debug)]
pub enum Parameter {
    Desks,
    Numbers,
    Faults,
    Factor,
    BookCode,
}

impl Parameter {
    /// The place that a refusal names it by. By `From` the call would not say what the number is.
    pub fn place(self) -> usize
        ensures { result ≡ place_of self }
    {
        match self {
            Parameter::Desks => 0,
            Parameter::Numbers => 1,
            Parameter::Faults => 2,
            Parameter::Factor => 3,
            Parameter::BookCode => 4,
        }
    }

    // Whether the value lies in the parameter's range.
    fn takes(self, value: u8) -> bool
        ensures { result ≡ not (out_of_range self value) }
    {
        match self {
            Parameter::Desks => (2..=16).contains(&value),
            Parameter::Numbers => (1..=64).contains(&value),
            Parameter::Faults => value <= 5,
            Parameter::Factor => value == 3 || value == 5,
            Parameter::BookCode => value == 1 || value == 2,
        }
    }

    /// Refuses a value outside the parameter's range.
    pub fn check(self, value: u8) -> Result<(), FormFault>
        ensures { result ≡ unless (first ((out_of_range self value, Range self) ∷ [])) tt }
    {
        if self.takes(value) {
            Ok(())
        } else {
            Err(FormFault::Range(self))
        }
    }
}

/// Why a floor, a carrier or a book cannot be formed. The layer is that of whoever refuses.
#[derive(Clone, Copy, PartialEq, Eq, Debug)]
pub enum FormFault {
    /// A parameter is outside its range.
    Range(Parameter),
    /// The factor times this number of faults is not below the number of desks.
    Resilience(u8),
    /// The faulty set, of this size, has a desk outside the group or more desks than may be faulty.
    FaultySet(u8),
    /// The memory is shorter than these bytes.
    Memory(usize),
}

impl FormFault {
    /// Its number, layer and place, as that layer.
    pub fn refusal(self, layer: Layer) -> Refusal
        ensures { result ≡ form_refusal layer self }
    {
        match self {
            FormFault::Range(parameter) => layer.refusal(1, parameter.place()),
            FormFault::Resilience(faults) => layer.refusal(2, usize::from(faults)),
            FormFault::FaultySet(size) => layer.refusal(3, usize::from(size)),
            FormFault::Memory(needed) => layer.refusal(4, needed),
        }
    }
}

/// Refuses memory of fewer bytes than are needed.
pub fn check_memory(bytes: usize, needed: usize) -> Result<(), FormFault>
    ensures { result ≡ unless (first ((nat_lt bytes needed, Memory needed) ∷ [])) tt }
{
    if bytes < needed {
        return Err(FormFault::Memory(needed));
    }
    Ok(())
}
