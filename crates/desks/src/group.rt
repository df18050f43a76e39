ghost use Rattle.std.specs.Prelude.{◌≡◌};
ghost use Rattle.desks.specs.Firsts.{first, unless};
ghost use Rattle.desks.specs.Forming.{ranges, bounds, parameters_under};

use crate::faults::{FormFault, Parameter};
use crate::set::DeskSet;

/// A group: how many desks there are, how many items each may publish, how many desks may be faulty, and which are.
#[derive(Clone, Copy, PartialEq, Eq, Debug)]
pub struct Group {
    pub desks: u8,
    pub numbers: u8,
    pub faults: u8,
    pub faulty: DeskSet,
}

impl Group {
    /// Its parameters under a protocol of that factor.
    pub fn under(self, factor: u8) -> GroupParameters
        ensures { result ≡ parameters_under factor self }
    {
        GroupParameters {
            group: self,
            factor,
        }
    }
}

/// A group, and the factor by which its desks outnumber those that may be faulty.
#[derive(Clone, Copy, PartialEq, Eq, Debug)]
pub struct GroupParameters {
    pub group: Group,
    pub factor: u8,
}

impl GroupParameters {
    /// The first parameter outside its range.
    pub fn check_ranges(self) -> Result<(), FormFault>
        ensures { result ≡ unless (first (ranges self)) tt }
    {
        Parameter::Desks.check(self.group.desks)?;
        Parameter::Numbers.check(self.group.numbers)?;
        Parameter::Faults.check(self.group.faults)?;
        Parameter::Factor.check(self.factor)
    }

    /// Whether the parameters fit each other.
    pub fn check_bounds(self) -> Result<(), FormFault>
        ensures { result ≡ unless (first (bounds self)) tt }
    {
        let group = self.group;
        if u16::from(self.factor) * u16::from(group.faults) >= u16::from(group.desks) {
            return Err(FormFault::Resilience(group.faults));
        }
        let size = group.faulty.size();
        if group.faulty.reaches(group.desks) || size > group.faults {
            return Err(FormFault::FaultySet(size));
        }
        Ok(())
    }
}
