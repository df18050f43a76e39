ghost use Rattle.std.specs.Prelude.{◌≡◌};
ghost use Rattle.desks.specs.Firsts.{first, tests_above, unless};
ghost use Rattle.carrier.specs.Declines.{size_tests, form_tests};
ghost use Rattle.carrier.specs.declared.faults.CarrierFault.TheVariants.{Form};

use crate::faults::CarrierFault;
use desks::{GroupParameters, Parameter, check_memory};

/// Whether a group may have that many desks and numbers: no more of it decides how many bytes it needs.
pub fn check_size(desks: u8, numbers: u8) -> Result<(), CarrierFault>
    ensures { result ≡ unless (first (size_tests desks numbers)) tt }
{
    Parameter::Desks.check(desks)?;
    Parameter::Numbers.check(numbers)?;
    Ok(())
}

/// Whether a group fits its factor, and so many bytes of memory what it needs.
pub fn check_group(
    parameters: GroupParameters,
    needed: usize,
    memory: usize,
) -> Result<(), CarrierFault>
    ensures { result ≡ unless (first (tests_above Form (form_tests parameters.factor needed parameters.group memory))) tt }
{
    parameters.check_ranges()?;
    parameters.check_bounds()?;
    check_memory(memory, needed)?;
    Ok(())
}
