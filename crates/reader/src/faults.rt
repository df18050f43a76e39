ghost use Rattle.std.specs.Prelude.{◌≡◌};
ghost use Rattle.reader.specs.declared.faults.ScriptFault.TheVariants.{Floor};
ghost use Rattle.reader.specs.Refusals.{script_refusal};

use desks::{Layer, Refusal};
use floor::FloorFault;

/// Why a script stops. The offsets are those of the command's first byte.
#[derive(Clone, Copy, PartialEq, Eq, Debug)]
pub enum ScriptFault {
    /// No command has this letter.
    Unknown(usize),
    /// The command is not for this stage.
    Stage(usize),
    /// The script ends inside the command.
    Short(usize),
    /// The floor declines the command.
    Floor(FloorFault),
}

// Lifted by hand, since a derived `From` has no contract.
impl From<FloorFault> for ScriptFault {
    ghost from_gives = { λ f r. r ≡ Floor f };

    fn from(fault: FloorFault) -> ScriptFault {
        ScriptFault::Floor(fault)
    }
}

// Its number, layer and place.
impl From<ScriptFault> for Refusal {
    ghost from_gives = { λ f r. r ≡ script_refusal f };

    fn from(fault: ScriptFault) -> Refusal {
        let layer = Layer::Script;
        match fault {
            ScriptFault::Unknown(offset) => layer.refusal(12, offset),
            ScriptFault::Stage(offset) => layer.refusal(13, offset),
            ScriptFault::Short(offset) => layer.refusal(14, offset),
            ScriptFault::Floor(floor) => floor.into(),
        }
    }
}
