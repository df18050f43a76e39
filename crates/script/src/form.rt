ghost use Rattle.std.specs.Prelude.{◌≡◌};
ghost use Rattle.script.specs.Days.{lent, form_result};

use desks::GroupParameters;
use floor::{BookKind, check_form};
use reader::{Forming, ScriptFault};

// What a form command made: a group, and the kind of its book.
#[derive(Clone, Copy, PartialEq, Eq, Debug)]
pub(crate) struct Formed {
    pub(crate) parameters: GroupParameters,
    pub(crate) kind: BookKind,
}

// The most desks and numbers that a script serves.
const MOST_DESKS: u8 = 6;

const MOST_NUMBERS: u8 = 4;

// How much of the memory a script lends: none to a floor that is too large for it.
fn lends(parameters: GroupParameters, memory: usize) -> usize
    ensures { result ≡ lent memory parameters }
{
    if parameters.group.desks <= MOST_DESKS && parameters.group.numbers <= MOST_NUMBERS {
        memory
    } else {
        0
    }
}

// The floor's check, whose fault the script keeps.
pub(crate) fn check(forming: Forming, memory: usize) -> Result<BookKind, ScriptFault>
    ensures { result ≡ form_result memory forming }
{
    let lent = lends(forming.parameters, memory);
    Ok(check_form(forming.parameters, forming.book, lent)?)
}
