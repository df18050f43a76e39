ghost use Rattle.std.specs.Prelude.{◌≡◌, length, IfOk, string_bytes};
ghost use Rattle.account.specs.Text.{account};
ghost use Rattle.script.specs.Alike.{ShownAlike};
ghost use Rattle.script.specs.Days.{account_of, script_memory};

use crate::day::Day;
use crate::form::Formed;
use crate::session::Session;
use account::{Line, print};
use cash::Cash;
use floor::BookKind;
use positions::Positions;
use std::alloc::{AllocError, Global};

/// The lines of a whole script, on lent memory.
pub fn run(heap: Global, script: &[u8], memory: &mut [u8]) -> Result<Vec<Line>, AllocError>
    ensures { IfOk result (λ lines. lines.items ≡ account_of (length memory.old) script.now) }
{
    let mut session = Session::new(heap, script);
    if let Some(Formed { parameters, kind }) = session.form_first(memory.len())? {
        // A match, since each kind of book is a type of its own.
        match kind {
            BookKind::Positions => session.play(Day::<Positions<'_>>::new(parameters, memory))?,
            BookKind::Cash => session.play(Day::<Cash<'_>>::new(parameters, memory))?,
        }
    }
    Ok(session.lines)
}

// The memory that a script lends: enough for 6 desks and either book.
const MEMORY: usize = 6144;

/// The account of a whole script, as text. Whatever the script does, no two desks are shown with different figures or needs.
pub fn account_text(heap: Global, script: &[u8]) -> Result<String, AllocError>
    ensures alike { ShownAlike (account_of script_memory script.now) }
    ensures text { IfOk result (λ text. string_bytes text ≡ account (account_of script_memory script.now)) }
{
    let mut memory = vec![in heap; 0u8; MEMORY]?;
    let lines = run(heap, script, &mut memory)?;
    print(heap, &lines)
}
