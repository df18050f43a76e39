ghost use Rattle.std.specs.Prelude.{◌≡◌, ◌++◌, IfOk, Some, string_bytes, OnOk};
ghost use Rattle.account.specs.Numbers.{NumbersAreWritten};
ghost use Rattle.account.specs.Text.{words_of, text_of, account};

use desks::Refusal;
use std::alloc::{AllocError, Global};
use std::fmt;

/// What a figure holds at a desk.
#[derive(Clone, Copy, Debug, PartialEq, Eq)]
pub struct FigureLine {
    pub desk: u8,
    pub figure: u16,
    pub value: i64,
}

/// What a desk needs.
#[derive(Clone, Copy, Debug, PartialEq, Eq)]
pub struct NeedLine {
    pub desk: u8,
    pub need: i64,
}

/// A line of a script's account.
#[derive(Clone, Copy, Debug, PartialEq, Eq)]
pub enum Line {
    Formed,
    Opening,
    Opened,
    /// Whether the floor is quiet.
    Quiet(bool),
    /// Whether the floor was quiet when it closed.
    Closed(bool),
    Figure(FigureLine),
    Need(NeedLine),
    /// A refusal, and the offset of the command that is refused.
    Refused(Refusal, usize),
}

impl fmt::Display for Line {
    ghost output = { λ line. Some (words_of line) };

    fn fmt<W: fmt::Write>(&self, f: &mut fmt::Formatter<W>) -> fmt::Result {
        match *self {
            Line::Formed => write!(f, "F"),
            Line::Opening => write!(f, "O"),
            Line::Opened => write!(f, "G"),
            Line::Quiet(quiet) => write!(f, "Q {}", u8::from(quiet)),
            Line::Closed(closed) => write!(f, "Z {}", u8::from(closed)),
            Line::Figure(line) => write!(f, "= {} {} {}", line.desk, line.figure, line.value),
            Line::Need(line) => write!(f, "H {} {}", line.desk, line.need),
            // A refusal has no text of its own: how a line spaces its fields is the account's.
            Line::Refused(refusal, offset) => {
                write!(
                    f,
                    "! {} {} {} {}",
                    refusal.number, refusal.layer, refusal.place, offset
                )
            }
        }
    }
}

/// Adds the text of a line, ended by a newline.
#[tactic(auto, using(crate::proofs::Decimal::numbers_are_written))]
pub fn write_line(out: &mut String, line: Line) -> Result<(), AllocError>
    ensures text { OnOk result (string_bytes out.new ≡ string_bytes out.old ++ text_of line) }
    ensures numbers { NumbersAreWritten }
{
    writeln!(out, "{line}")
}

/// The text of all lines.
pub fn print(heap: Global, lines: &[Line]) -> Result<String, AllocError>
    ensures { IfOk result (λ text. string_bytes text ≡ account lines.now) }
{
    let mut text = String::new(heap);
    for line in lines {
        write_line(&mut text, *line)?;
    }
    Ok(text)
}
