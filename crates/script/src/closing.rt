ghost use Rattle.std.specs.Prelude.{◌≡◌, ℕ, ◌<◌, List};
ghost use Rattle.std.specs.Option.{option_to_list};
ghost use Rattle.book.specs.Calls.{rules_of};
ghost use Rattle.account.specs.declared.lines.Line.{Line};
ghost use Rattle.script.specs.Days.{figure_line, figure_lines, need_line};
ghost use Rattle.script.specs.Meaning.{Prints};

use crate::books::DayBook;
use account::{FigureLine, Line, NeedLine};
use book::Book;
use std::alloc::AllocError;

// A part of what closing shows of each desk.
// A trait and no closure: a closure gets no proof here unless something that it captures names the lifetime of the bound.
pub(crate) trait Part<'a, B: DayBook<'a>> {
    ghost lines_of: { B → ℕ → List Line };

    fn print(book: &B, desk: u8, lines: &mut Vec<Line>) -> Result<(), AllocError>
        requires { desk < B.Book.model.desks book.now }
        ensures { Prints lines.old (lines_of book.now desk) result lines.new };
}

// The figures that are not 0.
pub(crate) struct Figures;

impl<'a, B: DayBook<'a>> Part<'a, B> for Figures {
    ghost lines_of = { λ b. figure_lines (rules_of B.Book.model b).width (B.Book.model.figures b) };

    fn print(book: &B, desk: u8, lines: &mut Vec<Line>) -> Result<(), AllocError> {
        figure_lines(book, desk, lines)
    }
}

// The hedge need, where the book has one.
pub(crate) struct Need;

impl<'a, B: DayBook<'a>> Part<'a, B> for Need {
    ghost lines_of = { λ b desk. need_line desk (B.DayBook.needs (B.Book.model.figures b desk)) };

    fn print(book: &B, desk: u8, lines: &mut Vec<Line>) -> Result<(), AllocError> {
        note(lines, need_line(desk, book.need_of(desk)))
    }
}

// The lines of a desk's figures, and none at a desk that the book does not have.
fn figure_lines<'a, B: Book<'a>>(
    book: &B,
    desk: u8,
    lines: &mut Vec<Line>,
) -> Result<(), AllocError>
    ensures { Prints lines.old (figure_lines (rules_of B.Book.model book.now).width (B.Book.model.figures book.now) desk) result lines.new }
{
    for figure in 0..book.width() {
        let value = book.figure(desk, figure).unwrap_or(0);
        note(lines, figure_line(desk, figure, value))?;
    }
    Ok(())
}

// The line of a figure, unless it is 0.
fn figure_line(desk: u8, figure: u16, value: i64) -> Option<Line>
    ensures { option_to_list result ≡ figure_line desk figure value }
{
    (value != 0).then_some(Line::Figure(FigureLine {
        desk,
        figure,
        value,
    }))
}

// The line of a hedge need, where there is one.
fn need_line(desk: u8, need: Option<i64>) -> Option<Line>
    ensures { option_to_list result ≡ need_line desk need }
{
    need.map(|need| Line::Need(NeedLine { desk, need }))
}

// Adds a line, where there is one. By a `push`: the check does not find what `extend` leaves in the loop above.
fn note(lines: &mut Vec<Line>, line: Option<Line>) -> Result<(), AllocError>
    ensures { Prints lines.old (option_to_list line) result lines.new }
{
    if let Some(line) = line {
        lines.push(line)?;
    }
    Ok(())
}
