ghost use Rattle.std.specs.Prelude.{◌≡◌, length, None, OnOk};
ghost use Rattle.desks.specs.Firsts.{first};
ghost use Rattle.book.specs.Calls.{form_tests};
ghost use Rattle.script.specs.Days.{each, by_correct, day_after, day_lines, close_lines, opening_fault, opening_reply, answer_line, new_day};
ghost use Rattle.script.specs.Meaning.{day_of, Prints};

use crate::books::DayBook;
use crate::closing::{Figures, Need, Part};
use account::Line;
use book::Opening;
use desks::{DeskSet, GroupParameters};
use floor::FloorFault;
use reader::{Command, ScriptFault, Stage};
use std::alloc::AllocError;

// A formed floor as a script has it: its book, its faulty desks, and how far it has come.
// It has no model: what a day means has functions in it, as the rules of its book, and a model's value is data.
#[derive(Drop)]
pub(crate) struct Day<B> {
    book: B,
    faulty: DeskSet,
    pub(crate) stage: Stage,
}

impl<'a, B: DayBook<'a>> Day<B> {
    // A floor just formed, on lent memory.
    pub(crate) fn new(parameters: GroupParameters, memory: &'a mut [u8]) -> Day<B>
        requires { first (form_tests B.Book.model parameters.group.desks (length memory.old)) ≡ None }
        ensures { day_of B.DayBook result ≡ new_day (B.Book.model.rules parameters.group.desks) B.DayBook.needs parameters }
    {
        Day {
            book: B::make(parameters.group.desks, memory),
            faulty: parameters.group.faulty,
            stage: Stage::Set,
        }
    }

    // One command, whose first byte is at that offset, and the lines that it prints.
    pub(crate) fn step(
        &mut self,
        command: Command,
        offset: usize,
        lines: &mut Vec<Line>,
    ) -> Result<(), AllocError>
        ensures printed { Prints lines.old (day_lines offset (day_of B.DayBook self.old) command) result lines.new }
        ensures after { day_of B.DayBook self.new ≡ day_after (day_of B.DayBook self.old) command }
    {
        // A match, since each command changes and prints something of its own.
        match command {
            Command::Form(_) => {}
            Command::Opening(opening) => {
                let reply = self.opening(opening);
                lines.push(answer(Line::Opening, reply, offset))?;
            }
            Command::Open => {
                self.stage = Stage::Open;
                lines.push(Line::Opened)?;
            }
            Command::Quiet => lines.push(Line::Quiet(true))?,
            Command::Close => {
                self.stage = Stage::Closed;
                self.close(lines)?;
            }
        }
        Ok(())
    }

    // An opening: the book's, whose fault the floor and the script keep.
    fn opening(&mut self, opening: Opening) -> Result<(), ScriptFault>
        ensures reply { result ≡ opening_reply (opening_fault (day_of B.DayBook self.old) opening) }
        ensures after { day_of B.DayBook self.new ≡ day_after (day_of B.DayBook self.old) (Command.Opening opening) }
    {
        self.book.open(opening).map_err(FloorFault::from)?;
        Ok(())
    }

    // What closing prints: nothing is under way, so the floor is quiet; then what the correct desks show.
    fn close(&self, lines: &mut Vec<Line>) -> Result<(), AllocError>
        ensures { Prints lines.old (close_lines (day_of B.DayBook self.now)) result lines.new }
    {
        lines.push(Line::Closed(true))?;
        self.show::<Figures>(lines)?;
        self.show::<Need>(lines)
    }

    // That part of the correct desks, in order.
    fn show<P: Part<'a, B>>(&self, lines: &mut Vec<Line>) -> Result<(), AllocError>
        ensures { Prints lines.old (each (by_correct self.now.faulty.bits (P.lines_of self.now.book)) (B.Book.model.desks self.now.book)) result lines.new }
    {
        for desk in 0..self.book.desks() {
            if !self.faulty.has(desk) {
                P::print(&self.book, desk, lines)?;
            }
        }
        Ok(())
    }
}

// The line of a command: its own, or that of its refusal.
pub(crate) fn answer<T: Drop>(done: Line, reply: Result<T, ScriptFault>, offset: usize) -> Line
    ensures { result ≡ answer_line done reply offset }
{
    reply.map_or_else(|fault| Line::Refused(fault.into(), offset), |_| done)
}
