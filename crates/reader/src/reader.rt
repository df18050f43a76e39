ghost use Rattle.std.specs.Prelude.{◌≡◌, ℕ, ◌+◌, ◌<◌, ◌≤◌, true, length, take, drop, unwrap_or, Ok, None, ◌↔◌};
ghost use Rattle.std.specs.Option.{ForSome};
ghost use Rattle.reader.specs.Commands.{read, position_after, command_at, operand_bytes};
ghost use Rattle.reader.specs.Laws.{ReadsWhatStands, WhatStandsIsRead, MovesInside, FaultStays};
ghost use Rattle.reader.specs.Readings.{Bytes};

use crate::command::{Command, Forming, Kind, Stage};
use crate::faults::ScriptFault;
use book::Opening;
use desks::{DeskSet, Group};

/// A script, which holds bytes, and the position of the next command in it, which is at most its length.
#[derive(Debug, Drop)]
pub struct Reader<'a> {
    script: &'a [u8],
    position: usize,
    ghost bytes: { Bytes script.now },
    ghost within: { position ≤ length script.now },
}

// Puts the reader back to the start of a command, unless it was told that the command was read whole: then it has no start.
struct Guard<'r, 'a> {
    reader: &'r mut Reader<'a>,
    start: Option<usize>,
    ghost inside: { ForSome start (λ p. p ≤ length reader.now.script.now) },
}

impl Drop for Guard<'_, '_> {
    fn drop(self)
        ensures position { self.exit.0.now.position ≡ unwrap_or self.entry.start self.entry.reader.now.position }
        ensures script { self.exit.0.now.script ≡ self.entry.reader.now.script }
    {
        let Guard { reader, start } = self;
        reader.position = start.unwrap_or(reader.position);
    }
}

impl<'a> Reader<'a> {
    ghost use Rattle.reader.specs.Taking.{Takes};

    pub fn new(script: &'a [u8]) -> Reader<'a>
        ensures script { result.script ≡ script.entry }
        ensures position { result.position ≡ 0 }
    {
        Reader {
            script,
            position: 0,
        }
    }

    pub fn position(&self) -> usize
        ensures { result ≡ self.now.position }
    {
        self.position
    }

    /// The next command; none at the end of the script. The position moves past a command that is read, and otherwise stays.
    pub fn next(&mut self, stage: Stage) -> Result<Option<Command>, ScriptFault>
        ensures answer { result ≡ read self.old.script.now self.old.position stage }
        ensures position { self.new.position ≡ position_after self.old.position result }
        ensures script { self.new.script ≡ self.old.script }
        ensures stands { ReadsWhatStands self.old.script.now self.old.position stage result self.new.position }
        ensures found { WhatStandsIsRead self.old.script.now self.old.position stage result }
        ensures moves { MovesInside self.old.script.now self.old.position result self.new.position }
        ensures end { (result ≡ Ok None) ↔ (length self.old.script.now ≤ self.old.position) }
        ensures fault { FaultStays self.old.position result self.new.position }
    {
        let start = self.position;
        let mut guard = Guard {
            reader: self,
            start: Some(start),
        };
        let Some(first) = guard.reader.take::<1>() else {
            return Ok(None);
        };
        let [letter] = first;
        let kind = Kind::try_from(letter).map_err(|_| ScriptFault::Unknown(start))?;
        if !stage.allows(kind) {
            return Err(ScriptFault::Stage(start));
        }
        let command = guard
            .reader
            .operands(kind)
            .ok_or(ScriptFault::Short(start))?;
        guard.start = None;
        Ok(Some(command))
    }

    // The next bytes, which the position moves past; none where the script has fewer.
    fn take<const N: usize>(&mut self) -> Option<[u8; N]>
        ensures { Takes self.old N (take N (drop self.old.position self.old.script.now)) result self.new }
    {
        let rest = &self.script[self.position..];
        let bytes = rest.first_chunk::<N>()?;
        self.position += N;
        Some(*bytes)
    }

    // The operands of a form command.
    fn forming(&mut self) -> Option<Command>
        ensures { Takes self.old 7 (command_at self.old.script.now self.old.position Kind.Form) result self.new }
    {
        let [desks, faults, numbers, factor, book] = self.take::<5>()?;
        let group = Group {
            desks,
            numbers,
            faults,
            faulty: DeskSet::new(u16::from_be_bytes(self.take()?)),
        };
        Some(Command::Form(Forming {
            parameters: group.under(factor),
            book,
        }))
    }

    // The operands of an opening command.
    fn opening(&mut self) -> Option<Command>
        ensures { Takes self.old 6 (command_at self.old.script.now self.old.position Kind.Opening) result self.new }
    {
        Some(Command::Opening(Opening {
            figure: u16::from_be_bytes(self.take()?),
            amount: i32::from_be_bytes(self.take()?),
        }))
    }

    // The command of that kind, whose operands begin at the position. A match, since each kind has operands of its own.
    fn operands(&mut self, kind: Kind) -> Option<Command>
        ensures { Takes self.old (operand_bytes kind) (command_at self.old.script.now self.old.position kind) result self.new }
    {
        match kind {
            Kind::Form => self.forming(),
            Kind::Opening => self.opening(),
            Kind::Open => Some(Command::Open),
            Kind::Quiet => Some(Command::Quiet),
            Kind::Close => Some(Command::Close),
        }
    }
}
