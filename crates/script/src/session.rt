ghost use Rattle.std.specs.Prelude.{◌≡◌, ℕ, [], IfOk, OnOk, Some};
ghost use Rattle.script.specs.Meaning.{day_of};
ghost use Rattle.script.specs.Turns.{Fetches, FormsFirst, whole_account};

use crate::books::DayBook;
use crate::day::{Day, answer};
use crate::form::{Formed, check};
use account::Line;
use reader::{Command, Reader, Stage};
use std::alloc::{AllocError, Global};

// A script as it is played: what is left to read of it, and the lines that it printed.
#[derive(Drop)]
pub(crate) struct Session<'s> {
    reader: Reader<'s>,
    pub(crate) lines: Vec<Line>,
}

impl<'s> Session<'s> {
    pub(crate) fn new(heap: Global, script: &'s [u8]) -> Session<'s>
        ensures script { result.reader.script ≡ script.entry }
        ensures position { result.reader.position ≡ 0 }
        ensures lines { result.lines.items ≡ [] }
    {
        Session {
            reader: Reader::new(script),
            lines: Vec::new(heap),
        }
    }

    // The next command, and the offset of its first byte; none where the script ends, at its last byte or at a fault of
    // reading, whose line is then added.
    #[tactic(auto, using(crate::proofs::Steps::one_by_one))]
    fn fetch(&mut self, stage: Stage) -> Result<Option<(usize, Command)>, AllocError>
        ensures turn { IfOk result (λ found. Fetches stage self.old found self.new) }
        ensures script { self.new.reader.script ≡ self.old.reader.script }
    {
        let offset = self.reader.position();
        match self.reader.next(stage) {
            Ok(found) => Ok(found.map(|command| (offset, command))),
            Err(fault) => {
                self.lines.push(Line::Refused(fault.into(), offset))?;
                Ok(None)
            }
        }
    }

    // Reads the script up to the first form command that is not refused.
    pub(crate) fn form_first(&mut self, memory: usize) -> Result<Option<Formed>, AllocError>
        ensures turn { IfOk result (λ formed. FormsFirst memory self.old formed self.new) }
        ensures script { OnOk result (self.new.reader.script.now ≡ self.old.reader.script.now) }
    {
        while let Some((offset, command)) = self.fetch(Stage::Unformed)? {
            if let Command::Form(forming) = command {
                let reply = check(forming, memory);
                self.lines.push(answer(Line::Formed, reply, offset))?;
                if let Ok(kind) = reply {
                    return Ok(Some(Formed {
                        parameters: forming.parameters,
                        kind,
                    }));
                }
            }
        }
        Ok(None)
    }

    // Carries out the commands of a formed floor until the script ends, at its last byte or at a fault of reading.
    pub(crate) fn play<'a, B: DayBook<'a> + Drop>(
        &mut self,
        mut day: Day<B>,
    ) -> Result<(), AllocError>
        ensures { OnOk result ((memory : ℕ) → self.new.lines.items ≡ whole_account memory self.old (Some (day_of B.DayBook day))) }
    {
        while let Some((offset, command)) = self.fetch(day.stage)? {
            day.step(command, offset, &mut self.lines)?;
        }
        Ok(())
    }
}
