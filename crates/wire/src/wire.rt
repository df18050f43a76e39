ghost use Rattle.std.specs.Prelude.{◌≡◌, ◌-◌, length, is_ok};
ghost use Rattle.std.specs.List.{slice_get};
ghost use Rattle.std.specs.Option.{option_map};
ghost use Rattle.desks.specs.Firsts.{first, unless};
ghost use Rattle.frame.specs.Frames.{frame_content, saying};
ghost use Rattle.wire.specs.Posted.{posted, frames};
ghost use Rattle.wire.specs.Posted.{places as places_of};
ghost use Rattle.wire.specs.Declines.{mark_tests, post_tests};
ghost use Rattle.wire.specs.Changes.{Made, Marks, Posts};
ghost use Rattle.lent_log.specs.Entries.{entry_at};

use crate::faults::WireFault;
use crate::sent::{MOST_CONTENT, Sent};
use frame::Frame;
use lent_log::Log;

/// A list of frames over lent places, for contents of `width` bytes: as many as the group that is formed has.
#[derive(Debug, Drop)]
pub struct Wire<'a> {
    log: Log<'a, Sent>,
    width: u8,
}

impl<'a> Wire<'a> {
    /// An empty wire. What the places hold is not read.
    #[tactic(auto, unfolding(crate::specs::Posted::frames))]
    pub fn new(places: &'a mut [Sent], width: u8) -> Wire<'a>
        ensures { Made places.entry width result }
    {
        Wire {
            log: Log::new(places),
            width,
        }
    }

    /// How many frames it holds.
    #[tactic(auto, using(crate::proofs::Kept::frames_size))]
    pub fn held(&self) -> usize
        ensures { result ≡ length (frames self.now) }
    {
        self.log.len()
    }

    /// How many more it has places for.
    #[tactic(auto, using(crate::proofs::Kept::frames_room))]
    pub fn room(&self) -> usize
        ensures { result ≡ places_of self.now - length (frames self.now) }
    {
        self.log.room()
    }

    /// The frame at a place, none past the last.
    #[tactic(auto, using(crate::proofs::Kept::frames_nth))]
    pub fn get(&self, place: usize) -> Option<Sent>
        ensures kept { result ≡ entry_at self.now.log place }
        ensures meaning { option_map (posted self.now.width) result ≡ slice_get (frames self.now) place }
    {
        self.log.get(place)
    }

    /// The desk took the frame at that place.
    #[tactic(auto, using(crate::proofs::Kept::standing))]
    pub fn mark(&mut self, place: usize, desk: u8) -> Result<(), WireFault>
        ensures answer { result ≡ unless (first (mark_tests self.old place desk)) tt }
        ensures change { Marks self.old place desk (is_ok result) self.new }
    {
        if desk >= 16 {
            return Err(WireFault::Desk(desk));
        }
        let sent = self.log.get(place).ok_or(WireFault::NoFrame(place))?;
        self.log.replace(place, sent.taken_by(desk));
        Ok(())
    }

    /// A new frame of a desk at the end.
    #[tactic(auto, using(crate::proofs::Kept::standing), unfolding(crate::specs::Posted::frames))]
    pub fn post(&mut self, sender: u8, frame: Frame<'_>) -> Result<(), WireFault>
        ensures answer { result ≡ unless (first (post_tests self.old (frame_content frame.entry))) tt }
        ensures change { Posts self.old sender (saying frame.entry) (is_ok result) self.new }
    {
        let size = frame.content().len();
        if size != usize::from(self.width) || size > MOST_CONTENT {
            return Err(WireFault::Length(size));
        }
        let held = self.held();
        self.log
            .push(Sent::new(sender, frame))
            .map_err(|_| WireFault::NoRoom(held))
    }
}
