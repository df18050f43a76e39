ghost use Rattle.std.specs.Prelude.{◌≡◌, ◌<◌, ◌≤◌, [], length, take, if◌then◌else◌, Some, None, nat_le};
ghost use Rattle.frame.specs.declared.kinds.Kind.TheVariants.{Init};
ghost use Rattle.frame.specs.Frames.{frame_kind, frame_origin, frame_number, frame_content};
ghost use Rattle.std.specs.Option.{option_copied};
ghost use Rattle.wire.specs.Posted.{posted, new_frame, fresh, TakenBy};

use desks::{DeskSet, ITEM_SIZE};
use frame::{Body, Frame, Kind};

/// The most bytes that a content has: a barrier byte for each of 16 desks, and an item.
pub const MOST_CONTENT: usize = 16 + ITEM_SIZE;

/// A frame on the wire. Of the content only the bytes that the group's contents have are in use: a place of the wire is
/// memory of a fixed size, lent by the caller, so each frame has room for the longest.
#[derive(Clone, Copy, PartialEq, Eq, Debug)]
pub struct Sent {
    sender: u8,
    kind: Kind,
    origin: u8,
    number: u8,
    content: [u8; MOST_CONTENT],
    taken: DeskSet,
}

impl Sent {
    // A frame that none took.
    pub(crate) fn new(sender: u8, frame: Frame<'_>) -> Sent
        requires { length (frame_content frame) ≤ 24 }
        ensures kept { result ≡ fresh sender (frame_kind frame.entry) (frame_origin frame.entry)
            (frame_number frame.entry) (frame_content frame.entry) }
        ensures meaning { posted (length (frame_content frame.entry)) result
            ≡ new_frame sender (frame_kind frame.entry) (frame_origin frame.entry)
            (frame_number frame.entry) (frame_content frame.entry) }
    {
        let content = frame.content();
        let mut room = [0u8; MOST_CONTENT];
        room[..content.len()].copy_from_slice(content);
        Sent {
            sender,
            kind: frame.kind(),
            origin: frame.origin(),
            number: frame.number(),
            content: room,
            taken: DeskSet::new(0),
        }
    }

    /// What fills places before any frame is sent.
    pub fn blank() -> Sent
        ensures kept { result ≡ fresh 0 Init 0 0 [] }
        ensures meaning { posted 0 result ≡ new_frame 0 Init 0 0 [] }
    {
        Sent::new(
            0,
            Frame::Init(Body {
                origin: 0,
                number: 0,
                content: &[],
            }),
        )
    }

    // The frame once that desk took it too.
    pub(crate) fn taken_by(self, desk: u8) -> Sent
        requires { desk < 16 }
        ensures { TakenBy desk self result }
    {
        Sent {
            taken: self.taken.with(desk),
            ..self
        }
    }

    pub fn sender(self) -> u8
        ensures { result ≡ self.sender }
    {
        self.sender
    }

    pub fn kind(self) -> Kind
        ensures { result ≡ self.kind }
    {
        self.kind
    }

    pub fn origin(self) -> u8
        ensures { result ≡ self.origin }
    {
        self.origin
    }

    pub fn number(self) -> u8
        ensures { result ≡ self.number }
    {
        self.number
    }

    /// The desks that took it.
    pub fn taken(self) -> DeskSet
        ensures { result ≡ self.taken }
    {
        self.taken
    }

    /// The first bytes of its content: as many as the group's contents have.
    pub fn content(&self, width: u8) -> Option<&[u8]>
        ensures { option_copied result ≡ (if nat_le width 24 then Some (take width self.now.content) else None) }
    {
        self.content.get(..usize::from(width))
    }
}
