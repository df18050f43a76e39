ghost use Rattle.std.specs.Prelude.{◌≡◌};
ghost use Rattle.frame.specs.Refusals.{frame_refusal};

use desks::{Layer, Refusal};

/// Why a frame is not read or written.
#[derive(Clone, Copy, PartialEq, Eq, Debug)]
pub enum FrameFault {
    /// It has this many bytes, which is not the length of a frame.
    Length(usize),
    /// The protocol does not know its kind.
    Kind,
    /// Its origin is no desk of the group.
    Origin,
    /// Its number is 0, or above the most that a desk may publish.
    Number,
    /// It begins an item, and comes from a peer that is not its origin.
    Stranger,
    /// The output is shorter than these bytes.
    Output(usize),
}

// Its number, layer and place: that of the wrong byte, or a length.
impl From<FrameFault> for Refusal {
    ghost from_gives = { λ fault r. r ≡ frame_refusal fault };

    fn from(fault: FrameFault) -> Refusal {
        let layer = Layer::Frame;
        match fault {
            FrameFault::Length(length) => layer.refusal(7, length),
            FrameFault::Kind => layer.refusal(8, 0),
            FrameFault::Origin => layer.refusal(9, 1),
            FrameFault::Number => layer.refusal(10, 2),
            FrameFault::Stranger => layer.refusal(11, 1),
            FrameFault::Output(needed) => layer.refusal(4, needed),
        }
    }
}
