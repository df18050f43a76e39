/// Why a frame is not put on a wire, or not marked there.
#[derive(Clone, Copy, PartialEq, Eq, Debug)]
pub enum WireFault {
    /// The content has this many bytes, which is not what the wire is for, or more than a place holds.
    Length(usize),
    /// The wire holds this many frames, and has no place left.
    NoRoom(usize),
    /// No desk has this number.
    Desk(u8),
    /// No frame stands at this place of the wire.
    NoFrame(usize),
}
