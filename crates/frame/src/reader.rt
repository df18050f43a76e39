ghost use Rattle.std.specs.Prelude.{◌≡◌};
ghost use Rattle.frame.specs.Readings.{reading, reply};
ghost use Rattle.frame.specs.Laws.{ReadsItsBytes, ReadsWhatFits};

use crate::faults::FrameFault;
use crate::frame::{Body, Frame};
use crate::kinds::{Kind, Kinds};
use desks::ITEM_SIZE;

/// Reads a frame that a peer sent to a group of that many desks, which publish at most that many numbers: no more of a group
/// decides whether bytes are a frame.
pub fn read<'a>(
    bytes: &'a [u8],
    desks: u8,
    numbers: u8,
    kinds: Kinds,
    peer: u8,
) -> Result<Frame<'a>, FrameFault>
    ensures answer { reply result ≡ reading bytes.now desks numbers kinds peer }
    ensures same { ReadsItsBytes bytes.now desks numbers kinds peer result }
    ensures all { ReadsWhatFits bytes.now desks numbers kinds peer result }
{
    let &[kind, origin, number, ref content @ ..] = bytes else {
        return Err(FrameFault::Length(bytes.len()));
    };
    if content.len() != usize::from(desks) + ITEM_SIZE {
        return Err(FrameFault::Length(bytes.len()));
    }
    let kind = Kind::try_from(kind)?;
    if !kinds.has(kind) {
        return Err(FrameFault::Kind);
    }
    if origin >= desks {
        return Err(FrameFault::Origin);
    }
    if !(1..=numbers).contains(&number) {
        return Err(FrameFault::Number);
    }
    if kind == Kind::Init && origin != peer {
        return Err(FrameFault::Stranger);
    }
    let body = Body {
        origin,
        number,
        content,
    };
    Ok(Frame::new(kind, body))
}
