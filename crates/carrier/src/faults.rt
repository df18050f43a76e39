ghost use Rattle.std.specs.Prelude.{◌≡◌};
ghost use Rattle.carrier.specs.declared.faults.CarrierFault.TheVariants.{Form, Frame};
ghost use Rattle.carrier.specs.Refusals.{carrier_refusal};

use desks::{FormFault, Layer, Refusal};
use frame::FrameFault;

/// Why a carrier declines a call. A fault of a frame is kept whole.
#[derive(Clone, Copy, PartialEq, Eq, Debug)]
pub enum CarrierFault {
    /// It cannot be formed.
    Form(FormFault),
    /// No desk of the group has this number.
    Desk(u8),
    /// The frame, the content or the identity is not one of the group.
    Frame(FrameFault),
    /// This desk is faulty.
    Faulty(u8),
    /// This peer is correct, and sends its own frames.
    CorrectPeer(u8),
    /// This desk has offered under all its numbers.
    NoNumber(u8),
    /// The wire holds this many frames, and has too few places left.
    NoRoom(usize),
    /// No frame stands at this place of the wire.
    NoFrame(usize),
    /// The desk accepted another content of this origin under the number.
    Second(u8),
}

// Lifted by hand, since a derived `From` has no contract.
impl From<FormFault> for CarrierFault {
    ghost from_gives = { λ f r. r ≡ Form f };

    fn from(fault: FormFault) -> CarrierFault {
        CarrierFault::Form(fault)
    }
}

impl From<FrameFault> for CarrierFault {
    ghost from_gives = { λ f r. r ≡ Frame f };

    fn from(fault: FrameFault) -> CarrierFault {
        CarrierFault::Frame(fault)
    }
}

// Its number, layer and place.
impl From<CarrierFault> for Refusal {
    ghost from_gives = { λ fault r. r ≡ carrier_refusal fault };

    fn from(fault: CarrierFault) -> Refusal {
        let layer = Layer::Carrier;
        match fault {
            CarrierFault::Form(form) => form.refusal(layer),
            CarrierFault::Desk(desk) => layer.refusal(5, usize::from(desk)),
            CarrierFault::Frame(frame) => frame.into(),
            CarrierFault::Faulty(desk) => layer.refusal(21, usize::from(desk)),
            CarrierFault::CorrectPeer(peer) => layer.refusal(22, usize::from(peer)),
            CarrierFault::NoNumber(desk) => layer.refusal(23, usize::from(desk)),
            CarrierFault::NoRoom(held) => layer.refusal(26, held),
            CarrierFault::NoFrame(place) => layer.refusal(27, place),
            CarrierFault::Second(origin) => layer.refusal(28, usize::from(origin)),
        }
    }
}
