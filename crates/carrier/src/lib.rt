//! What a carrier is: its faults, its meaning and laws, and the calls that every carrier answers.
#![tactic(auto)]

ghost use Rattle.std.specs.Prelude.{◌≡◌, ℕ, ◌-◌, length, None};
ghost use Rattle.carrier.specs.Model.{CarrierModel, bytes_reply, form_fault, check_reply, Made, Forms};
ghost use Rattle.carrier.specs.Questions.{accepted_reply, accepted_as, frame_reply, frame_as};

use desks::Group;
use wire::Sent;

mod checks;
mod faults;

pub use checks::{check_group, check_size};
pub use faults::CarrierFault;

/// A reliable broadcast among the desks of a group: what desks offer is carried by frames on a wire, and each correct desk
/// accepts contents. Which frames are sent and when a content is accepted is the carrier's own.
pub trait Carrier<'a>: Sized {
    /// The desks outnumber the faults by this factor.
    const FACTOR: u8;

    /// The constant's value, for contracts: whoever implements the trait gives both, and they are shown equal.
    ghost FACTOR: { ℕ };

    ghost model: { CarrierModel Self };

    /// The constant, as a call: it is the factor that the laws speak of.
    fn resilience() -> u8
        ensures constant { result ≡ FACTOR }
        ensures meant { result ≡ model.factor };

    /// The bytes that it needs for so many desks and numbers.
    fn bytes(desks: u8, numbers: u8) -> Result<usize, CarrierFault>
        ensures { result ≡ bytes_reply model desks numbers };

    /// Whether it can be made.
    fn check(group: Group, memory: &[u8]) -> Result<(), CarrierFault>
        ensures { result ≡ check_reply model group (length memory.now) };

    /// A new carrier, with no frame on the wire.
    fn make(group: Group, memory: &'a mut [u8], places: &'a mut [Sent]) -> Self
        requires { form_fault model group (length memory.old) ≡ None }
        ensures { Made model group memory.old (length places.old) result };

    fn group(&self) -> Group
        ensures { result ≡ (model.meaning self.now).group };

    /// How many frames the wire holds.
    fn held(&self) -> usize
        ensures { result ≡ length (model.meaning self.now).wire };

    /// How many places of the wire are free.
    fn room(&self) -> usize
        ensures { result ≡ (model.meaning self.now).places - length (model.meaning self.now).wire };

    /// How many contents a desk offered.
    fn offered(&self, desk: u8) -> u8
        ensures { result ≡ length ((model.meaning self.now).offered desk) };

    /// What a desk accepted under an identity.
    fn accepted(&self, desk: u8, origin: u8, number: u8) -> Result<Option<&[u8]>, CarrierFault>
        ensures { accepted_as result ≡ accepted_reply (model.meaning self.now) desk origin number };

    /// The frame at a place of the wire.
    fn frame(&self, place: usize) -> Result<Sent, CarrierFault>
        ensures { frame_as (model.meaning self.now).group result ≡ frame_reply (model.meaning self.now) place };

    /// A desk offers a content under its next number, which is answered.
    fn offer(&mut self, desk: u8, content: &[u8]) -> Result<u8, CarrierFault>
        ensures { model.offers self.old desk content.now result self.new };

    /// A desk takes the frame at a place: how many frames it sent, and whether it accepted a content. Every layer above answers
    /// the same pair.
    fn take(&mut self, place: usize, desk: u8) -> Result<(u8, bool), CarrierFault>
        ensures { model.takes self.old place desk result self.new };

    /// A desk receives bytes as from a faulty peer.
    fn feign(&mut self, peer: u8, desk: u8, bytes: &[u8]) -> Result<(u8, bool), CarrierFault>
        ensures { model.feigns self.old peer desk bytes.now result self.new };
}

/// Forms a carrier on lent memory, or says why not. A book's `form` is alike and has no parameter in common with it but the
/// memory: one function for both would take a trait of its own for what is made of what.
pub fn form<'a, C: Carrier<'a>>(
    group: Group,
    memory: &'a mut [u8],
    places: &'a mut [Sent],
) -> Result<C, CarrierFault>
    ensures { Forms C.Carrier.model group memory.old (length places.old) result }
{
    C::check(group, memory)?;
    Ok(C::make(group, memory, places))
}
