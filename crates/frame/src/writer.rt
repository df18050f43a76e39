ghost use Rattle.std.specs.Prelude.{◌≡◌, length};
ghost use Rattle.desks.specs.Firsts.{first, unless};
ghost use Rattle.frame.specs.Readings.{needed_by, output_tests, written};
ghost use Rattle.frame.specs.Laws.{ReadsBack};

use crate::faults::FrameFault;
use crate::frame::Frame;

/// Writes the bytes of a frame to the front of the output, and answers how many they are.
pub fn write(frame: Frame<'_>, out: &mut [u8]) -> Result<usize, FrameFault>
    ensures answer { result ≡ unless (first (output_tests frame.entry (length out.old))) (needed_by frame.entry) }
    ensures output { out.new ≡ written frame.entry out.old }
    ensures back { ReadsBack frame.entry result out.new }
{
    let head = [u8::from(frame.kind()), frame.origin(), frame.number()];
    let content = frame.content();
    let needed = head.len() + content.len();
    if out.len() < needed {
        return Err(FrameFault::Output(needed));
    }
    let (front, rest) = out.split_at_mut(head.len());
    front.copy_from_slice(&head);
    rest[..content.len()].copy_from_slice(content);
    Ok(needed)
}
