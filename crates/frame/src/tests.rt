use crate::faults::FrameFault;
use crate::frame::{Body, Frame};
use crate::kinds::Kinds;
use crate::reader::read;
use crate::writer::write;

// Two desks, with one number each and a factor of 3, hear from desk 1.
fn heard<'a>(bytes: &'a [u8]) -> Result<Frame<'a>, FrameFault> {
    read(bytes, 2, 1, Kinds::of_factor(3), 1)
}

fn fault_of(bytes: &[u8]) -> Option<FrameFault> {
    heard(bytes).err()
}

// Each of these has what the refusals behind it name too.
#[test]
fn length_kind_and_origin(rt: HostRuntime) {
    assert_eq!(rt; fault_of(&[4, 2]), Some(FrameFault::Length(2)));
    assert_eq!(rt;
        fault_of(&[4, 2, 2, 0, 0, 0, 0, 0, 0, 0, 0, 0]),
        Some(FrameFault::Length(12))
    );
    assert_eq!(rt;
        fault_of(&[4, 2, 2, 0, 0, 0, 0, 0, 0, 0, 0, 0, 0]),
        Some(FrameFault::Kind)
    );
    assert_eq!(rt;
        fault_of(&[1, 2, 2, 0, 0, 0, 0, 0, 0, 0, 0, 0, 0]),
        Some(FrameFault::Origin)
    );
}

#[test]
fn number_and_peer(rt: HostRuntime) {
    assert_eq!(rt;
        fault_of(&[1, 0, 2, 0, 0, 0, 0, 0, 0, 0, 0, 0, 0]),
        Some(FrameFault::Number)
    );
    assert_eq!(rt;
        fault_of(&[1, 0, 1, 0, 0, 0, 0, 0, 0, 0, 0, 0, 0]),
        Some(FrameFault::Stranger)
    );
    assert_eq!(rt; fault_of(&[1, 1, 1, 0, 0, 0, 0, 0, 0, 0, 0, 0, 0]), None);
}

// A frame read, written and read again; an output that is a byte short is left as it was.
#[test]
fn written_and_read_again(rt: HostRuntime) {
    let bytes = [2, 0, 1, 3, 4, 5, 6, 7, 8, 9, 10, 11, 12];
    let mut short = [99; 12];
    let mut out = [99; 14];
    let body = Body {
        origin: 0,
        number: 1,
        content: &bytes[3..],
    };
    let Ok(frame) = heard(&bytes) else {
        assert!(rt; false);
        return;
    };
    assert_eq!(rt; write(frame, &mut short), Err(FrameFault::Output(13)));
    assert_eq!(rt; short, [99; 12]);
    assert_eq!(rt; write(frame, &mut out), Ok(13));
    assert_eq!(rt; out[13], 99);
    assert_eq!(rt; heard(&out[..13]), Ok(Frame::Echo(body)));
}
