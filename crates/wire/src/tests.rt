use crate::{Sent, Wire, WireFault};
use frame::{Body, Frame, Kind};

// A frame of an item of desk 1.
fn frame<'a>(kind: Kind, number: u8, content: &'a [u8]) -> Frame<'a> {
    Frame::new(
        kind,
        Body {
            origin: 1,
            number,
            content,
        },
    )
}

// Two frames are posted, a content of another size is refused, and one frame is taken by one desk.
#[test]
fn two_frames(rt: HostRuntime) {
    let mut places = [Sent::blank(); 3];
    let mut wire = Wire::new(&mut places, 4);
    assert!(rt; wire.post(2, frame(Kind::Init, 1, &[1, 2, 3, 4])).is_ok());
    assert!(rt; wire.post(3, frame(Kind::Echo, 2, &[5, 6, 7, 8])).is_ok());
    assert_eq!(rt;
        wire.post(3, frame(Kind::Echo, 2, &[5, 6, 7])),
        Err(WireFault::Length(3))
    );
    assert_eq!(rt; wire.held(), 2);
    assert_eq!(rt; wire.room(), 1);
    assert!(rt; wire.mark(1, 4).is_ok());
    assert_eq!(rt; wire.mark(2, 4), Err(WireFault::NoFrame(2)));
    let Some(first) = wire.get(0) else {
        assert!(rt; false);
        return;
    };
    let Some(second) = wire.get(1) else {
        assert!(rt; false);
        return;
    };
    assert_eq!(rt; first.taken().has(4), false);
    assert!(rt; second.taken().has(4));
    assert_eq!(rt; second.taken().has(0), false);
    assert_eq!(rt; second.sender(), 3);
    assert_eq!(rt; second.kind(), Kind::Echo);
    assert_eq!(rt; second.origin(), 1);
    assert_eq!(rt; second.number(), 2);
}
