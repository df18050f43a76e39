use crate::Log;

// Three places are filled, the fourth entry is refused, and one entry is replaced.
#[test]
fn three_places(rt: HostRuntime) {
    let mut places = [0u8; 3];
    let mut log = Log::new(&mut places);
    for entry in [4, 5, 6] {
        assert!(rt; log.push(entry).is_ok());
    }
    assert_eq!(rt; log.push(7), Err(7));
    assert_eq!(rt; log.replace(1, 8), Some(5));
    assert_eq!(rt; log.entries(), [4, 8, 6].as_slice());
    assert_eq!(rt; log.get(1), Some(8));
    assert_eq!(rt; log.get(3), None);
}
