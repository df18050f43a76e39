use crate::{Positions, Trade};
use book::{Book, BookFault, Hedged, Item, Opening, form};
use desks::ITEM_SIZE;
use std::test::Fail;

fn bytes(kind: u8, instrument: u8, lots: i32, zeros: [u8; 2]) -> [u8; ITEM_SIZE] {
    let [a, b, c, d] = lots.to_be_bytes();
    let [e, f] = zeros;
    [kind, instrument, a, b, c, d, e, f]
}

fn item(origin: u8, kind: u8, instrument: u8, lots: i32) -> Item {
    Item {
        origin,
        bytes: bytes(kind, instrument, lots, [0, 0]),
    }
}

fn opening(figure: u16, amount: i32) -> Opening {
    Opening { figure, amount }
}

// Each field at its edges, and the offset of the first wrong one.
#[test]
fn reads_each_field_to_its_edges(rt: HostRuntime) {
    let cases = [
        (bytes(0, 0, 1, [0, 0]), Some(0)),
        (bytes(1, 0, 1, [0, 0]), None),
        (bytes(2, 0, 1, [0, 0]), None),
        (bytes(3, 0, 1, [0, 0]), Some(0)),
        (bytes(1, 63, 1, [0, 0]), None),
        (bytes(1, 64, 1, [0, 0]), Some(1)),
        (bytes(1, 0, 0, [0, 0]), Some(2)),
        (bytes(1, 0, -1, [0, 0]), None),
        (bytes(1, 0, 10_000, [0, 0]), None),
        (bytes(1, 0, 10_001, [0, 0]), Some(2)),
        (bytes(1, 0, -10_000, [0, 0]), None),
        (bytes(1, 0, -10_001, [0, 0]), Some(2)),
        (bytes(1, 0, 1, [1, 0]), Some(6)),
        (bytes(1, 0, 1, [0, 1]), Some(6)),
        (bytes(3, 64, 0, [1, 1]), Some(0)),
        (bytes(1, 64, 0, [1, 1]), Some(1)),
        (bytes(1, 0, 0, [1, 1]), Some(2)),
    ];
    for (item, wrong) in cases {
        assert_eq!(rt;
            Trade::try_from(item).err().map(|fault| fault.offset),
            wrong
        );
    }
}

// Only fills take an opening, of at most 10,000 lots either way.
#[test]
fn opens_to_the_edges(rt: HostRuntime) -> Result<(), Fail> {
    let mut memory = [0u8; 2048];
    let mut book: Positions<'_> = form(2, &mut memory)?;
    let cases = [
        (0, 10_000, Ok(())),
        (63, -10_000, Ok(())),
        (64, 0, Err(BookFault::Figure(64))),
        (64, 10_001, Err(BookFault::Figure(64))),
        (63, 10_001, Err(BookFault::Amount)),
        (63, -10_001, Err(BookFault::Amount)),
    ];
    for (figure, amount, reply) in cases {
        assert_eq!(rt; book.open(opening(figure, amount)), reply);
    }
    for desk in 0..2 {
        assert_eq!(rt; book.figure(desk, 0)?, 10_000);
        assert_eq!(rt; book.figure(desk, 63)?, -10_000);
    }
    Ok(())
}

// An item entered at desk 0 changes nothing at desk 1.
#[test]
fn enters_at_one_desk(rt: HostRuntime) -> Result<(), Fail> {
    let mut memory = [0u8; 2048];
    let mut book: Positions<'_> = form(2, &mut memory)?;
    book.open(opening(7, 500))?;
    book.enter(0, item(1, 1, 7, -200))?;
    book.enter(0, item(1, 2, 7, 50))?;
    assert_eq!(rt; book.enter(0, item(2, 1, 7, 1)), Err(BookFault::Desk(2)));
    assert_eq!(rt;
        book.enter(1, item(0, 1, 7, 0)),
        Err(BookFault::Malformed(2))
    );
    let cases = [(0, 300, 50, 2, -350), (1, 500, 0, 0, -500)];
    for (desk, filled, hedged, count, need) in cases {
        assert_eq!(rt; book.figure(desk, 7)?, filled);
        assert_eq!(rt; book.figure(desk, 71)?, hedged);
        assert_eq!(rt; book.count(desk)?, count);
        assert_eq!(rt; book.need(desk)?, need);
    }
    Ok(())
}
