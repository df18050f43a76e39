use crate::{Cash, Payment};
use book::{Book, BookFault, Item, Opening, form};
use copies::Entry;
use desks::{ITEM_SIZE, Refusal};
use std::test::Fail;

fn bytes(kind: u8, payee: u8, amount: u32, zeros: [u8; 2]) -> [u8; ITEM_SIZE] {
    let [a, b, c, d] = amount.to_be_bytes();
    let [e, f] = zeros;
    [kind, payee, a, b, c, d, e, f]
}

fn item(origin: u8, kind: u8, payee: u8, amount: u32) -> Item {
    Item {
        origin,
        bytes: bytes(kind, payee, amount, [0, 0]),
    }
}

fn opening(figure: u16, amount: i32) -> Opening {
    Opening { figure, amount }
}

// Each field at its edges, for desk 1 of 3, and the offset of the first wrong one.
#[test]
fn reads_each_field_to_its_edges(rt: HostRuntime) {
    let cases = [
        (bytes(2, 0, 1, [0, 0]), Some(0)),
        (bytes(3, 0, 1, [0, 0]), None),
        (bytes(4, 0, 1, [0, 0]), Some(0)),
        (bytes(3, 1, 1, [0, 0]), Some(1)),
        (bytes(3, 2, 1, [0, 0]), None),
        (bytes(3, 3, 1, [0, 0]), Some(1)),
        (bytes(3, 0, 0, [0, 0]), Some(2)),
        (bytes(3, 0, 1_000_000, [0, 0]), None),
        (bytes(3, 0, 1_000_001, [0, 0]), Some(2)),
        (bytes(3, 0, 1, [1, 0]), Some(6)),
        (bytes(3, 0, 1, [0, 1]), Some(6)),
        (bytes(0, 1, 0, [1, 1]), Some(0)),
        (bytes(3, 1, 0, [1, 1]), Some(1)),
        (bytes(3, 0, 0, [1, 1]), Some(2)),
    ];
    for (bytes, wrong) in cases {
        assert_eq!(rt;
            Payment::read(3, Item { origin: 1, bytes })
                .err()
                .map(|fault| fault.offset),
            wrong
        );
    }
}

// Each balance takes an opening of 0 to 1,000,000,000.
#[test]
fn opens_to_the_edges(rt: HostRuntime) -> Result<(), Fail> {
    let mut memory = [0u8; 32];
    let mut book: Cash<'_> = form(2, &mut memory)?;
    let cases = [
        (0, 1_000_000_000, Ok(())),
        (1, 0, Ok(())),
        (2, 0, Err(BookFault::Figure(2))),
        (2, -1, Err(BookFault::Figure(2))),
        (1, -1, Err(BookFault::Amount)),
        (1, 1_000_000_001, Err(BookFault::Amount)),
    ];
    for (figure, amount, reply) in cases {
        assert_eq!(rt; book.open(opening(figure, amount)), reply);
    }
    for desk in 0..2 {
        assert_eq!(rt; book.figure(desk, 0)?, 1_000_000_000);
        assert_eq!(rt; book.figure(desk, 1)?, 0);
    }
    Ok(())
}

// A balance of 100 pays 100, and then not 1 more. Entered at desk 0, it changes nothing at desk 1.
#[test]
fn pays_to_the_last(rt: HostRuntime) -> Result<(), Fail> {
    let mut memory = [0u8; 32];
    let mut book: Cash<'_> = form(2, &mut memory)?;
    book.open(opening(1, 100))?;
    assert_eq!(rt; book.admits(0, item(1, 3, 0, 101)), Ok(false));
    assert_eq!(rt;
        book.enter(0, item(1, 3, 0, 101)),
        Err(BookFault::NotAdmitted(1))
    );
    assert_eq!(rt; book.admits(0, item(1, 3, 0, 100)), Ok(true));
    book.enter(0, item(1, 3, 0, 100))?;
    assert_eq!(rt;
        book.enter(0, item(1, 3, 0, 1)),
        Err(BookFault::NotAdmitted(1))
    );
    let refusal = Refusal::from(BookFault::NotAdmitted(1));
    assert!(rt; refusal.number == 25 && refusal.layer.letter() == 'B' && refusal.place == 1);
    let cases = [(0, 100, 0, 1), (1, 0, 100, 0)];
    for (desk, payee, origin, count) in cases {
        assert_eq!(rt; book.figure(desk, 0)?, payee);
        assert_eq!(rt; book.figure(desk, 1)?, origin);
        assert_eq!(rt; book.count(desk)?, count);
    }
    Ok(())
}

// Of three desks the last has a balance too, at every desk.
#[test]
fn opens_the_last_of_three(rt: HostRuntime) -> Result<(), Fail> {
    let mut memory = [0u8; 72];
    let mut book: Cash<'_> = form(3, &mut memory)?;
    assert_eq!(rt; book.figure(0, 2), Ok(0));
    assert_eq!(rt; book.open(opening(2, 7)), Ok(()));
    assert_eq!(rt; book.figure(1, 2), Ok(7));
    assert_eq!(rt; book.figure(1, 3), Err(BookFault::Figure(3)));
    Ok(())
}
