use desks::ITEM_SIZE;

/// The amount that a figure opens with, at every desk.
#[derive(Clone, Copy, PartialEq, Eq, Debug)]
pub struct Opening {
    pub figure: u16,
    pub amount: i32,
}

/// An item as it is entered: its bytes, and the desk that it comes from.
#[derive(Clone, Copy, PartialEq, Eq, Debug)]
pub struct Item {
    pub origin: u8,
    pub bytes: [u8; ITEM_SIZE],
}
