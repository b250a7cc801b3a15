// What the calls that read .2bit files answer.
use codes::units::Chars;

// An entry of the index: its number, and the byte at which it stands.
#[derive(Clone, Copy)]
pub struct Cursor {
    pub number: usize,
    pub at: usize,
}

// The name's first byte and its size, the record's offset, and the next entry's number and place.
#[derive(Clone, Copy)]
pub struct Entry {
    pub name: usize,
    pub size: usize,
    pub offset: usize,
    pub number: usize,
    pub at: usize,
}

// The length of a record's sequence, and the number of its N blocks and of its mask blocks.
#[derive(Clone, Copy)]
pub struct Info {
    pub len: Chars,
    pub blocks: usize,
    pub masks: usize,
}

// The length of both stores, and the number of mask blocks.
#[derive(Clone, Copy)]
pub struct Read {
    pub len: Chars,
    pub masks: usize,
}
