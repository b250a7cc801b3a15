// What the public calls are made of. Only these functions ask anything of their callers.
pub mod blocks;
pub mod files;
pub mod filling;
pub mod records;

// The version that is written and read, and the bytes of an offset of its index.
pub const VERSION: usize = 0;

pub const OFFSET: usize = 4;

// The bytes of the header.
pub const HEADER: usize = 16;

// The first number of a file.
pub const SIGNATURE: usize = 0x1a41_2743;
