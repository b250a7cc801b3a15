// What the public calls are made of. Only these functions ask anything of their callers.
pub mod numbers;
pub mod reading;
pub mod tracks;
pub mod writing;

// The most characters of a form.
pub const MOST: usize = 0x2000_0000;
