// What the public calls, here and in the crates above, are made of. Only these functions ask anything of their callers.
pub mod bits;
pub mod checks;
pub mod counts;
pub mod flips;
pub mod packing;
pub mod tracks;
