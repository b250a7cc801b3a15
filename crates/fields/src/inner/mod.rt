// Functions generic in the width, over plain slices. Only these ask anything of their callers.
pub mod flags;
pub mod loads;
pub mod parts;
pub mod runs;
pub mod words;
pub mod writes;
