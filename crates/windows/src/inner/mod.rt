// What the public calls are made of. Only these functions ask anything of their callers.
pub mod counts;
pub mod marks;
pub mod outcomes;
pub mod running;
pub mod windows;
