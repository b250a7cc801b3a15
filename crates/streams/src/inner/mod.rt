// What the public calls are made of. Only these functions ask anything of their callers.
pub mod outcomes;
pub mod steps;
