// What the public calls are made of, generic in the width. Only these functions ask anything of their callers.
pub mod outcomes;
