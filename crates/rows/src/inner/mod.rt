// Functions on lent buffers, which ask something of their callers.
pub mod puts;
pub mod strands;
