// Functions generic in the width, most of which ask something of their callers.
pub mod eight;
pub mod fills;
pub mod outcomes;
pub mod shapes;
pub mod turns;
