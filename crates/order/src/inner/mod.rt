// What the public calls are made of: functions generic in the width, over plain slices. Only these ask anything of their callers.
pub mod compare;
pub mod find;
pub mod least;
pub mod pairs;
