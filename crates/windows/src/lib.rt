// Flag windows over the lanes of a stream: whether a window of k flags holds a set one, filled or stepped; at width 1, in `flags`.
#![tactic(auto)]

pub mod answers;
pub mod flags;
pub mod inner;
