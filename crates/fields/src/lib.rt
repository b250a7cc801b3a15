// One view over the width: whether it is refused, its bits, its characters, its words, its set flags, and the numbers and the bytes of its parts.
// The calls on views are made of these.
#![tactic(auto)]

pub mod inner;
