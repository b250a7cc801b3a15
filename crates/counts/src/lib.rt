// Flag counts: beside a store of flags, a lent entry for each block of 256 characters with the count of its set flags. The five calls on
// a store carry the entries along, and a query goes by them; at width 1, in `flags`.
#![tactic(auto)]

pub mod flags;
pub mod inner;
