// Refusals, units, letters and words: the ground that views, stores and streams stand on.
#![tactic(auto)]

pub mod inner;
pub mod letters;
pub mod refusals;
pub mod units;
pub mod widths;
pub mod words;
