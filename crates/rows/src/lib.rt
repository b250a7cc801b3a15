// What a row of the report is made of: bytes put into a lent buffer, decimal numbers, and the strand.
#![tactic(auto)]

pub mod inner;
